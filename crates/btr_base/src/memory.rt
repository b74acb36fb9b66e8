/// The refusal for want of memory.
#[derive(Clone, Copy, Debug, PartialEq, Eq)]
pub struct Memory;
