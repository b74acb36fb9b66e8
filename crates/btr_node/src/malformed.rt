/// The refusal of a block that breaks a rule of one block.
#[derive(Clone, Copy, Debug, PartialEq, Eq)]
pub struct Malformed;
