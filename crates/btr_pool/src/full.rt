/// The refusal of [`Pool::take`](crate::Pool::take): no slot is free.
#[derive(Clone, Copy, Debug, PartialEq, Eq)]
pub struct Full;
