/// The body, or the key, of an item breaks the form of its type.
#[derive(Clone, Copy, Debug, PartialEq, Eq)]
pub struct ItemFault;
