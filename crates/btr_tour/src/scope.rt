use btr_base::{Key, SumKind};

/// What a tour gives: the items from one key to another, and headers with checksums of a kind.
#[derive(Clone, Copy)]
pub(crate) struct Scope {
    pub(crate) lo: Key,
    pub(crate) hi: Key,
    pub(crate) sums: SumKind,
}
