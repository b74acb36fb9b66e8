ghost use Rattle.std.specs.Prelude.{◌≡◌};
ghost use Rattle.std.specs.Ordering.{nat_cmp};
ghost use Rattle.btr_base.specs.Key.{key_cmp, key_number};

use crate::field::u64_at;
use std::cmp::Ordering;

/// The key of an item. Keys are ordered by objectid, then kind, then offset.
#[derive(Clone, Copy, Debug, PartialEq, Eq)]
pub struct Key {
    pub objectid: u64,
    pub kind: u8,
    pub offset: u64,
}

/// The first key that there is.
pub const FIRST_KEY: Key = Key {
    objectid: 0,
    kind: 0,
    offset: 0,
};

/// The last one.
pub const LAST_KEY: Key = Key {
    objectid: u64::MAX,
    kind: u8::MAX,
    offset: u64::MAX,
};

impl Key {
    ghost use Rattle.std.specs.Prelude.{◌≡◌, ◌+◌, ◌≤◌, ◌↔◌, length, IsNone, IfSome};
    ghost use Rattle.btr_base.specs.Key.{key_at, key_lt, key_number, last_key};

    /// The key in the first 17 bytes.
    pub fn read(bytes: &[u8]) -> Key
        requires { 17 ≤ length bytes.now }
        ensures { result ≡ key_at 0 bytes.now }
    {
        Key {
            objectid: u64_at(bytes, 0),
            kind: bytes[8],
            offset: u64_at(bytes, 9),
        }
    }

    /// The key behind this one, with nothing between them; `None` for the last key there is.
    pub fn next(self) -> Option<Key>
        ensures last { IsNone result ↔ (self ≡ last_key) }
        ensures number { IfSome result (λ next. key_number next ≡ key_number self + 1) }
    {
        if self.offset < u64::MAX {
            return Some(Key {
                offset: self.offset + 1,
                ..self
            });
        }
        if self.kind < u8::MAX {
            return Some(Key {
                kind: self.kind + 1,
                offset: 0,
                ..self
            });
        }
        if self.objectid < u64::MAX {
            return Some(Key {
                objectid: self.objectid + 1,
                kind: 0,
                offset: 0,
            });
        }
        None
    }

    /// Whether this key stands before the other one. Field by field, since the view of a block spends half of its time
    /// here.
    pub fn is_before(self, other: Key) -> bool
        ensures { result ≡ key_lt self other }
    {
        if self.objectid != other.objectid {
            return self.objectid < other.objectid;
        }
        if self.kind != other.kind {
            return self.kind < other.kind;
        }
        self.offset < other.offset
    }
}

// By objectid, then kind, then offset, which is as the numbers of the keys are ordered.
fn compare(a: Key, b: Key) -> Ordering
    ensures fields { result ≡ key_cmp a b }
    ensures number { result ≡ nat_cmp (key_number a) (key_number b) }
{
    a.objectid
        .cmp(&b.objectid)
        .then(a.kind.cmp(&b.kind))
        .then(a.offset.cmp(&b.offset))
}

impl Ord for Key {
    ghost use Rattle.std.specs.Prelude.{◌≡◌};
    ghost use Rattle.std.proofs.Common.{rules};
    ghost use Rattle.std.specs.Cmp.Rules.{comparing};
    ghost use Rattle.std.specs.Ordering.{nat_cmp};
    ghost use Rattle.btr_base.specs.Key.{key_cmp, key_number};

    ghost cmp = { key_cmp };

    ghost total = { Prim.search (comparing, rules) depth 9 };

    ghost matches_partial_cmp = { Prim.search (comparing, rules) depth 9 };

    ghost matches_eq = { Prim.search (comparing, rules) depth 9 };

    fn cmp(&self, other: &Key) -> Ordering
        ensures fields { result ≡ key_cmp self.now other.now }
        ensures number { result ≡ nat_cmp (key_number self.now) (key_number other.now) }
    {
        compare(*self, *other)
    }
}

impl PartialOrd for Key {
    ghost use Rattle.std.proofs.Common.{rules};
    ghost use Rattle.std.specs.Cmp.{partial_order_from_own_ties};
    ghost use Rattle.std.specs.Cmp.Rules.{comparing};
    ghost use Rattle.std.specs.Ordering.{as_partial_cmp};
    ghost use Rattle.btr_base.specs.Key.{key_cmp};

    ghost partial_cmp = { as_partial_cmp key_cmp };

    ghost laws = { partial_order_from_own_ties
        (Prim.search (comparing, rules) depth 9)
        (Prim.search (comparing, rules) depth 9) };

    fn partial_cmp(&self, other: &Key) -> Option<Ordering> {
        Some(self.cmp(other))
    }
}
