// A name that waits in a list.
ghost use Rattle.std.specs.Prelude.{◌≡◌, ◌+◌, ◌<◌, ◌≤◌, length, take, drop, IfSome};
ghost use Rattle.btr_check_names.specs.Pairs.{fits};
ghost use Rattle.btr_check_names.specs.Slots.{IsInside, half_in, waits};

use crate::Target;
use crate::claim::Claim;
use btr_items::item;
use std::marker::Model;

/// A name that waits in a list: what is claimed with it, and where its bytes lie. It has 32 bytes, so it can say only of a short name that
/// leads to an inode. A name without bytes waits no more.
#[derive(Drop)]
pub(crate) struct Slot {
    dir: u64,
    offset: u64,
    objectid: u64,
    at: u32,
    kind: u16,
    len: u8,
    is_first: bool,
}

impl Model for Slot {
    ghost use Rattle.btr_check_names.specs.Slots as slots;

    ghost Value = { slots.Slot };

    ghost view = { λ slot. record {
      claim = record {
        dir = slot.dir;
        offset = slot.offset;
        target = record { objectid = slot.objectid; kind = 1; offset = 0 };
        kind = slot.kind;
      };
      is_first = slot.is_first;
      at = slot.at;
      len = slot.len;
    } };
}

impl Slot {
    /// A name of `len` bytes that lie from `at` on, and waits; `None` where a slot can't say so.
    pub(crate) fn new(claim: &Claim, is_first: bool, at: u32, len: usize) -> Option<Slot>
        ensures slot { IfSome result (λ slot. slot ≡ record { claim = claim.now; is_first = is_first; at = at; len = len }) }
        ensures waits { IfSome result (λ _. (0 < len) × (len < 256)) }
    {
        if len == 0 || claim.target.kind != item::INODE_ITEM || claim.target.offset != 0 {
            return None;
        }
        let (Ok(kind), Ok(len)) = (u16::try_from(claim.kind), u8::try_from(len)) else {
            return None;
        };
        Some(Slot {
            dir: claim.dir,
            offset: claim.offset,
            objectid: claim.target.objectid,
            at,
            kind,
            len,
            is_first,
        })
    }

    /// What is claimed with the name.
    pub(crate) fn claim(&self) -> Claim
        ensures { result ≡ self.now.claim }
    {
        Claim {
            dir: self.dir,
            offset: self.offset,
            target: Target {
                objectid: self.objectid,
                kind: item::INODE_ITEM,
                offset: 0,
            },
            kind: u32::from(self.kind),
        }
    }

    /// Whether the name waits.
    pub(crate) fn waits(&self) -> bool
        ensures { result ≡ waits self.now }
    {
        self.len != 0
    }

    /// Whether it is the other one of the two items, and gives this name.
    pub(crate) fn fits(&self, names: &[u8], is_first: bool, name: &[u8]) -> bool
        requires { IsInside names.now self.now }
        ensures { result ≡ fits (half_in names.now self.now) is_first name.now }
    {
        self.is_first != is_first && self.name(names) == name
    }

    /// Its name among the bytes of all names.
    pub(crate) fn name<'a>(&self, names: &'a [u8]) -> &'a [u8]
        requires { IsInside names.now self.now }
        ensures name { result.now ≡ take self.now.len (drop self.now.at names.now) }
        ensures len { length result.now < 256 }
    {
        let at = self.at as usize;
        &names[at..at + usize::from(self.len)]
    }

    /// Its name lies from `at` on.
    pub(crate) fn move_to(&mut self, at: u32)
        ensures { self.new ≡ record { claim = self.old.claim; is_first = self.old.is_first; at = at; len = self.old.len } }
    {
        self.at = at;
    }

    /// The name waits no more.
    pub(crate) fn let_go(&mut self)
        ensures { self.new ≡ record { claim = self.old.claim; is_first = self.old.is_first; at = self.old.at; len = 0 } }
    {
        self.len = 0;
    }
}
