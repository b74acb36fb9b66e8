// Extents that are found by their addresses.
ghost use Rattle.std.specs.Prelude.{◌≡◌, true};
ghost use Rattle.std.specs.List.Sorted.{IsNonDecreasingBy};
ghost use Rattle.btr_findings.specs.declared.extent.Extent.{Extent};
ghost use Rattle.btr_refs.specs.Misusing.{extents_at};

use btr_findings::Extent;
use std::marker::Model;

/// Extents in the order of their items, which is that of their addresses in each tree that is sound.
#[derive(Drop)]
pub(crate) struct ExtentList {
    extents: Vec<Extent>,
    ascends: bool,
}

impl Model for ExtentList {
    ghost use Rattle.std.specs.Prelude.{◌≡◌, true, List};
    ghost use Rattle.std.specs.List.Sorted.{IsNonDecreasingBy};
    ghost use Rattle.btr_findings.specs.declared.extent.Extent.{Extent};

    ghost Value = { List Extent };

    ghost view = { λ list. list.extents.items };

    ghost invariant = { λ list. list.ascends ≡ true → IsNonDecreasingBy (λ (extent : Extent). extent.addr) list.extents.items };
}

impl ExtentList {
    ghost use Rattle.std.specs.Prelude.{◌≡◌};
    ghost use Rattle.btr_refs.specs.Misusing.{extents_at};

    /// These extents.
    pub(crate) fn new(extents: Vec<Extent>) -> ExtentList
        ensures { result ≡ extents.items }
    {
        let ascends = ascend(&extents);
        ExtentList { extents, ascends }
    }

    /// All of them.
    pub(crate) fn as_slice(&self) -> &[Extent]
        ensures { result.now ≡ self.now }
    {
        self.extents.as_slice()
    }

    /// The same as they came.
    pub(crate) fn into_extents(self) -> Vec<Extent>
        ensures { result.items ≡ self }
    {
        self.extents
    }

    /// Those at an address, and maybe others: all, where they aren't in the order of their addresses.
    pub(crate) fn at(&self, addr: u64) -> &[Extent]
        ensures { extents_at result.now addr ≡ extents_at self.now addr }
    {
        if self.ascends {
            within(&self.extents, addr)
        } else {
            self.extents.as_slice()
        }
    }
}

// Whether no address is below the one before it.
fn ascend(extents: &[Extent]) -> bool
    ensures { result ≡ true → IsNonDecreasingBy (λ (extent : Extent). extent.addr) extents.now }
{
    extents.is_sorted_by(|one, next| one.addr <= next.addr)
}

// Those at an address, of extents in the order of their addresses.
fn within(extents: &[Extent], addr: u64) -> &[Extent]
    requires { IsNonDecreasingBy (λ (extent : Extent). extent.addr) extents.now }
    ensures { extents_at result.now addr ≡ extents_at extents.now addr }
{
    let first = extents.partition_point(|extent| extent.addr < addr);
    let behind = &extents[first..];
    let count = behind.partition_point(|extent| extent.addr <= addr);
    &behind[..count]
}
