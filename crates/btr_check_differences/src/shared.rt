// Blocks that two trees share.
ghost use Rattle.std.specs.Prelude.{◌≡◌, IfSome, IsTrue, MatchBool};
ghost use Rattle.btr_check_differences.specs.Differing.{IsShared};

use btr_base::Key;
use btr_walk::BlockPointer;

/// Where two lists of blocks have the same one.
#[derive(Clone, Copy)]
pub(crate) struct Shared {
    pub(crate) before: usize,
    pub(crate) after: usize,
}

/// Whether two bounds are the same.
pub fn same_bound(one: Option<Key>, other: Option<Key>) -> bool
    ensures { MatchBool result (one ≡ other) (one ≡ other → ⊥) }
{
    match (one, other) {
        (None, None) => true,
        (Some(one), Some(other)) => {
            one.objectid == other.objectid && one.kind == other.kind && one.offset == other.offset
        }
        (None, Some(_)) | (Some(_), None) => false,
    }
}

/// Whether two blocks stand at the same pointer.
pub fn same_pointer(one: &BlockPointer, other: &BlockPointer) -> bool
    ensures { IsTrue result → one.now ≡ other.now }
{
    one.addr == other.addr
        && one.generation == other.generation
        && same_bound(one.first, other.first)
        && same_bound(one.up, other.up)
}

// Whether a block begins behind another one.
fn begins_behind(one: &BlockPointer, other: &BlockPointer) -> bool {
    match (one.first, other.first) {
        (Some(one), Some(other)) => other.is_before(one),
        (None, _) | (_, None) => false,
    }
}

/// The first block that stands at the same pointer in two lists whose keys ascend.
pub(crate) fn next_shared(before: &[BlockPointer], after: &[BlockPointer]) -> Option<Shared>
    ensures { IfSome result (IsShared before.now after.now) }
{
    let mut at = Shared {
        before: 0,
        after: 0,
    };
    while at.before < before.len() && at.after < after.len() {
        let one = &before[at.before];
        let other = &after[at.after];
        if same_pointer(one, other) {
            return Some(at);
        }
        if begins_behind(one, other) {
            at.after += 1;
        } else {
            at.before += 1;
        }
    }
    None
}
