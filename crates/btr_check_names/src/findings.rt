// What is wrong, as it is printed.
ghost use Rattle.std.specs.Prelude.{◌≡◌, ◌∷◌, []};
ghost use Rattle.btr_findings.specs.declared.kind.Kind.TheVariants as kind;
ghost use Rattle.btr_findings.specs.Findings.{found, shown_sum};

use crate::{DirEntry, InodeAt};
use btr_findings::{Finding, Kind, shown};

/// What is wrong with an entry of a tree.
pub(crate) fn of_entry(kind: Kind, tree: u64, entry: &DirEntry<'_>) -> Finding
    ensures { result ≡ found kind (tree ∷ entry.now.dir ∷ entry.now.offset ∷ []) }
{
    Finding::new(kind, [tree, entry.dir, entry.offset])
}

/// What an inode of a tree states, and what it is to state.
pub(crate) fn of_sum(kind: Kind, tree: u64, number: u64, stated: u64, sum: u128) -> Finding
    ensures { result ≡ found kind (tree ∷ number ∷ stated ∷ shown_sum sum ∷ []) }
{
    Finding::new(kind, [tree, number, stated, shown(sum)])
}

/// What is wrong with an inode of a tree that has no name.
pub(crate) fn of_orphan(tree: u64, at: &InodeAt) -> Finding
    ensures { result ≡ found kind.Orphan (tree ∷ at.now.number ∷ []) }
{
    Finding::new(Kind::Orphan, [tree, at.number])
}
