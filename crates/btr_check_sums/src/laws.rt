// What visits of the checksum tree and of a tree of files keep.
ghost use Rattle.btr_check_sums.specs.Items.{KeepsRuns, KeepsUses};

/// What a visit keeps, from nothing on, is what the items of the tree say: the runs of checksums; the inodes without checksums, and the
/// ranges that files use. This function is the law: its contract says it, and its body is empty.
pub fn keeps_law()
    ensures runs { KeepsRuns }
    ensures uses { KeepsUses }
{}
