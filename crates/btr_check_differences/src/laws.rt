// What tours over ranges of inodes say of whole trees.
ghost use Rattle.btr_check_differences.specs.Law.{AlikeLaw, MissingLaw, ToursLaw};

/// Tours of a tree over ranges of inodes that are apart meet those items of the whole tree that
/// are of these inodes, whatever is wrong with its blocks. This function is the law: its contract
/// says it, and its body is empty.
pub fn tours_law()
    ensures { ToursLaw }
{}

/// Where two trees differ by the inodes of some ranges alone, tours over these ranges settle the
/// second one by the first one. This function is the law: its contract says it, and its body is
/// empty.
pub fn alike_law()
    ensures { AlikeLaw }
{}

/// Nothing is missing of the checksums of a tree where nothing is of its own items, nor of the
/// tree that has all others. This function is the law: its contract says it, and its body is
/// empty.
pub fn missing_law()
    ensures { MissingLaw }
{}
