//! What the owners of an address come to. The function here is a law: its contract is the law, and its body is empty.
ghost use Rattle.btr_resolve.specs.Links.{OwnersLinked};

/// Each owner's extent has a link File or SharedFile, from the leaf that has the file's item.
pub fn owners_linked()
    ensures { OwnersLinked }
{}
