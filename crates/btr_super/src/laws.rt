//! What superblocks are compared by. The function here is a law: its contract is the law, and its body is empty.
ghost use Rattle.btr_super.specs.Compared.{SameByBytes};

/// Superblocks are the same exactly where all bytes of their copies are that all images of one commit have alike.
pub fn same_by_bytes()
    ensures { SameByBytes }
{}
