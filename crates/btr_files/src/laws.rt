//! What the definitions of files come to. Each function here is a law: its contract is the law, and its body is empty.
ghost use Rattle.btr_files.specs.FileAt.{ContentIsFile, SomeContentIsFile};

/// The pieces of a file are its bytes, as many as its size: where all of its blocks could be had.
pub fn content_is_file()
    ensures { ContentIsFile }
{}

/// The pieces of a file that was given whole are its bytes, as many as its size, whatever reads failed: each sector without a checksum is one of its copies.
pub fn some_content_is_file()
    ensures { SomeContentIsFile }
{}
