//! What salvage's definitions come to. Each function here is a law: its contract is the law, and its body is empty.
ghost use Rattle.btr_salvage.specs.Laws.{HonestSalvage, OneRun, ReadTwice};

/// Where no read failed, salvage has one run: that by the block map of the images.
pub fn one_run()
    ensures { OneRun }
{}

/// A file whose bytes could all be had when they were read first is written to its end.
pub fn read_twice()
    ensures { ReadTwice }
{}

/// Over honest images, where restore would come to its end in the committed blocks: what was salvaged is the committed listing but for entries that are
/// named, each with a block that is lost.
pub fn honest_salvage()
    ensures { HonestSalvage }
{}
