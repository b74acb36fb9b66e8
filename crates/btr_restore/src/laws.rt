//! What restore's definitions come to. Each function here is a law: its contract is the law, and its body is empty.
ghost use Rattle.btr_restore.specs.Headline.{Headline};
ghost use Rattle.btr_restore.specs.InOrder.{SettledLaw, CommittedOrder, OpenHaltedLaw, OpenRefusedLaw, OpenedThenLaw};
ghost use Rattle.btr_restore.specs.Orderly.{OrderlyLaw, ToldLaw};

/// Over honest images, restore writes exactly the committed directories and files, or stops before the first block that has no candidate.
pub fn headline()
    ensures { Headline }
{}

/// Whatever failed: over honest images, what restore did follows the committed journey, or it stopped where the images lack a block of it.
pub fn committed_order()
    ensures { CommittedOrder }
{}

/// Where no read failed, and the answer is one by the images, what stands in the sink is the outcome over their bytes.
pub fn settled()
    ensures { SettledLaw }
{}

/// A volume that was opened with a table and then listed: what was done and answered follows the journey.
pub fn opened_then()
    ensures listed { OpenedThenLaw }
    ensures refused { OpenRefusedLaw }
    ensures halted { OpenHaltedLaw }
{}

/// The steps of restore are calls that a sink may take, no deeper than 512 directories and with no bad name, and its counts are theirs.
pub fn orderly()
    ensures { OrderlyLaw }
{}

/// Each entry that was treated to its end has a row, or the line that it is skipped.
pub fn each_told()
    ensures { ToldLaw }
{}
