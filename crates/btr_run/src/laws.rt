// What the commands come to, one beside or behind another. A law's contract is the law.
ghost use Rattle.btr_run.specs.Honest.{SalvageIsCommitted, SendIsStream};
ghost use Rattle.btr_run.specs.Linked.{OwnersCounted};
ghost use Rattle.btr_run.specs.Rescued.{MendingKeepsRestores};

use btr_salvage::honest_salvage;
use btr_send::{images_give_sectors, sends_restored};

/// Behind a scrub that was stopped anywhere, a restore whose checked needs are blocks that the scrub checks finds a candidate for each: where the
/// images can be repaired, and `run` leaves them as its contract says.
pub fn mending_keeps_restores()
    ensures { MendingKeepsRestores }
{}

/// Over honest images, what `restore -i` does is the committed listing, but for entries that are named with a block that is lost.
pub fn salvage_is_committed()
    ensures { SalvageIsCommitted }
{
    honest_salvage();
}

/// Where `send` comes to its end, it leaves one stream, whose replay is what `restore` makes of the same images by the rules of `send`.
pub fn send_is_stream()
    ensures { SendIsStream }
{
    sends_restored();
    images_give_sectors();
}

/// Each owner that `logical-resolve` tells has a link File or SharedFile among the references that `check` counts.
pub fn owners_counted()
    ensures { OwnersCounted }
{}
