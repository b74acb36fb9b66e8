//! What the definitions of send come to. Each function here is a law: its contract is the law, and its body is empty.
ghost use Rattle.btr_send.specs.Replay.{CommandsLaw, ReplayLaw};
ghost use Rattle.btr_send.specs.Restored.{OwnRules, SentCommitted, SentLaw};
ghost use Rattle.btr_send.specs.Sectors.{ImagesGiveSectors};

/// The bytes of each command of a stream are those of a command that is read back.
pub fn is_of_commands()
    ensures { CommandsLaw }
{}

/// A stream of a subvolume and sound commands is read back: its replay is what these commands make, one after another.
pub fn replays()
    ensures { ReplayLaw }
{}

/// Where a send comes to its end, its one file is a stream whose replay is the directories and files that restore makes of the same subvolume, by the rules of
/// send; and over blocks that are the committed ones or lost, those of what was committed. By its own rules this restore is that of `btr_restore`.
pub fn sends_restored()
    ensures own { OwnRules }
    ensures sent { SentLaw }
    ensures committed { SentCommitted }
{}

/// Images of bytes give data by whole sectors, as `sends_restored` asks of them.
pub fn images_give_sectors()
    ensures { ImagesGiveSectors }
{}
