// Where all that a command needs is there, it is done. A law's contract is the law.
ghost use Rattle.btr_run_laws.specs.Complete.{CommandsComplete, RestoreCompletes};
ghost use Rattle.btr_run_laws.specs.Complete.{SelfTestCompletes};
ghost use Rattle.btr_run_laws.specs.Example.{MeetsRestores, MeetsScrubs};

use btr_restore::headline;

/// Where nothing failed, and each block that a command needs has a copy that passes and breaks no
/// rule, the answer is that it was done; of a check and a scrub, what they count.
pub fn commands_complete()
    ensures { CommandsComplete }
{}

/// Where nothing failed, honest images have a copy that passes of each block that the committed
/// restore needs, and the committed blocks break no rule, the answer is that it was done, and what
/// was written is the whole committed listing.
pub fn restore_completes()
    ensures { RestoreCompletes }
{
    headline();
}

/// A self-test whose output didn't fail is done, or counts the lines that differ, unless memory is
/// wanted.
pub fn self_test_completes()
    ensures { SelfTestCompletes }
{}

/// A small volume meets all that the clauses of `run` ask for of the images of a restore of all
/// files, and of those of a scrub. That some words ask for these isn't part of it.
pub fn example_meets()
    ensures restores { MeetsRestores }
    ensures scrubs { MeetsScrubs }
{}
