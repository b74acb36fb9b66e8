// The top call.
ghost use Rattle.std.specs.Prelude.{◌≡◌, ◌<◌, [], ℕ};
ghost use Rattle.btr_rack.specs.Sink.{NotStarted};
ghost use Rattle.btr_run.specs.Answers.{answer_of, error_line};
ghost use Rattle.btr_run.specs.Outcomes.{IsPut};
ghost use Rattle.btr_run.specs.Run.{HasWholeEffect, IsAnswered, IsObeyed, KeepsFirstPart, HasTried, LeavesItsImages, RestoresCommitted, ShowsTrial, eyes, ran};

use crate::answer::Answer;
use crate::commands::perform;
use crate::opening::open_images;
use crate::plan::{Command, Plan};
use crate::refusal::put_refusal;
use crate::self_testing::try_volume;
use btr_make::Maker;
use btr_rack::{Out, Rack, TreeSink};
use btr_restore::{committed_order, headline, opened_then, settled};
use std::alloc::Global;

/// Does what the words say over the images of the rack, writes files into the sink, puts its text, and answers how it ended. The volume of a self-test
/// is the maker's.
///
/// Words that are no sentence and more than 64 images are refused before any call on the rack. The last thing put for a
/// refusal is its error line. Where the output refuses a put, a first part of the text and the line stands there; where the sink refuses
/// a call, all before it stands. Where memory is wanted on the way, the line for want of memory, or a first part of that, stands behind a first part
/// of the text.
pub fn run<R: Rack, T: TreeSink, O: Out, M: Maker + Drop>(
    alloc: Global,
    words: &[String],
    rack: &mut R,
    tree: &mut T,
    out: &mut O,
    maker: M,
) -> Answer
    requires closed { (R.seen rack.old).slots ≡ [] }
    requires fresh { (T.sink tree.old).stage ≡ NotStarted }

    // The answer has its cause, and what stands in the sink and in the output is what it says.
    ensures answered { IsAnswered (ran (eyes R.seen T.sink T.account T.waits O.text O.account)
        words.now rack.old tree.old out.old rack.new tree.new out.new result) }

    // Where nothing failed, the answer and all that was done are what the words and the bytes of the images come to.
    ensures effect { HasWholeEffect (ran (eyes R.seen T.sink T.account T.waits O.text O.account)
        words.now rack.old tree.old out.old rack.new tree.new out.new result) }

    // The headline: where every candidate that passes its test is the committed block, a restore is what was committed, whole,
    // or up to exactly the first block without such a candidate, which the answer names.
    ensures headline { RestoresCommitted (ran (eyes R.seen T.sink T.account T.waits O.text O.account)
        words.now rack.old tree.old out.old rack.new tree.new out.new result) }

    // Whatever failed, a first part of that was done, where no call on an image failed or the images' copies agree.
    ensures part { KeepsFirstPart (ran (eyes R.seen T.sink T.account T.waits O.text O.account)
        words.now rack.old tree.old out.old rack.new tree.new out.new result) }

    // The images are only read, but by a scrub that writes: this leaves exactly what mends them, or a first part of it.
    ensures images { LeavesItsImages (ran (eyes R.seen T.sink T.account T.waits O.text O.account)
        words.now rack.old tree.old out.old rack.new tree.new out.new result) }

    // A self-test makes no call of the rack and of the sink, and shows the trial of the volume that the maker made, whole or a first part of it.
    ensures trial { ShowsTrial (ran (eyes R.seen T.sink T.account T.waits O.text O.account)
        words.now rack.old tree.old out.old rack.new tree.new out.new result) (M.volume maker) }
{
    let done = carry_out(alloc, words, rack, tree, out, maker);
    opened_then();
    settled();
    headline();
    committed_order();
    finish(done, out)
}

// Does what the words say, but for the line of a refusal, which is the error.
fn carry_out<R: Rack, T: TreeSink, O: Out, M: Maker + Drop>(
    alloc: Global,
    words: &[String],
    rack: &mut R,
    tree: &mut T,
    out: &mut O,
    maker: M,
) -> Result<Answer, Answer>
    requires closed { (R.seen rack.old).slots ≡ [] }
    requires fresh { (T.sink tree.old).stage ≡ NotStarted }
    ensures obeyed { IsObeyed (ran (eyes R.seen T.sink T.account T.waits O.text O.account)
        words.now rack.old tree.old out.old rack.new tree.new out.new (answer_of result)) }
    ensures tried { HasTried (ran (eyes R.seen T.sink T.account T.waits O.text O.account)
        words.now rack.old tree.old out.old rack.new tree.new out.new (answer_of result)) (M.volume maker) }
{
    let plan = match Plan::parse(words) {
        Ok(plan) => plan,
        Err(at) => return Err(Answer::Usage(at)),
    };
    if let Command::SelfTest(number) = plan.command {
        return try_volume(alloc, number, maker, out);
    }
    open_images(&words[plan.images..], plan.command.writes(), rack)?;
    perform(alloc, plan.command, words, rack, tree, out)
}

// Puts the line of a refusal, and answers how it ended.
pub(crate) fn finish<O: Out>(done: Result<Answer, Answer>, out: &mut O) -> Answer
    ensures put { IsPut (O.text out.old) (O.text out.new) (O.account out.old) (O.account out.new)
        (error_line (answer_of done)) (answer_of done) result }
    ensures silent { (skipped : ℕ) → answer_of done ≡ Answer.Done skipped → result ≡ answer_of done }
{
    let answer = match done {
        Ok(answer) => answer,
        Err(refusal) => refusal,
    };
    match put_refusal(answer, out) {
        Ok(()) => answer,
        Err(fault) => Answer::from(fault),
    }
}
