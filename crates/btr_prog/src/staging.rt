//! Two block maps one after another.
ghost use Rattle.btr_prog.specs.Stages.{ExecRenamed, FollowsRenamed, GoesRenamed, ExecStaged, NeedsStaged, StagedCut, StagedLost, StagedThen};
ghost use Rattle.btr_prog.specs.Stages.{StagedRefused, StagedHalt, GoesStaged, GoesStagedRefused, GoesStagedHalt};

use crate::{Cause, StagedCause};

/// The run of a program whose wants go by other names, and what is answered of it.
pub fn exec_renamed<V, W, F, S, A, I, U: Cause<W>>()
    ensures run { ExecRenamed V W F S A }
    ensures answer { FollowsRenamed V W F S A U U.is }
    ensures choice { GoesRenamed V W F S A I }
{}

/// The run of two parts is that of the first under its map, and then that of the rest under the map that it gives; so are the
/// wants.
pub fn exec_staged<T, X, W, F, S, A>()
    ensures run { ExecStaged T X W F S A }
    ensures wants { NeedsStaged T X W F S A }
{}

/// Under maps that lack blocks the run of both parts is cut at the first want that is lacked.
pub fn staged_cut<T, X, W, F, S, A>()
    ensures { StagedCut T X W F S A }
{}

/// Where no block that it needs is lacked, the run of both parts is whole.
pub fn staged_lost<T, X, W, F, S, A>()
    ensures { StagedLost T X W F S A }
{}

/// Two calls, each of which ran one part; or one call, which came to a refusal or to no value.
pub fn staged_then<T, X, W, F, S, A, U: StagedCause<T, W>>()
    ensures value { StagedThen T X W F S A U U.is }
    ensures refused { StagedRefused T X W F S A U U.is }
    ensures halt { StagedHalt T X W F S A U U.is }
{}

/// The same where each want may come to any of several things.
pub fn goes_staged<T, X, W, F, S, A, U: StagedCause<T, W>, I>()
    ensures value { GoesStaged T X W F S A U U.is I }
    ensures refused { GoesStagedRefused T X W F S A U U.is I }
    ensures halt { GoesStagedHalt T X W F S A U U.is I }
{}
