//! Programs that go on behind faults.
ghost use Rattle.btr_prog.specs.TryingLaws.{TriedThen, TriedEnds, OnlyTried, AttemptRun, GatheredRun, TryCame, FollowsAttempt, FollowsGathered};

use crate::Cause;

/// The run of one such program after another is one run after another.
pub fn tried_then<W, F, S, A, C>()
    ensures { TriedThen W F S A C }
{}

/// No fault ends its run.
pub fn tried_ends<W, F, S, A>()
    ensures { TriedEnds W F S A }
{}

/// Its run hangs on the fates of its own wants alone.
pub fn only_tried<W, F, S, A>()
    ensures { OnlyTried W F S A }
{}

/// A want that came to bytes or to a fault, which is handed on, and what came then.
pub fn try_came<W, F, S, A, U: Cause<W>>()
    ensures { TryCame W F S A U U.is }
{}

/// A program as a part of one that goes on behind its fault.
pub fn attempt_law<W, F, S, A, U: Cause<W>>()
    ensures run { AttemptRun W F S A }
    ensures answer { FollowsAttempt W F S A U U.is }
{}

/// A program as a part whose steps are gathered and not done.
pub fn gathered_law<W, F, S, T, A, U: Cause<W>>()
    ensures run { GatheredRun W F S A T }
    ensures answer { FollowsGathered W F S A U U.is T }
{}
