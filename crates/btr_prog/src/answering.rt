//! The answers of calls that run programs.
ghost use Rattle.btr_prog.specs.AnswerLaws.{FollowsThen, FollowsHalt, WantCame, WantFaults, WantUnread, StepDone, StepBroke, BrokeHere, UnreadHere};
ghost use Rattle.btr_prog.specs.AnswerLaws.{FollowsSeen, PlaceLaw, PartLaw, HeldLaw};
ghost use Rattle.btr_prog.specs.Quiet.{ExecQuiet, FollowsQuiet, GoesQuiet};

use crate::Cause;

/// A call that came to a value, and then another.
pub fn follows_then<W, F, S, A, U: Cause<W>, C>()
    ensures { FollowsThen W F S A U U.is C }
{}

/// A call that came to no value, and then nothing.
pub fn follows_halt<W, F, S, A, U: Cause<W>, C>()
    ensures { FollowsHalt W F S A U U.is C }
{}

/// A want whose bytes came, and what came then.
pub fn want_came<W, F, S, A, U: Cause<W>>()
    ensures { WantCame W F S A U U.is }
{}

/// A want that has a fault.
pub fn want_faults<W, F, S, A, U: Cause<W>>()
    ensures { WantFaults W F S A U U.is }
{}

/// A want that could not be read.
pub fn want_unread<W, F, S, A, U: Cause<W>>()
    ensures { WantUnread W F S A U U.is }
{}

/// A step that was done, and what came then.
pub fn step_done<W, F, S, A, U: Cause<W>>()
    ensures { StepDone W F S A U U.is }
{}

/// A step that was broken off, of which a part is left.
pub fn step_broke<W, F, S, A, U: Cause<W>>()
    ensures { StepBroke W F S A U U.is }
{}

/// A call that was broken off before it did anything.
pub fn broke_here<W, F, S, A, U: Cause<W>>()
    ensures { BrokeHere W F S A U U.is }
{}

/// A call that could not read a block again before it did anything.
pub fn unread_here<W, F, S, A, U: Cause<W>>()
    ensures { UnreadHere W F S A U U.is }
{}

/// More wants stand before the run.
pub fn follows_seen<W, F, S, A, U: Cause<W>>()
    ensures { FollowsSeen W F S A U U.is }
{}

/// A place where the run under one map is broken off is a place of the run under another that has more.
pub fn place_law<W, F, S, A, U: Cause<W>>()
    ensures unread { PlaceLaw W F S A U U.is }
    ensures broke { PartLaw W F S A U U.is }
{}

/// An answer under one map is an answer under another that has more, or the first want that the one lacks was lost.
pub fn held_law<W, F, S, A, U: Cause<W>>()
    ensures { HeldLaw W F S A U U.is }
{}

/// What a program without steps answers, as a part of one with steps.
pub fn follows_quiet<W, F, S, A, I, U: Cause<W>>()
    ensures run { ExecQuiet W F S A }
    ensures answer { FollowsQuiet W F S A U U.is }
    ensures choice { GoesQuiet W F S A I U U.is }
{}
