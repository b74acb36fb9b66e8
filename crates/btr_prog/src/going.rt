//! Runs where a want may come to any of several things.
ghost use Rattle.btr_prog.specs.Blind.{BlindLaw, GoesHeldLaw};
ghost use Rattle.btr_prog.specs.GoesLaws.{GoesOne, GoesSome, GoesMore, GoesBind, GoesThread, ThreadGoes, GoesThen, GoesHalt, GoesCame, GoesFaults};
ghost use Rattle.btr_prog.specs.GoesLaws.{GoesUnread, GoesStep, GoesBroke, GoesNowhere};

use crate::Cause;

/// Where each want comes to one thing, there is one run.
pub fn goes_one<W, F, S, A, I>()
    ensures { GoesOne W F S A I }
{}

/// The run under a map is one where each of its wants may come to what the map says.
pub fn goes_some<W, F, S, A, I>()
    ensures { GoesSome W F S A I }
{}

/// A run stays one where more is allowed.
pub fn goes_more<W, F, S, A, I, J>()
    ensures { GoesMore W F S A I J }
{}

/// A run of one program after another is one run after another.
pub fn goes_bind<W, F, S, A, I, C>()
    ensures { GoesBind W F S A I C }
{}

/// The runs of treating a program's steps are those that treat the steps of some run of it.
pub fn goes_thread<W, F, S, A, I, T, St, R>()
    ensures run { GoesThread W F S A I T St R }
    ensures only { ThreadGoes W F S A I T St R }
{}

/// A call that came to a value by some run, and then another.
pub fn goes_then<W, F, S, A, I, U: Cause<W>, C>()
    ensures { GoesThen W F S A I U U.is C }
{}

/// A call that came to no value, and then nothing.
pub fn goes_halt<W, F, S, A, I, U: Cause<W>, C>()
    ensures { GoesHalt W F S A I U U.is C }
{}

/// A want that came to bytes or to a fault, or that could not be read.
pub fn goes_want<W, F, S, A, I, U: Cause<W>>()
    ensures came { GoesCame W F S A I U U.is }
    ensures faults { GoesFaults W F S A I U U.is }
    ensures unread { GoesUnread W F S A I U U.is }
{}

/// A step that was done or was broken off, and a call that was broken off before it did anything.
pub fn goes_step<W, F, S, A, I, U: Cause<W>>()
    ensures done { GoesStep W F S A I U U.is }
    ensures broke { GoesBroke W F S A I U U.is }
    ensures nowhere { GoesNowhere W F S A I U U.is }
{}

/// All runs of a program that only shows what may differ want the same and end alike.
pub fn blind_law<W, F, S, A, J>()
    ensures { BlindLaw W F S A J }
{}

/// An answer under maps that lack blocks is one under maps that have them, or a want that was lacked was lost.
pub fn goes_held<W, F, S, A, J, I, U: Cause<W>>()
    ensures { GoesHeldLaw W F S A J I U U.is }
{}
