//! Programs put together.
ghost use Rattle.btr_prog.specs.Laws.{ExecBind, NeedsBind, NeedsStop, ThreadLaw};
ghost use Rattle.btr_prog.specs.Outcomes.{ThreadOutcome};

/// The run of one program after another is one run after another.
pub fn exec_bind<W, F, S, A, C>()
    ensures { ExecBind W F S A C }
{}

/// The wants of one program after another, where the first came to a value and where it came to a fault.
pub fn needs_bind<W, F, S, A, C>()
    ensures value { NeedsBind W F S A C }
    ensures fault { NeedsStop W F S A C }
{}

/// Treating a program's steps is treating those of its run, each wholly before the next want.
pub fn exec_thread<W, F, S, A, T, St, R>()
    ensures { ThreadLaw W F S A T St R }
{}

/// What comes of treating a program's steps hangs on those steps and how they end, not on the wants between them.
pub fn outcome_of_thread<W, F, S, A, T, St, R>()
    ensures { ThreadOutcome W F S A T St R }
{}
