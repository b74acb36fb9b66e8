//! Runs of one program under two block maps.
ghost use Rattle.btr_prog.specs.Laws.{OnlyNeeds, CutLaw, WholeLaw, LostLaw, WellLaw};

/// A run hangs on the fates of its own wants alone.
pub fn only_needs<W, F, S, A>()
    ensures { OnlyNeeds W F S A }
{}

/// Where one map has, of each want of the other's run, the other's bytes or none, its run is the other's, cut.
pub fn cut_law<W, F, S, A>()
    ensures { CutLaw W F S A }
{}

/// Where one map has all wants of the other's run, its run is the whole of it.
pub fn whole_law<W, F, S, A>()
    ensures { WholeLaw W F S A }
{}

/// Else its run stops at the first want that it lacks, with exactly the marks before.
pub fn lost_law<W, F, S, A>()
    ensures { LostLaw W F S A }
{}

/// Where a run ends well, so does each of its wants.
pub fn well_law<W, F, S, A>()
    ensures { WellLaw W F S A }
{}
