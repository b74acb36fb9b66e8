//! What the tour of a tree comes to. Each function here is a law: its contract is the law, and its body is empty.
ghost use Rattle.btr_tour.specs.Law.{MarksLaw, StopsLaw, FaultlessLaw};

/// The marks of a tour are the steps of the run of its program.
pub fn marks_of_run()
    ensures { MarksLaw }
{}

/// A scan of a range is the tour that stops at its first fault.
pub fn stops_at_fault()
    ensures { StopsLaw }
{}

/// Where a tour has no fault, a scan of the range comes to its end, and its items are those of the tour.
pub fn faultless()
    ensures { FaultlessLaw }
{}
