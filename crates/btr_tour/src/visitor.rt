// What callers make of all that a tour of a tree meets.
ghost use Rattle.btr_tour.specs.Tour.{Mark};
ghost use Rattle.btr_tour.specs.Visits.{Takes};

use crate::Met;

/// What is made of the blocks, pointers, items and faults of a tree, one after another, where no other block is read for it. The
/// value is the state; `E` is its own refusal, as want of memory. Of a block the header is shown, of an item its key and bytes.
pub trait Visitor<E> {
    // what a mark makes of a state
    ghost step: { Self → Mark → Self };

    /// Treats what is met next. After a refusal, which ends the visit, nothing is said of the state.
    fn meet(&mut self, met: &Met<'_>) -> Result<(), E>
        ensures { Takes step self.old met.now self.new result };
}
