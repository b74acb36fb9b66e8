// Sectors that are asked for one behind another.
use btr_rack::Place;

/// How many sectors were asked for one behind another, and where the last one ends.
#[derive(Clone, Copy, Debug)]
pub(crate) struct SectorRun {
    slot: usize,
    end: u64,
    count: u64,
}

impl SectorRun {
    /// None was asked for yet.
    pub(crate) fn new() -> SectorRun {
        SectorRun {
            slot: 0,
            end: 0,
            count: 0,
        }
    }

    /// Whether the sector of a place follows the last one.
    pub(crate) fn ends_at(&self, place: Place) -> bool {
        place.slot == self.slot && place.off == self.end
    }

    /// Counts anew: the next sector is the first.
    pub(crate) fn restart(&mut self) {
        self.count = 0;
    }

    /// Adds the sector of a place, and answers how many stand one behind another with it, itself among them.
    pub(crate) fn add(&mut self, place: Place) -> u64 {
        self.count = if self.ends_at(place) {
            self.count.saturating_add(1)
        } else {
            1
        };
        self.slot = place.slot;
        self.end = place.off.saturating_add(place.len);
        self.count
    }
}
