// The account of the failed calls of a rack.
ghost use Rattle.std.specs.Prelude.{◌≡◌, Some, None};
ghost use Rattle.btr_rack.specs.Rack.{OneFailed, forgotten, next_count, no_failure};

use crate::opening::Opening;
use crate::place::Place;
use crate::place_list::{PlaceList, Places};
use std::marker::Model;

/// The failed calls of a rack, which it counts and has the places of. Clauses see it as an `Account`.
#[derive(Drop)]
pub struct Ledger {
    faults: u64,
    fresh: u64,
    shut: u64,
    last: Place,
    opening: Option<Opening>,
    missed: PlaceList,
}

impl Model for Ledger {
    ghost use Rattle.btr_rack.specs.Rack.{Account};

    ghost Value = { Account };

    ghost view = { λ l. record { faults = l.faults; fresh = l.fresh; missed = l.missed; last = l.last; opening = l.opening; shut = l.shut } };
}

impl Ledger {
    /// No call failed yet.
    pub fn new() -> Ledger
        ensures { result ≡ no_failure }
    {
        Ledger {
            faults: 0,
            fresh: 0,
            shut: 0,
            last: Place {
                slot: 0,
                off: 0,
                len: 0,
            },
            opening: None,
            missed: PlaceList::new(&Places),
        }
    }

    /// A call at this place failed, which was no opening.
    pub fn fail(&mut self, place: Place)
        ensures failed { OneFailed place self.old self.new }
        ensures opening { self.new.opening ≡ None }
        ensures shut { self.new.shut ≡ self.old.shut }
    {
        self.faults = self.faults.saturating_add(1);
        self.fresh = self.fresh.saturating_add(1);
        self.missed = self.missed.with(&place);
        self.last = place;
        self.opening = None;
    }

    /// An opening at this place failed.
    pub fn fail_open(&mut self, opening: Opening, place: Place)
        ensures failed { OneFailed place self.old self.new }
        ensures opening { self.new.opening ≡ Some opening }
        ensures shut { self.new.shut ≡ next_count self.old.shut }
    {
        self.fail(place);
        self.opening = Some(opening);
        self.shut = self.shut.saturating_add(1);
    }

    /// Starts the number and the places of the failed calls anew.
    pub fn forget(&mut self)
        ensures { self.new ≡ forgotten self.old }
    {
        self.fresh = 0;
        self.missed = PlaceList::new(&Places);
    }
}
