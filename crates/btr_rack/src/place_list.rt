// A list of places that takes no memory.
ghost use Rattle.std.specs.Prelude.{[], ◌∷◌, ◌++◌};
ghost use Rattle.btr_rack.specs.Rack.{in_others, in_slot};

use crate::place::Place;
use crate::unseen::{Change, Unseen};
use std::marker::Model;

/// Places of calls: of those that failed, or of the writes that wait for a sync.
pub type PlaceList = Unseen<Places>;

/// No places.
#[derive(Drop)]
pub struct Places;

impl Model for Places {
    ghost use Rattle.std.specs.Prelude.{List, []};
    ghost use Rattle.btr_rack.specs.declared.place.Place.{Place};

    ghost Value = { List Place };

    ghost view = { λ _. [] };
}

// One more place.
impl Change<Places> for Place {
    ghost after = { λ place places. places ++ place ∷ [] };
}

/// The places of another list in the slot of a place.
#[derive(Drop)]
pub(crate) struct InSlot<'a>(pub(crate) &'a PlaceList, pub(crate) Place);

impl<'a> Change<Places> for InSlot<'a> {
    ghost after = { λ more places. places ++ in_slot more.1.slot more.0.now };
}

/// No place in the slot of a place.
#[derive(Drop)]
pub(crate) struct NoneInSlot(pub(crate) Place);

impl Change<Places> for NoneInSlot {
    ghost after = { λ none places. in_others none.0.slot places };
}
