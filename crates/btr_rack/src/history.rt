// The calls that were made on a file.
ghost use Rattle.std.specs.Prelude.{◌∷◌};
ghost use Rattle.btr_rack.specs.History.{event};

use crate::raw_call::RawCall;
use crate::unseen::{Change, Unseen};
use std::marker::Model;

/// The calls of the system that were made on a file, the newest first.
pub(crate) type History = Unseen<Events>;

/// No calls.
#[derive(Drop)]
pub(crate) struct Events;

impl Model for Events {
    ghost use Rattle.std.specs.Prelude.{List, []};
    ghost use Rattle.btr_rack.specs.History.{Event};

    ghost Value = { List Event };

    ghost view = { λ _. [] };
}

/// A call, with the bytes that it took or gave.
#[derive(Drop)]
pub(crate) struct Call<'a>(pub(crate) RawCall, pub(crate) &'a [u8]);

impl<'a> Change<Events> for Call<'a> {
    ghost after = { λ call events. event call.0 call.1.now ∷ events };
}
