// What was done in a folder that is a sink.
ghost use Rattle.btr_rack.specs.Told.{told_after};

use crate::history::History;
use crate::step::Step;
use crate::unseen::{Change, Unseen};
use std::marker::Model;

/// The rows that the calls of the system came to.
pub(crate) type Trail = Unseen<Steps>;

/// Nothing was done.
#[derive(Drop)]
pub(crate) struct Steps;

impl Model for Steps {
    ghost use Rattle.btr_rack.specs.Told.{Told, nothing_told};

    ghost Value = { Told };

    ghost view = { λ _. nothing_told };
}

/// A step, which these calls did.
#[derive(Drop)]
pub(crate) struct DoneBy<'a>(pub(crate) Step, pub(crate) &'a History);

impl<'a> Change<Steps> for DoneBy<'a> {
    ghost after = { λ done told. told_after done.0 done.1.now told };
}
