// The words of the command line, as the system gives them.
ghost use Rattle.std.specs.Prelude.{◌≤◌, length, IfOk};

use btr_run::CommandLine;
use std::env::{Env, FillError};

/// The words behind the program's name. What they are no contract can say.
#[derive(Clone, Copy)]
pub(crate) struct SystemWords<'a, E> {
    pub(crate) system: &'a E,
}

impl<'a, E: Env> CommandLine for SystemWords<'a, E> {
    ghost use Rattle.std.specs.Prelude.{None};

    ghost told = { λ words. None };

    fn word(&self, number: usize, buffer: &mut [u8]) -> Result<usize, FillError> {
        match number.checked_add(1) {
            Some(behind_name) => self.system.arg(behind_name, buffer),
            None => Err(FillError::NotPresent),
        }
    }
}
