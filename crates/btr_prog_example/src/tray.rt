//! Rows in memory.
ghost use Rattle.std.specs.Prelude.{◌≡◌, [], ◌∷◌, ◌++◌, OnOk, OnErr, map, vec_len};
ghost use Rattle.btr_prog_example.specs.Trays.{row_of};

use crate::sink::{Refused, Sink};
use std::alloc::Global;

/// A row in memory.
#[derive(Drop)]
pub enum Kept {
    Bytes(Vec<u8>),
    End,
}

/// Rows in memory. It refuses only where memory runs out.
#[derive(Drop)]
pub struct Tray {
    alloc: Global,
    rows: Vec<Kept>,
}

impl Tray {
    /// A tray with no row.
    pub fn new(alloc: Global) -> Tray
        ensures { result.rows.items ≡ [] }
    {
        Tray {
            alloc,
            rows: Vec::new(alloc),
        }
    }

    /// The number of rows.
    pub fn len(&self) -> usize
        ensures { result ≡ vec_len self.now.rows }
    {
        self.rows.len()
    }

    fn keep(&mut self, row: Kept) -> Result<(), Refused>
        ensures ok { OnOk result (self.new.rows.items ≡ self.old.rows.items ++ row ∷ []) }
        ensures err { OnErr result (self.new.rows.items ≡ self.old.rows.items) }
    {
        match self.rows.push(row) {
            Ok(()) => Ok(()),
            Err(_) => Err(Refused),
        }
    }
}

impl Sink for Tray {
    ghost rows = { λ tray. map row_of tray.rows.items };

    fn put(&mut self, bytes: &[u8]) -> Result<(), Refused> {
        match Vec::from_slice(self.alloc, bytes) {
            Ok(copy) => self.keep(Kept::Bytes(copy)),
            Err(_) => Err(Refused),
        }
    }

    fn end(&mut self) -> Result<(), Refused> {
        self.keep(Kept::End)
    }
}
