//! Blocks in memory.
ghost use Rattle.std.specs.Prelude.{◌≡◌, ◌+◌, [], OnOk, OnErr, vec_len};
ghost use Rattle.btr_prog_example.specs.Shelves.{held_by};

use crate::blocks::{Blocks, Stop, Want};
use std::alloc::{AllocError, Global};

/// Blocks in memory, by their place. There is one copy of each, and no read fails.
#[derive(Drop)]
pub struct Shelf {
    alloc: Global,
    blocks: Vec<Vec<u8>>,
}

impl Shelf {
    /// A shelf with no block.
    pub fn new(alloc: Global) -> Shelf
        ensures { result.blocks.items ≡ [] }
    {
        Shelf {
            alloc,
            blocks: Vec::new(alloc),
        }
    }

    /// Adds a block behind the others. Where memory runs out the shelf stays as it was.
    pub fn add(&mut self, bytes: &[u8]) -> Result<(), AllocError>
        ensures ok { OnOk result (vec_len self.new.blocks ≡ vec_len self.old.blocks + 1) }
        ensures err { OnErr result (self.new.blocks.items ≡ self.old.blocks.items) }
    {
        let block = Vec::from_slice(self.alloc, bytes)?;
        self.blocks.push(block)?;
        Ok(())
    }
}

impl Blocks for Shelf {
    ghost seen = { λ shelf. record { held = held_by shelf.blocks; faults = 0 } };

    fn read(&mut self, want: Want) -> Result<Vec<u8>, Stop> {
        let address = match want {
            Want::Catalogue(address) => address,
            Want::Page(address) => address,
        };
        match self.blocks.get(address as usize) {
            None => Err(Stop::Lost(address)),
            Some(block) => match Vec::from_slice(self.alloc, block) {
                Ok(bytes) => Ok(bytes),
                Err(_) => Err(Stop::Memory),
            },
        }
    }
}
