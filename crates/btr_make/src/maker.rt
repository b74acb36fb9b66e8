ghost use Rattle.std.specs.Prelude.{◌≡◌, ◌≤◌, ℕ, List, Option, Some, None, Ok, IfOk, IfSome};
ghost use Rattle.btr_make.specs.Shelf.{IsShelved, volume_of};

use crate::make;
use btr_base::Memory;
use btr_rack::MemRack;
use std::alloc::Global;
use std::marker::Model;

/// What makes the volume that the self-test tries.
pub trait Maker {
    /// The bytes of the images `a`, `b` and `c` that it will answer, where it tells them.
    ghost volume: { Self → Option (List (List ℕ)) };

    /// The images `a`, `b` and `c` of the volume with this number of directories, from 1 to 1000, on the shelf of a rack
    /// in which no slot is open and nothing is to fail.
    fn make(self, alloc: Global, number: u64) -> Result<MemRack, Memory>
        requires least { 1 ≤ number }
        requires most { number ≤ 1000 }
        ensures ready { IfOk result IsShelved }
        ensures told { IfOk result (λ rack. IfSome (volume self) (λ images. images ≡ volume_of rack)) };
}

/// Makes the volume by `make`, and tells none.
#[derive(Clone, Copy)]
pub struct Builder;

impl Maker for Builder {
    ghost volume = { λ _. None };

    fn make(self, alloc: Global, number: u64) -> Result<MemRack, Memory> {
        make(alloc, number)
    }
}

/// Answers the rack that it was given, and tells its images.
#[derive(Drop)]
pub struct Given {
    rack: MemRack,
}

impl Model for Given {
    ghost use Rattle.btr_rack.specs.Memory.{MemoryRack};
    ghost use Rattle.btr_make.specs.Shelf.{IsShelved};

    ghost Value = { MemoryRack };

    ghost view = { λ given. given.rack };

    ghost invariant = { λ given. IsShelved given.rack };
}

impl Given {
    ghost use Rattle.std.specs.Prelude.{◌≡◌};
    ghost use Rattle.btr_make.specs.Shelf.{IsShelved};

    /// The maker of this rack: the images `a`, `b` and `c` stand on its shelf, no slot is open and nothing is to fail.
    pub fn new(rack: MemRack) -> Given
        requires { IsShelved rack }
        ensures { result ≡ rack }
    {
        Given { rack }
    }
}

impl Maker for Given {
    ghost use Rattle.std.specs.Prelude.{Some};
    ghost use Rattle.btr_make.specs.Shelf.{volume_of};

    ghost volume = { λ given. Some (volume_of given) };

    /// It never answers `Memory`.
    fn make(self, _alloc: Global, _number: u64) -> Result<MemRack, Memory>
        requires least { 1 ≤ _number }
        requires most { _number ≤ 1000 }
        ensures ready { IfOk result IsShelved }
        ensures told { IfOk result (λ rack. volume_of self ≡ volume_of rack) }
        ensures same { result ≡ Ok self }
    {
        Ok(self.rack)
    }
}
