// One of two items that are to give the same name.
ghost use Rattle.std.specs.Prelude.{◌≡◌, IfOk};
ghost use Rattle.btr_check_names.specs.Pairs.{fits};
ghost use Rattle.btr_check_names.specs.Pairs as pairs;

use btr_base::Memory;
use std::alloc::Global;
use std::marker::Model;

/// The first or the second of two items that are to give the same name, and the name that it gives.
#[derive(Drop)]
pub(crate) struct Half {
    is_first: bool,
    name: Vec<u8>,
}

impl Model for Half {
    ghost use Rattle.btr_check_names.specs.Pairs as pairs;

    ghost Value = { pairs.Half };

    ghost view = { λ half. record { is_first = half.is_first; name = half.name.items } };
}

impl Half {
    /// The first of two items, or the second one, and its name. `Memory`: there is no memory for the name.
    pub(crate) fn new(alloc: Global, is_first: bool, name: &[u8]) -> Result<Half, Memory>
        ensures { IfOk result (λ half. half ≡ record { is_first = is_first; name = name.now }) }
    {
        match name.to_vec(alloc) {
            Ok(name) => Ok(Half { is_first, name }),
            Err(_) => Err(Memory),
        }
    }

    /// Whether this is the other one of the two, and gives this name.
    pub(crate) fn fits(&self, is_first: bool, name: &[u8]) -> bool
        ensures { result ≡ fits self.now is_first name.now }
    {
        self.is_first != is_first && self.name.as_slice() == name
    }
}
