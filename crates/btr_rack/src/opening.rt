// What an opening asked for.
ghost use Rattle.std.specs.Prelude.{◌≡◌, IfOk};
ghost use Rattle.btr_rack.specs.Rack.{opening_of};

use btr_base::Memory;
use std::alloc::Global;
use std::marker::Model;

/// What an opening asked for: a name, and whether to write.
#[derive(Drop)]
pub struct Opening {
    name: String,
    write: bool,
}

impl Model for Opening {
    ghost use Rattle.std.specs.String.{string_bytes};
    ghost use Rattle.btr_rack.specs.Rack.{Opening as Asked};

    ghost Value = { Asked };

    ghost view = { λ o. record { name = string_bytes o.name; write = o.write } };
}

impl Opening {
    /// An opening by this name. `Memory`: the name couldn't be kept.
    pub fn new(alloc: Global, name: &str, write: bool) -> Result<Opening, Memory>
        ensures { IfOk result (λ opening. opening ≡ opening_of name.now write) }
    {
        match String::from_str(alloc, name) {
            Ok(name) => Ok(Opening { name, write }),
            Err(_) => Err(Memory),
        }
    }

    pub(crate) fn name(&self) -> &str
        ensures { result.now ≡ self.now.name }
    {
        self.name.as_str()
    }

    pub(crate) fn write(&self) -> bool
        ensures { result ≡ self.now.write }
    {
        self.write
    }
}
