/// Where a call on a rack was: `len` bytes from `off` on in an image. An opening and a sync have offset
/// and length 0.
#[derive(Clone, Copy, Debug, PartialEq, Eq)]
pub struct Place {
    pub slot: usize,
    pub off: u64,
    pub len: u64,
}

impl Place {
    ghost use Rattle.std.specs.Prelude.{◌≡◌};
    ghost use Rattle.btr_rack.specs.Rack.{range_in};

    /// The place of an opening or a sync in this slot.
    pub fn of_slot(slot: usize) -> Place
        ensures { result ≡ range_in slot 0 0 }
    {
        Place {
            slot,
            off: 0,
            len: 0,
        }
    }
}
