use crate::chunk::SECTOR;
use btr_base::{array_at, u64_at};

/// One stripe of a chunk: where it begins, and on which device.
#[derive(Clone, Copy, Debug, PartialEq, Eq)]
pub struct Stripe {
    /// The id of the device.
    pub devid: u64,
    /// The stripe's first byte on the device.
    pub offset: u64,
    /// The uuid of the device, which isn't compared with anything.
    pub uuid: [u8; 16],
}

impl Stripe {
    ghost use Rattle.std.specs.Prelude.{◌≡◌, ◌+◌, ◌≤◌, length};
    ghost use Rattle.btr_chunk.specs.Item.{stripe_at};
    ghost use Rattle.btr_chunk.specs.Chunk.{is_stripe};
    ghost use Rattle.std.specs.List.{list_any};
    ghost use Rattle.btr_chunk.specs.Table.{stripes_meet};

    // The stripe in the 32 bytes from `off`.
    pub(crate) fn read(bytes: &[u8], off: usize) -> Stripe
        requires { off + 32 ≤ length bytes.now }
        ensures { result ≡ stripe_at off bytes.now }
    {
        Stripe {
            devid: u64_at(bytes, off),
            offset: u64_at(bytes, off + 8),
            uuid: array_at(bytes, off + 16),
        }
    }

    // Whether it begins at a sector and ends below 2^64, where it is this long.
    pub(crate) fn keeps_rule(&self, length: u64) -> bool
        ensures { result ≡ is_stripe length self.now }
    {
        self.offset % SECTOR == 0 && self.offset.checked_add(length).is_some()
    }

    // Whether it shares a byte of a device with another one, where both are this long.
    pub(crate) fn meets(&self, other: &Stripe, length: u64) -> bool
        ensures { result ≡ stripes_meet length self.now length other.now }
    {
        self.devid == other.devid && self.offset.abs_diff(other.offset) < length
    }

    // Whether it shares a byte of a device with one of others, where all are this long.
    pub(crate) fn meets_some(&self, others: &[Stripe], length: u64) -> bool
        ensures { result ≡ list_any (stripes_meet length self.now length) others.now }
    {
        others.iter().any(|other| self.meets(other, length))
    }
}
