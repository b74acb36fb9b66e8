// The registers of pieces one after another.
use super::{LONG, fold, words};

/// Room of 4972 bytes for those of a long piece as they are dropped.
#[derive(Drop)]
pub(crate) struct FoldRoom {
    dropped: [u8; fold::ROOM],
}

impl FoldRoom {
    ghost use Rattle.std.specs.Prelude.{◌≡◌};
    ghost use Rattle.btr_base.specs.Crc.{register, crc32c};

    /// Room that served no piece yet.
    pub(crate) fn new() -> FoldRoom {
        FoldRoom {
            dropped: fold::no_bytes(),
        }
    }

    /// The register after the bytes, from the register `start`.
    pub(super) fn register(&mut self, start: u32, bytes: &[u8]) -> u32
        ensures { result ≡ register start bytes.now }
    {
        if bytes.len() < LONG {
            words::register_of(start, bytes)
        } else {
            fold::register_in(&mut self.dropped, start, bytes)
        }
    }

    /// CRC-32C of the bytes.
    pub(crate) fn crc32c_of(&mut self, bytes: &[u8]) -> u32
        ensures { result ≡ crc32c bytes.now }
    {
        !self.register(0xFFFF_FFFF, bytes)
    }
}
