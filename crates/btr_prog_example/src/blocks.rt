//! Blocks by their address.
ghost use Rattle.btr_prog.specs.Calls.{Calls, Seen};
ghost use Rattle.btr_prog_example.specs.Blocks.{Held, Agreed, copies, ReadsBlock};

/// What is wanted: a catalogue, which has a checksum, or a page, which has none.
#[derive(Clone, Copy, Debug, PartialEq, Eq)]
pub enum Want {
    Catalogue(u8),
    Page(u8),
}

/// Why a call ends without a value.
#[derive(Clone, Copy, Debug, PartialEq, Eq)]
pub enum Stop {
    /// No copy of the block at the address is there.
    Lost(u8),
    /// A read failed, and no other copy of the block passed.
    Unread(Want),
    /// The sink refused.
    Sink,
    /// Memory ran out.
    Memory,
}

/// Where blocks are read, some in several copies.
pub trait Blocks {
    ghost seen: { Self → Seen Held };

    /// The bytes of a copy of the block that passes its test, the first where no read failed.
    fn read(&mut self, want: Want) -> Result<Vec<u8>, Stop>
        ensures { Calls Agreed (seen self.old) (seen self.new) (λ sure held. ReadsBlock (copies sure held) want result) };
}
