use crate::{node, parity, pattern, sums};
use std::alloc::{AllocError, Global};

/// What can be timed over a piece of memory.
#[derive(Clone, Copy, Debug, PartialEq, Eq)]
pub enum Kernel {
    /// The CRC-32C of the piece.
    Crc,
    /// The xxhash64 of the piece.
    Xxh64,
    /// The SHA-256 of the piece.
    Sha256,
    /// Adds the piece to P.
    P,
    /// Doubles Q, and adds the piece.
    Q,
    /// Solves for the first of two lost slices, of what P and Q leave of them.
    Rebuild,
    /// Solves for a lost slice, of what Q leaves of it.
    RebuildQ,
    /// Looks whether the piece is a good leaf.
    Node,
}

impl Kernel {
    ghost use Rattle.std.specs.Prelude.{◌≡◌, ◌<◌, IsTrue, IfOk, length};
    ghost use Rattle.btr_bench.specs.Kernel.{kernel_of, takes, digits_of};
    ghost use Rattle.btr_bench.specs.Turns.{first_piece, first_kept, kept_size, place_of, Keeps, result_of};

    /// The kernel of a name, if there is one.
    pub fn from_name(name: &str) -> Option<Kernel>
        ensures { result ≡ kernel_of name.now }
    {
        match name {
            "crc" => Some(Kernel::Crc),
            "xxh64" => Some(Kernel::Xxh64),
            "sha256" => Some(Kernel::Sha256),
            "p" => Some(Kernel::P),
            "q" => Some(Kernel::Q),
            "rebuild" => Some(Kernel::Rebuild),
            "rebuild-q" => Some(Kernel::RebuildQ),
            "node" => Some(Kernel::Node),
            _ => None,
        }
    }

    /// Whether the kernel can run over a piece of so many bytes.
    pub fn takes(self, size: usize) -> bool
        ensures { result ≡ takes self size }
    {
        match self {
            Kernel::Crc | Kernel::Xxh64 | Kernel::Sha256 => size > 0,
            Kernel::P | Kernel::Q | Kernel::Rebuild | Kernel::RebuildQ => size >= 8,
            Kernel::Node => node::SMALLEST <= size && size <= node::LARGEST,
        }
    }

    /// Makes the piece of `size` bytes before the first turn. `AllocError`: want of memory.
    pub fn first_piece(self, alloc: Global, size: usize) -> Result<Vec<u8>, AllocError>
        requires { IsTrue (takes self size) }
        ensures value { IfOk result (λ piece. piece.items ≡ first_piece self size) }
        ensures len { IfOk result (λ piece. length piece.items ≡ size) }
    {
        match self {
            Kernel::Node => node::leaf(alloc, size),
            _ => pattern::pattern(alloc, size),
        }
    }

    /// Makes what the kernel keeps from turn to turn over a piece of `size` bytes, as it is before the first one. `AllocError`:
    /// want of memory.
    pub fn first_kept(self, alloc: Global, size: usize) -> Result<Vec<u8>, AllocError>
        ensures value { IfOk result (λ kept. kept.items ≡ first_kept self size) }
        ensures len { IfOk result (λ kept. length kept.items ≡ kept_size self size) }
    {
        pattern::pattern(alloc, self.kept_size(size))
    }

    fn kept_size(self, size: usize) -> usize
        ensures { result ≡ kept_size self size }
    {
        match self {
            Kernel::P | Kernel::Q | Kernel::Rebuild | Kernel::RebuildQ => size,
            _ => 0,
        }
    }

    /// Where the piece changes in a turn.
    pub fn place(self, turn: u64, size: usize) -> usize
        requires { IsTrue (takes self size) }
        ensures inside { result < size }
        ensures value { result ≡ place_of self turn size }
    {
        match self {
            Kernel::Node => node::place(turn, size),
            _ => (turn % size as u64) as usize,
        }
    }

    /// Changes what the kernel keeps.
    pub fn keep(self, turn: u64, piece: &[u8], kept: &mut [u8])
        requires { length kept.old ≡ kept_size self (length piece.now) }
        ensures { Keeps self turn piece.now kept.old kept.new }
    {
        match self {
            Kernel::P => parity::add(kept, piece),
            Kernel::Q => parity::double_and_add(kept, piece),
            Kernel::Rebuild => parity::rebuild(turn, kept, piece),
            Kernel::RebuildQ => parity::divide(turn, kept),
            _ => {}
        }
    }

    /// The result of a turn: what the kernel computes of the piece, or its first 8 bytes, or those of what it keeps.
    pub fn result(self, turn: u64, piece: &[u8], kept: &[u8]) -> u64
        requires takes { IsTrue (takes self (length piece.now)) }
        requires kept { length kept.now ≡ kept_size self (length piece.now) }
        ensures { result ≡ result_of self turn piece.now kept.now }
    {
        match self {
            Kernel::Crc => sums::crc(piece),
            Kernel::Xxh64 => sums::xxhash(piece),
            Kernel::Sha256 => sums::sha256(piece),
            Kernel::P | Kernel::Q | Kernel::Rebuild | Kernel::RebuildQ => parity::front(kept),
            Kernel::Node => node::objectid_in_turn(turn, piece),
        }
    }

    /// How many hexadecimal digits a result has.
    pub fn digits(self) -> usize
        ensures { result ≡ digits_of self }
    {
        match self {
            Kernel::Crc => 8,
            _ => 16,
        }
    }
}
