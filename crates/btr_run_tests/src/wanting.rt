// An output that never wants memory, over a rack that does.
ghost use Rattle.std.specs.Prelude.{None, true, false};
ghost use Rattle.btr_rack.specs.CallsLaws.{unsure_count_left};

use btr_rack::{MemRack, MemTree, Out, Rack, RackError, SinkError};
use btr_run::Answer;
use btr_test_calls::{CallFault, called, words};

// A rack in which each opening wants memory. All else is the inner rack's.
#[derive(Drop)]
struct WantingRack {
    images: MemRack,
}

impl Rack for WantingRack {
    ghost use Rattle.btr_rack.specs.Memory.{seen_of};
    ghost use Rattle.btr_rack.specs.MemoryLaws.{sound_rack};

    ghost seen = { λ rack. seen_of rack.images };

    ghost sound = { λ rack. sound_rack rack.images };

    fn open(&mut self, _name: &str, _write: bool) -> Result<usize, RackError> {
        Err(RackError::Memory)
    }

    fn count(&self) -> usize {
        self.images.count()
    }

    fn len(&self, slot: usize) -> u64 {
        self.images.len(slot)
    }

    fn read_at(&mut self, slot: usize, off: u64, buf: &mut [u8]) -> Result<(), RackError> {
        self.images.read_at(slot, off, buf)
    }

    fn write_at(&mut self, slot: usize, off: u64, bytes: &[u8]) -> Result<(), RackError> {
        self.images.write_at(slot, off, bytes)
    }

    fn sync(&mut self, slot: usize) -> Result<(), RackError> {
        self.images.sync(slot)
    }

    fn forget(&mut self) {
        self.images.forget()
    }
}

// An output that keeps the first 64 bytes, and takes no memory.
#[derive(Drop)]
struct ShortOut {
    bytes: [u8; 64],
    len: usize,
}

impl Out for ShortOut {
    ghost text = { λ out. None };

    ghost account = { λ out. record { faults = 0; sure = false; ample = true } };

    ghost count_left = { λ out. unsure_count_left 0 true };

    fn put(&mut self, bytes: &[u8]) -> Result<(), SinkError> {
        self.len = keep(&mut self.bytes, self.len, bytes);
        Ok(())
    }
}

// Keeps bytes behind the first `len`, as many as there is room for, and answers how many there are then.
fn keep(kept: &mut [u8; 64], len: usize, bytes: &[u8]) -> usize {
    let mut end = len;
    for byte in bytes {
        if end < 64 {
            kept[end] = *byte;
            end += 1;
        }
    }
    end
}

#[test]
fn want_of_memory_has_its_line(rt: HostRuntime) -> Result<(), CallFault> {
    let alloc = rt.alloc();
    let mut out = ShortOut {
        bytes: [0; 64],
        len: 0,
    };
    let mut rack = WantingRack {
        images: MemRack::new(alloc),
    };
    let words = words(alloc, &["super", "a"])?;
    let answer = called(alloc, &words, &mut rack, &mut MemTree::new(alloc), &mut out);
    assert_eq!(rt; answer, Answer::Memory);
    assert_eq!(rt; answer.code(), 5);
    assert_eq!(rt; out.len, 17);
    assert!(rt; out.bytes.starts_with(b"error: no memory\n"));
    Ok(())
}
