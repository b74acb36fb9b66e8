// Bytes that are no superblock.
use super::copies::{FIRST, SHORT, sample};
use btr_make::put_super;
use btr_rack::MemRack;
use btr_super::{Super, SuperFault};
use std::alloc::Global;
use std::process::Abort;
use std::test::Fail;

// Bytes that are written over those of a copy.
#[derive(Clone, Copy)]
struct Poke {
    at: u64,
    bytes: &'static [u8],
}

// The last byte of the magic.
const MAGIC: Poke = Poke {
    at: 0x47,
    bytes: b"m",
};

// The place of the second copy.
const PLACE: Poke = Poke {
    at: 0x30,
    bytes: &[0, 0, 0, 4],
};

const KIND: Poke = Poke {
    at: 0xc4,
    bytes: &[3, 0],
};

const LARGE_KIND: Poke = Poke {
    at: 0xc4,
    bytes: &[0, 1],
};

const LAST: Poke = Poke {
    at: 4095,
    bytes: &[1],
};

// Each row has the faults of those behind it too, so the first decides.
const ROWS: &[(&[Poke], Option<SuperFault>)] = &[
    (&[MAGIC, PLACE, KIND, LAST], Some(SuperFault::Magic)),
    (&[PLACE, KIND, LAST], Some(SuperFault::Place)),
    (&[KIND, LAST], Some(SuperFault::SumKind(3))),
    (&[LARGE_KIND], Some(SuperFault::SumKind(256))),
    (&[LAST], Some(SuperFault::Sum)),
    (&[], None),
];

// An image with the sample.
fn image(alloc: Global, csum_type: u16) -> Result<MemRack, Fail> {
    let mut rack = MemRack::new(alloc);
    rack.add("a", SHORT)?;
    put_super(&mut rack, "a", FIRST, &sample(csum_type))?;
    Ok(rack)
}

// Why the copy in an image is no superblock.
fn fault_in(rack: &MemRack) -> Result<Option<SuperFault>, Fail> {
    let Some(copy) = rack.page("a", 16) else {
        return Err("no copy")?;
    };
    if copy.len() != 4096 {
        return Err("a part of a copy")?;
    }
    Ok(Super::read(copy, FIRST).err())
}

// The same of the sample with these bytes.
fn fault_with(alloc: Global, pokes: &[Poke]) -> Result<Option<SuperFault>, Fail> {
    let mut rack = image(alloc, 0)?;
    for poke in pokes {
        rack.poke("a", FIRST.wrapping_add(poke.at), poke.bytes)?;
    }
    fault_in(&rack)
}

#[test]
fn the_first_fault_decides(rt: HostRuntime) -> Result<(), Fail> {
    for (pokes, fault) in ROWS {
        assert_eq!(rt; fault_with(rt.alloc(), pokes)?, *fault);
    }
    Ok(())
}

// The checksum types, and the last byte of the checksum of each.
const LAST_OF_SUMS: [(u16, u64); 3] = [(0, 3), (1, 7), (2, 31)];

// Why the sample is no superblock, of which a byte is another.
fn fault_at(alloc: Global, csum_type: u16, at: u64) -> Result<Option<SuperFault>, Fail> {
    let mut rack = image(alloc, csum_type)?;
    let place = FIRST.wrapping_add(at);
    let Some(byte) = rack.byte("a", place) else {
        return Err("no such byte")?;
    };
    rack.poke("a", place, &[!byte])?;
    fault_in(&rack)
}

#[test]
fn checksums_cover_all_behind_them(rt: HostRuntime) -> Result<(), Fail> {
    let wrong = Some(SuperFault::Sum);
    for (csum_type, last) in LAST_OF_SUMS {
        for at in [0, last, 32, 4095] {
            assert_eq!(rt; fault_at(rt.alloc(), csum_type, at)?, wrong);
        }
        if last != 31 {
            assert_eq!(rt;
                fault_at(rt.alloc(), csum_type, last.wrapping_add(1))?,
                None
            );
            assert_eq!(rt; fault_at(rt.alloc(), csum_type, 31)?, None);
        }
    }
    Ok(())
}
