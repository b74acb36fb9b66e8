ghost use Rattle.std.specs.Prelude.{length, IsTrue, IfOk};
ghost use Rattle.btr_chunk.specs.Chunk.{IsChunk};
ghost use Rattle.btr_chunk.specs.Mapping.{HasPart};

use btr_chunk::Part::{Mirror, P, Q, Slice};
use btr_chunk::{Chunk, ChunkFault, MapFault, Part, Profile, elements, place_of, slices_divide};
use std::alloc::{AllocError, Global};
use std::process::Abort;
use std::test::Fail;

pub(super) const ELEMENT: u64 = 65536;

pub(super) const START: u64 = 16777216;

// What an item states, but for its owner and its sizes of sectors.
#[derive(Clone, Copy)]
pub(super) struct Form {
    pub(super) length: u64,
    pub(super) stripe_len: u64,
    pub(super) kind: u64,
    pub(super) count: u16,
    pub(super) sub_stripes: u16,
}

/// Appends a stripe on a device.
pub(super) fn put_stripe(bytes: &mut Vec<u8>, devid: u64, offset: u64) -> Result<(), AllocError> {
    for field in [devid, offset] {
        bytes.extend_from_slice(&field.to_le_bytes())?;
    }
    bytes.extend_from_slice(&[7; 16])
}

/// The item of this form with `stripes` stripes, of which number i is on devid 11 + i, from `first + i` MiB on.
pub(super) fn item(
    alloc: Global,
    form: Form,
    stripes: u16,
    first: u64,
) -> Result<Vec<u8>, AllocError> {
    let mut bytes = Vec::new(alloc);
    for field in [form.length, 2, form.stripe_len, form.kind] {
        bytes.extend_from_slice(&field.to_le_bytes())?;
    }
    bytes.extend_from_slice(&[0, 0, 1, 0, 0, 0, 1, 0, 0, 16, 0, 0])?;
    for field in [form.count, form.sub_stripes] {
        bytes.extend_from_slice(&field.to_le_bytes())?;
    }
    for i in 0..u64::from(stripes) {
        let offset = first.wrapping_add(i).wrapping_mul(1048576);
        put_stripe(&mut bytes, 11 + i, offset)?;
    }
    Ok(bytes)
}

// A chunk of this type, number of stripes and length, at `START`.
pub(super) fn chunk(alloc: Global, kind: u64, count: u16, length: u64) -> Result<Chunk, ChunkFault>
    ensures { IfOk result IsChunk }
{
    let form = Form {
        length,
        stripe_len: ELEMENT,
        kind,
        count,
        sub_stripes: 2,
    };
    let bytes = item(alloc, form, count, 1)?;
    Chunk::read(alloc, START, bytes.as_slice())
}

fn has_part(chunk: &Chunk, part: Part) -> bool
    requires { IsChunk chunk.now }
    ensures { IsTrue result → HasPart chunk.now.profile (length chunk.now.stripes) part }
{
    slices_divide(chunk);
    match part {
        Mirror(copy) => chunk.mirrors().is_some_and(|copies| copy < copies),
        Slice(slice) => {
            let stripe = chunk.stripe_length();
            chunk.mirrors().is_none() && stripe != 0 && u64::from(slice) < chunk.length / stripe
        }
        P => chunk.mirrors().is_none(),
        Q => chunk.profile == Profile::Raid6,
    }
}

// The number of the stripe that a part of the sector at `offset` lies on, and the sector's offset in it.
fn placed(rt: &impl Abort, chunk: &Chunk, offset: u64, part: Part) -> Result<(u64, u64), Fail>
    requires { IsChunk chunk.now }
{
    assert!(rt; offset < chunk.length && has_part(chunk, part));
    let at = elements(chunk, chunk.start.wrapping_add(offset), 4096)?;
    let place = place_of(chunk, part, &at);
    let stripe = place.devid.wrapping_sub(11);
    let begin = stripe.wrapping_add(1).wrapping_mul(1048576);
    Ok((stripe, place.offset.wrapping_sub(begin)))
}

// A chunk of 12 elements of data, whose rows differ in their slices: its type and number of stripes, the element, and
// on which stripe a part of it lies, in which row.
const PLACED: [(u64, u16, u64, Part, u64, u64); 46] = [
    // RAID0, three stripes
    (0x9, 3, 0, Mirror(0), 0, 0),
    (0x9, 3, 1, Mirror(0), 1, 0),
    (0x9, 3, 5, Mirror(0), 2, 1),
    (0x9, 3, 9, Mirror(0), 0, 3),
    (0x9, 1, 3, Mirror(0), 0, 3),
    // RAID10, two, four and six stripes
    (0x41, 2, 2, Mirror(0), 0, 2),
    (0x41, 2, 2, Mirror(1), 1, 2),
    (0x41, 4, 3, Mirror(0), 2, 1),
    (0x41, 4, 3, Mirror(1), 3, 1),
    (0x41, 4, 4, Mirror(0), 0, 2),
    (0x41, 4, 4, Mirror(1), 1, 2),
    (0x41, 6, 7, Mirror(0), 2, 2),
    (0x41, 6, 7, Mirror(1), 3, 2),
    (0x41, 6, 8, Mirror(1), 5, 2),
    // RAID5, two stripes
    (0x81, 2, 4, Slice(0), 0, 4),
    (0x81, 2, 4, P, 1, 4),
    (0x81, 2, 5, Slice(0), 1, 5),
    (0x81, 2, 5, P, 0, 5),
    // RAID5, three stripes
    (0x81, 3, 0, Slice(0), 0, 0),
    (0x81, 3, 1, Slice(1), 1, 0),
    (0x81, 3, 1, P, 2, 0),
    (0x81, 3, 2, Slice(0), 1, 1),
    (0x81, 3, 2, Slice(1), 2, 1),
    (0x81, 3, 2, P, 0, 1),
    (0x81, 3, 5, Slice(1), 0, 2),
    (0x81, 3, 5, P, 1, 2),
    // RAID5, four stripes
    (0x81, 4, 6, Slice(0), 2, 2),
    (0x81, 4, 7, Slice(1), 3, 2),
    (0x81, 4, 8, Slice(2), 0, 2),
    (0x81, 4, 8, P, 1, 2),
    (0x81, 4, 9, P, 2, 3),
    // RAID6, three stripes
    (0x101, 3, 1, Slice(0), 1, 1),
    (0x101, 3, 1, P, 2, 1),
    (0x101, 3, 1, Q, 0, 1),
    (0x101, 3, 2, Q, 1, 2),
    // RAID6, four stripes
    (0x101, 4, 2, Slice(1), 2, 1),
    (0x101, 4, 2, P, 3, 1),
    (0x101, 4, 2, Q, 0, 1),
    (0x101, 4, 6, Slice(0), 3, 3),
    (0x101, 4, 6, Slice(1), 0, 3),
    (0x101, 4, 6, P, 1, 3),
    (0x101, 4, 6, Q, 2, 3),
    // RAID6, five stripes
    (0x101, 5, 10, Slice(2), 0, 3),
    (0x101, 5, 10, P, 1, 3),
    (0x101, 5, 10, Q, 2, 3),
    (0x101, 5, 11, Slice(0), 3, 3),
];

#[test]
fn places_parts(rt: HostRuntime) -> Result<(), Fail> {
    for (kind, count, element, part, stripe, row) in &PLACED {
        let chunk = chunk(rt.alloc(), *kind, *count, 12 * ELEMENT)?;
        let offset = element.wrapping_mul(ELEMENT).wrapping_add(8192);
        let inside = row.wrapping_mul(ELEMENT).wrapping_add(8192);
        assert!(rt;
            placed(&rt, &chunk, offset, *part)? == (*stripe, inside),
            "{kind:x} {count} {element} {part:?}"
        );
    }
    Ok(())
}

// A chunk of five sectors with so many copies.
fn copied(alloc: Global, kind: u64, copies: u16) -> Result<Chunk, ChunkFault>
    ensures { IfOk result IsChunk }
{
    let form = Form {
        length: 5 * 4096,
        stripe_len: ELEMENT,
        kind,
        count: copies,
        sub_stripes: 0,
    };
    let bytes = item(alloc, form, copies, 1)?;
    Chunk::read(alloc, 5 * 4096, bytes.as_slice())
}

#[test]
fn places_copies(rt: HostRuntime) -> Result<(), Fail> {
    for (kind, copies) in [(0x2, 1), (0x24, 2), (0x14, 2), (0x204, 3), (0x404, 4)] {
        let chunk = copied(rt.alloc(), kind, copies)?;
        assert_eq!(rt; chunk.stripe_length(), 5 * 4096);
        assert_eq!(rt; chunk.mirrors(), Some(u32::from(copies)));
        for copy in 0..u32::from(copies) {
            let at = placed(&rt, &chunk, 12288, Mirror(copy))?;
            assert!(rt; at == (u64::from(copy), 12288), "{kind:x} {copy}");
        }
    }
    Ok(())
}

const FORM: Form = Form {
    length: 12 * ELEMENT,
    stripe_len: ELEMENT,
    kind: 0x1,
    count: 1,
    sub_stripes: 0,
};

const BROKEN: [Form; 13] = [
    Form { length: 0, ..FORM },
    Form {
        length: 12 * ELEMENT + 512,
        ..FORM
    },
    Form {
        length: u64::MAX - 4095,
        ..FORM
    },
    Form {
        stripe_len: 4096,
        ..FORM
    },
    Form { kind: 0x8, ..FORM },
    Form {
        kind: 0x801,
        ..FORM
    },
    Form { kind: 0x19, ..FORM },
    Form { kind: 0x21, ..FORM },
    Form {
        kind: 0x101,
        count: 2,
        ..FORM
    },
    Form {
        kind: 0x41,
        count: 2,
        ..FORM
    },
    Form {
        kind: 0x41,
        count: 3,
        sub_stripes: 2,
        ..FORM
    },
    Form {
        kind: 0x81,
        count: 4,
        length: 8 * ELEMENT,
        ..FORM
    },
    Form { count: 0, ..FORM },
];

#[test]
fn refuses_items(rt: HostRuntime) -> Result<(), Fail> {
    for form in &BROKEN {
        let bytes = item(rt.alloc(), *form, form.count, 1)?;
        let read = Chunk::read(rt.alloc(), START, bytes.as_slice());
        assert!(rt;
            matches!(read, Err(ChunkFault::Bad)),
            "{:x} {}",
            form.kind,
            form.count
        );
    }
    Ok(())
}

#[test]
fn refuses_many_stripes(rt: HostRuntime) -> Result<(), Fail> {
    for count in [65, u16::MAX] {
        let bytes = item(rt.alloc(), Form { count, ..FORM }, 1, 1)?;
        let read = Chunk::read(rt.alloc(), START, bytes.as_slice());
        assert!(rt; matches!(read, Err(ChunkFault::Stripes(n)) if n == count));
        let short = Chunk::read(rt.alloc(), START, &bytes.as_slice()[..bytes.len().min(47)]);
        assert!(rt; matches!(short, Err(ChunkFault::Bad)));
    }
    Ok(())
}

const END: u64 = START + 12 * ELEMENT;

// Ranges of a chunk on so many stripes: its type, the first address, the length, and why it has no place.
const RANGES: [(u64, u16, u64, u64, Option<MapFault>); 6] = [
    (0x9, 3, START + 61440, 8192, Some(MapFault::Crosses)),
    (0x9, 3, START - 1, 1, Some(MapFault::Unmapped)),
    (0x9, 3, END, 0, Some(MapFault::Unmapped)),
    (0x1, 1, START + 61440, 8192, None),
    (0x1, 1, END - ELEMENT, ELEMENT + 1, Some(MapFault::Crosses)),
    (0x1, 1, START, u64::MAX, Some(MapFault::Crosses)),
];

#[test]
fn maps_ranges(rt: HostRuntime) -> Result<(), Fail> {
    for (kind, count, addr, len, fault) in &RANGES {
        let chunk = chunk(rt.alloc(), *kind, *count, 12 * ELEMENT)?;
        let found = elements(&chunk, *addr, *len).err();
        assert!(rt; found == *fault, "{kind:x} {addr} {len}");
    }
    Ok(())
}
