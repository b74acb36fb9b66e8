// Superblocks of several images that differ in one byte.
use super::copies::{FIRST, SHORT, sample};
use btr_make::{put_super, seal};
use btr_rack::{MemRack, Rack};
use btr_super::{Super, diverged, read_slot};
use std::alloc::Global;
use std::process::Abort;
use std::test::Fail;

// The image `a`, opened, with a superblock.
fn image(alloc: Global) -> Result<MemRack, Fail> {
    let mut rack = MemRack::new(alloc);
    rack.add("a", SHORT)?;
    put_super(&mut rack, "a", FIRST, &sample(0))?;
    rack.open("a", false)?;
    Ok(rack)
}

fn found(rack: &mut MemRack) -> Result<Super, Fail> {
    if rack.count() == 0 {
        return Err("no image")?;
    }
    Ok(read_slot(rack, 0)?)
}

// The superblock of such an image, of which a byte is 77h.
fn with_byte(alloc: Global, at: u64) -> Result<Super, Fail> {
    let mut rack = image(alloc)?;
    rack.poke("a", FIRST.wrapping_add(at), &[0x77])?;
    seal(&mut rack, "a", FIRST, 4096)?;
    found(&mut rack)
}

// The first and the last byte of each part that is compared: the id, the flags, the roots, from the sizes to the features, the two
// levels, and from the label to the end.
const COMPARED: [u64; 22] = [
    0x20, 0x2f, 0x38, 0x3f, 0x50, 0x5f, 0x70, 0xc3, 0xc6, 0xc7, 0x12b, 0x22a, 0x22b, 0x232, 0x233,
    0x23a, 0x24a, 0x24b, 0x32a, 0x32b, 0xb2b, 0xfff,
];

// .. and of each that isn't: of the log tree, and of the device.
const EXCEPTED: [u64; 6] = [0x60, 0x67, 0x6f, 0xc8, 0xc9, 0x12a];

// The first slot that has diverged, of an image and one of which a byte is another.
fn slot_of(alloc: Global, at: u64) -> Result<Option<usize>, Fail> {
    let chosen = found(&mut image(alloc)?)?;
    Ok(diverged(&chosen, &[chosen, with_byte(alloc, at)?]))
}

#[test]
fn a_compared_byte_makes_a_difference(rt: HostRuntime) -> Result<(), Fail> {
    for at in COMPARED {
        assert_eq!(rt; slot_of(rt.alloc(), at)?, Some(1), "{at}");
    }
    Ok(())
}

#[test]
fn the_others_do_not(rt: HostRuntime) -> Result<(), Fail> {
    for at in EXCEPTED {
        assert_eq!(rt; slot_of(rt.alloc(), at)?, None, "{at}");
    }
    Ok(())
}

// A superblock of a generation, of so many bytes in use.
fn used(generation: u64, bytes_used: u64) -> Super {
    Super {
        generation,
        bytes_used,
        ..sample(0)
    }
}

#[test]
fn the_first_of_the_newest_generation_is_named(rt: HostRuntime) -> Result<(), Fail> {
    let chosen = used(7, 1);
    assert_eq!(rt; diverged(&chosen, &[]), None);
    assert_eq!(rt; diverged(&chosen, &[chosen, chosen]), None);
    assert_eq!(rt; diverged(&chosen, &[used(6, 2), chosen]), None);
    assert_eq!(rt;
        diverged(&chosen, &[used(6, 2), chosen, used(7, 2)]),
        Some(2)
    );
    assert_eq!(rt;
        diverged(&chosen, &[chosen, used(7, 2), used(7, 3)]),
        Some(1)
    );
    Ok(())
}
