// Rows of `super`, worked out by hand, over images in memory.
use crate::answers::answers;
use btr_make::{put_super, seal};
use btr_rack::{MemRack, Rack};
use btr_run::Answer;
use btr_super::Super;
use btr_test_calls::{CallFault, Failing, call, call_where};
use std::alloc::{AllocError, Global};
use std::process::Abort;

const HEAD: &[u8] =
    b"slot 0 place 65536\nfsid 11111111-1111-1111-1111-111111111111\nmetadata_uuid 00000000-0000-0000-0000-000000000000\nlabel [rows]\ngeneration 7\nroot 2097152 level 0\nchunk_root 1048576 level 0 generation 7\nlog_root 0\ntotal_bytes 16777216\nbytes_used 106496\nnum_devices 1\nsectorsize 4096 nodesize 16384\ncsum_type ";

const TAIL: &[u8] =
    b"\ncompat 0000000000000000 compat_ro 0000000000000000 incompat 0000000000000361\ndevid 1\n";

// The superblock of a small volume.
fn sample(generation: u64, csum_type: u16) -> Super {
    let mut label = [0; 256];
    label[..4].copy_from_slice(b"rows");
    Super {
        fsid: [0x11; 16],
        place: 0,
        flags: 0,
        generation,
        root: 2097152,
        chunk_root: 1048576,
        log_root: 0,
        total_bytes: 16777216,
        bytes_used: 106496,
        root_dir: 0,
        num_devices: 1,
        sectorsize: 4096,
        nodesize: 16384,
        leafsize: 0,
        stripesize: 0,
        sys_chunk_array_size: 0,
        chunk_root_generation: 7,
        compat: 0,
        compat_ro: 0,
        incompat: 0x361,
        csum_type,
        root_level: 0,
        chunk_root_level: 0,
        log_root_level: 0,
        devid: 1,
        dev_uuid: [0; 16],
        label,
        cache_generation: 0,
        uuid_tree_generation: 0,
        metadata_uuid: [0; 16],
        reserved: [0; 224],
        array: [0; 2048],
        backups: [0; 1237],
    }
}

fn text(alloc: Global, csum_type: &[u8]) -> Result<Vec<u8>, AllocError> {
    let mut text = Vec::from_slice(alloc, HEAD)?;
    text.extend_from_slice(csum_type)?;
    text.extend_from_slice(TAIL)?;
    Ok(text)
}

// No image is so long.
const END: u64 = 1 << 63;

// An image of zeros on the shelf.
fn add_zeros(rack: &mut MemRack, name: &str, len: u64) -> Result<(), CallFault> {
    if len >= END {
        return Err(CallFault::Image);
    }
    Ok(rack.add(name, len)?)
}

// A copy of a superblock in an image.
fn put_copy(rack: &mut MemRack, name: &str, place: u64, copy: &Super) -> Result<(), CallFault> {
    Ok(put_super(rack, name, place, copy)?)
}

// An image on the shelf, with one copy of a superblock.
fn add(
    rack: &mut MemRack,
    name: &str,
    len: u64,
    place: u64,
    copy: &Super,
) -> Result<(), CallFault> {
    add_zeros(rack, name, len)?;
    put_copy(rack, name, place, copy)
}

// A rack with such an image alone.
fn rack_of(alloc: Global, len: u64, place: u64, copy: &Super) -> Result<MemRack, CallFault> {
    let mut rack = MemRack::new(alloc);
    add(&mut rack, "a", len, place, copy)?;
    Ok(rack)
}

// A rack with two small images, of which the second has a superblock of this generation and the first one of the seventh.
fn two_images(alloc: Global, generation: u64) -> Result<MemRack, CallFault> {
    let mut rack = rack_of(alloc, 69632, 65536, &sample(7, 0))?;
    add(&mut rack, "b", 69632, 65536, &sample(generation, 0))?;
    Ok(rack)
}

fn shows_all(
    rt: &impl Abort,
    alloc: Global,
    len: u64,
    csum_type: u16,
    digit: &[u8],
) -> Result<(), CallFault> {
    let mut rack = rack_of(alloc, len, 65536, &sample(7, csum_type))?;
    let text = text(alloc, digit)?;
    answers(rt, alloc, &mut rack, &["super", "a"], &text, 0)
}

#[test]
fn one_image(rt: HostRuntime) -> Result<(), CallFault> {
    let alloc = rt.alloc();
    let rows: &[(u64, u16, &[u8])] = &[
        (16777216, 0, b"0"),
        (69632, 0, b"0"),
        (16777216, 1, b"1"),
        (16777216, 2, b"2"),
    ];
    for (len, csum_type, digit) in rows {
        shows_all(&rt, alloc, *len, *csum_type, digit)?;
    }
    Ok(())
}

const NONE: &[u8] = b"error: image 0 has no valid superblock\n";

const SUPER: [&str; 2] = ["super", "a"];

#[test]
fn an_image_without_a_superblock(rt: HostRuntime) -> Result<(), CallFault> {
    let mut rack = rack_of(rt.alloc(), 16777216, 69632, &sample(7, 0))?;
    answers(&rt, rt.alloc(), &mut rack, &SUPER, NONE, 3)
}

#[test]
fn a_checksum_of_another_type(rt: HostRuntime) -> Result<(), CallFault> {
    let mut rack = rack_of(rt.alloc(), 16777216, 65536, &sample(7, 3))?;
    let text = b"error: checksum type 3 is not supported\n";
    answers(&rt, rt.alloc(), &mut rack, &SUPER, text, 3)
}

#[test]
fn an_image_that_ends_in_its_superblock(rt: HostRuntime) -> Result<(), CallFault> {
    let mut rack = rack_of(rt.alloc(), 69632, 65536, &sample(7, 0))?;
    assert!(rt; rack.cut("a", 69631));
    answers(&rt, rt.alloc(), &mut rack, &SUPER, NONE, 3)
}

// Asserts that `super` over these images shows a superblock whose text begins so.
fn shows(
    rt: &impl Abort,
    alloc: Global,
    rack: &mut MemRack,
    all: &[&str],
    beginning: &[u8],
) -> Result<(), CallFault> {
    let told = call(alloc, rack, all)?;
    assert_eq!(rt; told.answer, Answer::Done { skipped: 0 });
    assert!(rt; told.text.starts_with(beginning));
    Ok(())
}

// The generations of the copies at 65536 and at another place of an image, and how the text begins.
#[derive(Clone, Copy)]
struct Copies {
    place: u64,
    first: u64,
    second: u64,
    beginning: &'static [u8],
}

const COPIES: &[Copies] = &[
    Copies {
        place: 67108864,
        first: 7,
        second: 9,
        beginning: b"slot 0 place 67108864\n",
    },
    Copies {
        place: 67108864,
        first: 9,
        second: 9,
        beginning: b"slot 0 place 65536\n",
    },
    Copies {
        place: 67108864,
        first: 9,
        second: 7,
        beginning: b"slot 0 place 65536\n",
    },
    Copies {
        place: 274877906944,
        first: 7,
        second: 8,
        beginning: b"slot 0 place 274877906944\n",
    },
];

fn shows_newest(rt: &impl Abort, alloc: Global, copies: &Copies) -> Result<(), CallFault> {
    let mut rack = rack_of(alloc, 275951648768, 65536, &sample(copies.first, 0))?;
    put_copy(&mut rack, "a", copies.place, &sample(copies.second, 0))?;
    shows(rt, alloc, &mut rack, &SUPER, copies.beginning)
}

#[test]
fn the_newest_copy(rt: HostRuntime) -> Result<(), CallFault> {
    for copies in COPIES {
        shows_newest(&rt, rt.alloc(), copies)?;
    }
    Ok(())
}

// A rack with an image whose superblock's last byte isn't right.
fn damaged(alloc: Global) -> Result<MemRack, CallFault> {
    let mut rack = rack_of(alloc, 67112960, 65536, &sample(9, 0))?;
    rack.poke("a", 69631, &[1])?;
    Ok(rack)
}

#[test]
fn damaged_copies(rt: HostRuntime) -> Result<(), CallFault> {
    answers(&rt, rt.alloc(), &mut damaged(rt.alloc())?, &SUPER, NONE, 3)?;
    let mut rack = damaged(rt.alloc())?;
    put_copy(&mut rack, "a", 67108864, &sample(7, 0))?;
    shows(
        &rt,
        rt.alloc(),
        &mut rack,
        &SUPER,
        b"slot 0 place 67108864\n",
    )
}

// A rack with an image whose second copy says that it stands at the place of the first, and has its checksum right.
fn misplaced(alloc: Global) -> Result<MemRack, CallFault> {
    let place: u64 = 67108864;
    let mut rack = rack_of(alloc, 67112960, place, &sample(9, 0))?;
    rack.poke("a", place + 0x30, &[0, 0, 1, 0, 0, 0, 0, 0])?;
    seal(&mut rack, "a", place, 4096)?;
    Ok(rack)
}

#[test]
fn a_copy_of_another_place(rt: HostRuntime) -> Result<(), CallFault> {
    answers(
        &rt,
        rt.alloc(),
        &mut misplaced(rt.alloc())?,
        &SUPER,
        NONE,
        3,
    )
}

#[test]
fn several_images(rt: HostRuntime) -> Result<(), CallFault> {
    let rows: &[(u64, &[u8])] = &[
        (8, b"slot 1 place 65536\n"),
        (7, b"slot 0 place 65536\n"),
        (6, b"slot 0 place 65536\n"),
    ];
    for (generation, beginning) in rows {
        let mut rack = two_images(rt.alloc(), *generation)?;
        shows(&rt, rt.alloc(), &mut rack, &["super", "a", "b"], beginning)?;
    }
    Ok(())
}

#[test]
fn a_second_image_without_a_superblock(rt: HostRuntime) -> Result<(), CallFault> {
    let mut rack = rack_of(rt.alloc(), 69632, 65536, &sample(7, 0))?;
    add_zeros(&mut rack, "b", 69632)?;
    let text = b"error: image 1 has no valid superblock\n";
    answers(&rt, rt.alloc(), &mut rack, &["super", "a", "b"], text, 3)
}

#[test]
fn too_many_images(rt: HostRuntime) -> Result<(), CallFault> {
    let mut rack = MemRack::new(rt.alloc());
    let mut all = ["a"; 66];
    all[0] = "super";
    let text = b"error: too many images: 65\n";
    answers(&rt, rt.alloc(), &mut rack, &all, text, 3)?;
    assert_eq!(rt; rack.count(), 0);
    Ok(())
}

// The number of the call on an image that fails, the words, and the text.
const FAILING: &[(u64, &[&str], &[u8])] = &[
    (1, &["super", "a", "b"], b"error: image 0 failed\n"),
    (2, &["super", "a"], b"error: image 0 failed\n"),
    (3, &["super", "a", "b"], b"error: image 0 failed\n"),
    (2, &["super", "a", "b"], b"error: image 1 failed\n"),
    (4, &["super", "a", "b"], b"error: image 1 failed\n"),
    (9, &["super", "a", "c"], b"error: image 1 failed\n"),
    (9, &["super", "a", "a"], b"error: image 1 failed\n"),
];

// A rack with two small images, of which a call fails.
fn failing(alloc: Global, number: u64) -> Result<MemRack, CallFault> {
    let mut rack = two_images(alloc, 7)?;
    rack.fail_call(number)?;
    Ok(rack)
}

#[test]
fn failing_images(rt: HostRuntime) -> Result<(), CallFault> {
    for (number, all, text) in FAILING {
        answers(
            &rt,
            rt.alloc(),
            &mut failing(rt.alloc(), *number)?,
            all,
            text,
            4,
        )?;
    }
    Ok(())
}

// Asserts that the failure of the first call of the output ends the run.
fn refuses_output(rt: &impl Abort, alloc: Global, all: &[&str]) -> Result<(), CallFault> {
    let mut rack = rack_of(alloc, 69632, 65536, &sample(7, 0))?;
    let told = call_where(alloc, &mut rack, all, Failing::Output(1))?;
    assert_eq!(rt; told.answer, Answer::OutFault);
    assert_eq!(rt; told.code, 4);
    assert!(rt; told.text.is_empty());
    Ok(())
}

#[test]
fn a_failing_output(rt: HostRuntime) -> Result<(), CallFault> {
    refuses_output(&rt, rt.alloc(), &["super", "a"])?;
    refuses_output(&rt, rt.alloc(), &["super", "-x"])
}
