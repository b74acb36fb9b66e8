// Racks in memory.
use crate::reading::{four_at, opened};
use btr_rack::{AddError, MemRack, PokeError, Rack, RackError};
use std::alloc::Global;
use std::process::Abort;
use std::test::Fail;

// A rack with one image of zeros.
fn rack_of(alloc: Global, len: u32) -> Result<MemRack, AddError> {
    let mut rack = MemRack::new(alloc);
    rack.add("a", u64::from(len))?;
    Ok(rack)
}

// A rack with one open image of 10000 zeros, of which the second write fails.
fn failing_rack(alloc: Global) -> Result<MemRack, Fail> {
    let mut rack = rack_of(alloc, 10000)?;
    rack.fail_write(2)?;
    let _ = opened(&mut rack, "a", true);
    Ok(rack)
}

fn poked(rack: &mut MemRack, name: &str, off: u64, text: &str) -> Result<(), PokeError> {
    rack.poke(name, off, text.as_bytes())
}

fn write_four(
    rt: &impl Abort,
    rack: &mut MemRack,
    off: u64,
    bytes: &[u8; 4],
) -> Result<(), RackError> {
    assert!(rt; rack.count() == 1);
    let len = rack.len(0);
    assert!(rt; len >= 4 && off <= len - 4);
    rack.write_at(0, off, bytes)
}

#[test]
fn a_name_is_added_once(rt: HostRuntime) {
    let mut rack = MemRack::new(rt.alloc());
    assert_eq!(rt; rack.add("a", 10000), Ok(()));
    assert_eq!(rt; rack.add("a", 1), Err(AddError::Name));
}

#[test]
fn bytes_are_poked(rt: HostRuntime) -> Result<(), Fail> {
    let mut rack = rack_of(rt.alloc(), 10000)?;
    for (name, off, text, answer) in [
        ("b", 0, "x", Err(PokeError::NoImage)),
        ("a", 9999, "xy", Err(PokeError::Range)),
        ("a", 10001, "", Err(PokeError::Range)),
        ("a", 10000, "", Ok(())),
        ("a", 4094, "wxyz", Ok(())),
    ] {
        assert_eq!(rt; poked(&mut rack, name, off, text), answer);
    }
    for (name, off, byte) in [
        ("a", 4093, Some(0)),
        ("a", 4094, Some(b'w')),
        ("a", 4097, Some(b'z')),
        ("a", 9999, Some(0)),
        ("a", 10000, None),
        ("b", 0, None),
    ] {
        assert_eq!(rt; rack.byte(name, off), byte);
    }
    Ok(())
}

// The last byte of a page that is kept.
fn last_of_page(rack: &MemRack, index: u64) -> Option<u8> {
    rack.page("a", index)?.last().copied()
}

#[test]
fn pages_are_kept_where_bytes_were_poked(rt: HostRuntime) -> Result<(), Fail> {
    let mut rack = rack_of(rt.alloc(), 10000)?;
    rack.poke("a", 8191, b"yz")?;
    for (index, last) in [(0, None), (1, Some(b'y')), (2, Some(0)), (3, None)] {
        assert_eq!(rt; last_of_page(&rack, index), last, "page {index}");
    }
    Ok(())
}

// Two images of 5000 zeros, of which one is open.
fn half_open(alloc: Global) -> Result<MemRack, AddError> {
    let mut rack = rack_of(alloc, 5000)?;
    rack.add("b", 5000)?;
    let _ = opened(&mut rack, "b", false);
    Ok(rack)
}

fn cut(rack: &mut MemRack, name: &str, len: u64) -> bool {
    rack.cut(name, len)
}

#[test]
fn images_are_cut_on_the_shelf(rt: HostRuntime) -> Result<(), Fail> {
    let mut rack = half_open(rt.alloc())?;
    for (name, len, answer) in [
        ("a", 5001, false),
        ("a", 4096, true),
        ("a", 4097, false),
        ("b", 1, false),
        ("c", 0, false),
    ] {
        assert_eq!(rt; cut(&mut rack, name, len), answer, "{name} to {len}");
    }
    assert_eq!(rt; rack.byte("a", 4096), None);
    assert_eq!(rt; rack.byte("b", 4999), Some(0));
    Ok(())
}

// Three images, each with its name in it.
fn named_images(alloc: Global) -> Result<MemRack, Fail> {
    let mut rack = MemRack::new(alloc);
    for name in ["a", "b", "c"] {
        rack.add(name, 8192)?;
        rack.poke(name, 4094, name.as_bytes())?;
    }
    Ok(rack)
}

#[test]
fn images_are_opened_in_any_order(rt: HostRuntime) -> Result<(), Fail> {
    let mut rack = named_images(rt.alloc())?;
    for (name, answer) in [
        ("c", Ok(0)),
        ("a", Ok(1)),
        ("a", Err(RackError::Failed)),
        ("d", Err(RackError::Failed)),
        ("b", Ok(2)),
    ] {
        assert_eq!(rt; opened(&mut rack, name, false), answer, "{name}");
    }
    assert_eq!(rt; rack.byte("b", 4094), Some(b'b'));
    assert_eq!(rt; four_at(&rt, &mut rack, 0, 4094), Ok(*b"c\0\0\0"));
    assert_eq!(rt; four_at(&rt, &mut rack, 2, 4093), Ok(*b"\0b\0\0"));
    Ok(())
}

// Opens an image, writes into it, and closes it.
fn keep(rt: &impl Abort, rack: &mut MemRack) -> Result<Option<u8>, RackError> {
    assert_eq!(rt; opened(rack, "a", true), Ok(0));
    write_four(rt, rack, 4095, b"kept")?;
    rack.close_all();
    Ok(rack.byte("a", 4095))
}

#[test]
fn closed_images_keep_their_bytes(rt: HostRuntime) -> Result<(), Fail> {
    let mut rack = rack_of(rt.alloc(), 8192)?;
    rack.fail_call(3)?;
    for _ in 0..2 {
        assert_eq!(rt; keep(&rt, &mut rack), Ok(Some(b'k')));
    }
    Ok(())
}

// A rack whose first and fourth call fail, and each read of some bytes.
fn struck_rack(alloc: Global) -> Result<MemRack, Fail> {
    let mut rack = rack_of(alloc, 8192)?;
    rack.fail_call(1)?;
    rack.fail_call(4)?;
    rack.fail_range("a", 100, 10)?;
    Ok(rack)
}

#[test]
fn calls_fail_where_they_are_made_to(rt: HostRuntime) -> Result<(), Fail> {
    let mut rack = struck_rack(rt.alloc())?;
    assert_eq!(rt; opened(&mut rack, "a", false), Err(RackError::Failed));
    assert_eq!(rt; opened(&mut rack, "a", false), Ok(0));
    for (off, answer) in [
        (0, Ok([0; 4])),
        (0, Err(RackError::Failed)),
        (0, Ok([0; 4])),
        (96, Ok([0; 4])),
        (97, Err(RackError::Failed)),
        (109, Err(RackError::Failed)),
        (110, Ok([0; 4])),
    ] {
        assert_eq!(rt; four_at(&rt, &mut rack, 0, off), answer, "at {off}");
    }
    Ok(())
}

#[test]
fn a_failing_write_is_torn(rt: HostRuntime) -> Result<(), Fail> {
    let mut rack = failing_rack(rt.alloc())?;
    assert_eq!(rt; write_four(&rt, &mut rack, 4094, b"good"), Ok(()));
    rack.tear(b'#');
    assert_eq!(rt;
        write_four(&rt, &mut rack, 4093, b"torn"),
        Err(RackError::Failed)
    );
    assert_eq!(rt; four_at(&rt, &mut rack, 0, 4094), Ok(*b"###d"));
    Ok(())
}

#[test]
fn a_failing_write_changes_nothing(rt: HostRuntime) -> Result<(), Fail> {
    let mut rack = failing_rack(rt.alloc())?;
    assert_eq!(rt; write_four(&rt, &mut rack, 4094, b"good"), Ok(()));
    assert_eq!(rt;
        write_four(&rt, &mut rack, 4094, b"lost"),
        Err(RackError::Failed)
    );
    assert_eq!(rt; four_at(&rt, &mut rack, 0, 4094), Ok(*b"good"));
    Ok(())
}
