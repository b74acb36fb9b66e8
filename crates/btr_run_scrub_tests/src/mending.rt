// Scrubs of damaged images, after which each byte is right again, or none has changed.
use crate::scrubbing::turn;
use btr_make::{RowVolume, row, spoil};
use btr_rack::MemRack;
use btr_test_calls::{CallFault, Told, call, five_files};
use std::alloc::{AllocError, Global};
use std::process::Abort;

const PAGE: u64 = 4096;

// How many pages an image of the small volumes has, at most.
const PAGES: u64 = 4096;

// How many pages an element has.
const ELEMENT: u64 = 16;

// Words, and behind them the names of images.
fn with_names(
    alloc: Global,
    words: &[&'static str],
    names: &[&'static str],
) -> Result<Vec<&'static str>, AllocError> {
    let mut all = Vec::from_slice(alloc, words)?;
    all.extend_from_slice(names)?;
    Ok(all)
}

/// Scrubs images. They are on the shelf again.
pub(crate) fn scrub(
    alloc: Global,
    rack: &mut MemRack,
    names: &[&'static str],
) -> Result<Told, CallFault> {
    let all = with_names(alloc, &["scrub", "start"], names)?;
    let told = call(alloc, rack, &all)?;
    rack.close_all();
    Ok(told)
}

// Scrubs images, and asserts that all was done.
fn mends(
    rt: &impl Abort,
    alloc: Global,
    rack: &mut MemRack,
    names: &[&'static str],
) -> Result<(), CallFault> {
    assert_eq!(rt; scrub(alloc, rack, names)?.code, 0);
    Ok(())
}

// Scrubs images, and asserts the text and the exit status.
fn tells(
    rt: &impl Abort,
    alloc: Global,
    rack: &mut MemRack,
    names: &[&'static str],
    text: &[u8],
    code: u8,
) -> Result<(), CallFault> {
    let told = scrub(alloc, rack, names)?;
    assert_eq!(rt; told.text.as_slice(), text);
    assert_eq!(rt; told.code, code);
    Ok(())
}

// Whether a page of an image is the same in two racks.
fn is_same(right: &MemRack, rack: &MemRack, name: &str, index: u64) -> bool {
    right.page(name, index) == rack.page(name, index)
}

/// The first page of an image that isn't the same in two racks.
pub(crate) fn differing_page(right: &MemRack, rack: &MemRack, name: &str) -> Option<u64> {
    for index in 0..PAGES {
        if !is_same(right, rack, name, index) {
            return Some(index);
        }
    }
    None
}

// Asserts that the images of a volume have the same bytes in two racks.
fn expect_same(rt: &impl Abort, right: &MemRack, rack: &MemRack, names: &[&str]) {
    for name in names {
        assert_eq!(rt; differing_page(right, rack, name), None);
    }
}

// Asserts that the images of a volume have the bytes that they were made with.
fn expect_right(
    rt: &impl Abort,
    alloc: Global,
    rack: &MemRack,
    rows: &Rows,
) -> Result<(), CallFault> {
    expect_same(rt, &row(alloc, rows.volume)?, rack, rows.names);
    Ok(())
}

// The bytes of a page, turned, where they aren't all zeros.
fn turned(rack: &MemRack, name: &str, index: u64) -> Option<[u8; 4096]> {
    let page = rack.page(name, index)?;
    let mut turned = [0; 4096];
    let mut has_bytes = false;
    for (to, from) in turned.iter_mut().zip(page) {
        *to = !*from;
        has_bytes = has_bytes || *from != 0;
    }
    if has_bytes { Some(turned) } else { None }
}

// Turns a page that isn't all zeros; it is false where it is.
fn turn_page(rack: &mut MemRack, name: &str, index: u64) -> Result<bool, CallFault> {
    match turned(rack, name, index) {
        Some(bytes) => {
            rack.poke(name, index.saturating_mul(PAGE), &bytes)?;
            Ok(true)
        }
        None => Ok(false),
    }
}

// Turns the pages of an element that aren't zeros; it is false where there are none.
fn turn_element(rack: &mut MemRack, name: &str, element: u64) -> Result<bool, CallFault> {
    let first = element.saturating_mul(ELEMENT);
    let mut is_turned = false;
    for index in first..first.saturating_add(ELEMENT) {
        if turn_page(rack, name, index)? {
            is_turned = true;
        }
    }
    Ok(is_turned)
}

// A volume, and the names of its images.
#[derive(Clone, Copy)]
struct Rows {
    volume: RowVolume,
    names: &'static [&'static str],
}

const ROWS5: Rows = Rows {
    volume: RowVolume::Rows5,
    names: &["a", "b", "c"],
};

const ROWS6: Rows = Rows {
    volume: RowVolume::Rows6,
    names: &["a", "b", "c", "d", "e"],
};

// Where the elements of the small volumes lie in their images.
const FIRST: u64 = 16;

const END: u64 = 256;

// Turns the elements of an image one after another, and scrubs behind each.
fn mend_image(
    rt: &impl Abort,
    alloc: Global,
    rack: &mut MemRack,
    rows: &Rows,
    name: &str,
) -> Result<(), CallFault> {
    for element in FIRST..END {
        if turn_element(rack, name, element)? {
            mends(rt, alloc, rack, rows.names)?;
        }
    }
    Ok(())
}

// The same with all images of a volume, after which each byte is right.
fn mend_images(rt: &impl Abort, alloc: Global, rows: &Rows) -> Result<(), CallFault> {
    let mut rack = row(alloc, rows.volume)?;
    for name in rows.names {
        mend_image(rt, alloc, &mut rack, rows, name)?;
    }
    expect_right(rt, alloc, &rack, rows)
}

#[test]
fn each_element_is_mended(rt: HostRuntime) -> Result<(), CallFault> {
    mend_images(&rt, rt.alloc(), &ROWS5)?;
    mend_images(&rt, rt.alloc(), &ROWS6)
}

// Turns the elements at a place of two images; it is false where both are zeros.
fn turn_both(
    rack: &mut MemRack,
    first: &str,
    second: &str,
    element: u64,
) -> Result<bool, CallFault> {
    let is_first = turn_element(rack, first, element)?;
    Ok(turn_element(rack, second, element)? || is_first)
}

// Two elements at a time, at one place of these images.
fn mend_both(
    rt: &impl Abort,
    alloc: Global,
    rack: &mut MemRack,
    first: &str,
    second: &str,
) -> Result<(), CallFault> {
    for element in FIRST..END {
        if turn_both(rack, first, second, element)? {
            mends(rt, alloc, rack, ROWS6.names)?;
        }
    }
    Ok(())
}

const PAIRS: &[(&str, &str)] = &[("a", "b"), ("b", "d"), ("c", "e"), ("e", "a")];

#[test]
fn pairs_of_elements_are_mended(rt: HostRuntime) -> Result<(), CallFault> {
    let alloc = rt.alloc();
    let mut rack = row(alloc, ROWS6.volume)?;
    for (first, second) in PAIRS {
        mend_both(&rt, alloc, &mut rack, first, second)?;
    }
    expect_right(&rt, alloc, &rack, &ROWS6)
}

// A volume of which some images are spoiled, and the text of its scrub.
#[derive(Clone, Copy)]
struct Spoiled {
    rows: Rows,
    spoiled: &'static [&'static str],
    text: &'static [u8],
}

const SPOILED5: Spoiled = Spoiled {
    rows: Rows {
        volume: RowVolume::Raid5,
        names: &["a", "b", "c"],
    },
    spoiled: &["a"],
    text: b"blocks 8 bad 8 repaired 8 lost 0 parity 0 unchecked 0\n",
};

const SPOILED6: Spoiled = Spoiled {
    rows: Rows {
        volume: RowVolume::Raid6,
        names: &["a", "b", "c", "d"],
    },
    spoiled: &["a", "d"],
    text: b"blocks 8 bad 8 repaired 8 lost 0 parity 2 unchecked 0\n",
};

const SPOILED_PAIR: Spoiled = Spoiled {
    rows: Rows {
        volume: RowVolume::M1,
        names: &["a", "b"],
    },
    spoiled: &["b"],
    text: b"blocks 8 bad 6 repaired 6 lost 0 parity 0 unchecked 0\n",
};

const SPOILED_TRIPLE: Spoiled = Spoiled {
    rows: Rows {
        volume: RowVolume::M3,
        names: &["a", "b", "c"],
    },
    spoiled: &["b", "c"],
    text: b"blocks 8 bad 12 repaired 12 lost 0 parity 0 unchecked 0\n",
};

fn spoil_images(alloc: Global, case: &Spoiled) -> Result<MemRack, CallFault> {
    let mut rack = row(alloc, case.rows.volume)?;
    for name in case.spoiled {
        spoil(&mut rack, name)?;
    }
    Ok(rack)
}

fn mend_spoiled(rt: &impl Abort, alloc: Global, case: &Spoiled) -> Result<(), CallFault> {
    let mut rack = spoil_images(alloc, case)?;
    tells(rt, alloc, &mut rack, case.rows.names, case.text, 0)?;
    expect_right(rt, alloc, &rack, &case.rows)
}

#[test]
fn spoiled_images_are_mended(rt: HostRuntime) -> Result<(), CallFault> {
    mend_spoiled(&rt, rt.alloc(), &SPOILED5)?;
    mend_spoiled(&rt, rt.alloc(), &SPOILED6)?;
    mend_spoiled(&rt, rt.alloc(), &SPOILED_PAIR)?;
    mend_spoiled(&rt, rt.alloc(), &SPOILED_TRIPLE)
}

/// Asserts that all files can be restored. The images are on the shelf again.
pub(crate) fn restores_all(
    rt: &impl Abort,
    alloc: Global,
    rack: &mut MemRack,
    names: &[&'static str],
) -> Result<(), CallFault> {
    let all = with_names(alloc, &["restore", "out"], names)?;
    let told = call(alloc, rack, &all)?;
    assert_eq!(rt;
        told.text.as_slice(),
        b"directories 0 files 5 skipped 0\n".as_slice()
    );
    assert_eq!(rt; told.code, 0);
    assert!(rt; told.rows.as_slice() == five_files(alloc)?.as_slice());
    rack.close_all();
    Ok(())
}

// Spoiled images, of which a write fails, and fills its range with a byte.
fn torn_at(alloc: Global, case: &Spoiled, write: u64) -> Result<MemRack, CallFault> {
    let mut rack = spoil_images(alloc, case)?;
    rack.tear(165);
    rack.fail_write(write)?;
    Ok(rack)
}

// A write of a scrub fails: the image is at fault, all files can be restored then, and a second scrub mends what is left.
fn stop_at(
    rt: &impl Abort,
    alloc: Global,
    case: &Spoiled,
    write: u64,
    text: &[u8],
) -> Result<(), CallFault> {
    let rack = &mut torn_at(alloc, case, write)?;
    tells(rt, alloc, rack, case.rows.names, text, 4)?;
    restores_all(rt, alloc, rack, case.rows.names)?;
    mends(rt, alloc, rack, case.rows.names)?;
    expect_right(rt, alloc, rack, &case.rows)
}

const FIRST_FAILED: &[u8] = b"error: image 0 failed\n";

#[test]
fn stopped_at_each_write(rt: HostRuntime) -> Result<(), CallFault> {
    for write in 1..9 {
        stop_at(&rt, rt.alloc(), &SPOILED5, write, FIRST_FAILED)?;
        stop_at(&rt, rt.alloc(), &SPOILED6, write, FIRST_FAILED)?;
    }
    for write in 9..11 {
        stop_at(
            &rt,
            rt.alloc(),
            &SPOILED6,
            write,
            b"error: image 3 failed\n",
        )?;
    }
    Ok(())
}

// A volume of one image with some bytes turned.
fn turned_at(alloc: Global, volume: RowVolume, offs: &[u64]) -> Result<MemRack, CallFault> {
    let mut rack = row(alloc, volume)?;
    for off in offs {
        turn(&mut rack, "a", *off)?;
    }
    Ok(rack)
}

// What a scrub says of such a volume, of which blocks are lost; no byte changes.
fn leaves_all(
    rt: &impl Abort,
    alloc: Global,
    volume: RowVolume,
    offs: &[u64],
    text: &[u8],
) -> Result<(), CallFault> {
    let mut rack = turned_at(alloc, volume, offs)?;
    tells(rt, alloc, &mut rack, &["a"], text, 1)?;
    expect_same(rt, &turned_at(alloc, volume, offs)?, &rack, &["a"]);
    Ok(())
}

#[test]
fn lost_blocks_are_left(rt: HostRuntime) -> Result<(), CallFault> {
    let text = b"blocks 8 bad 1 repaired 0 lost 1 parity 0 unchecked 0\n";
    leaves_all(&rt, rt.alloc(), RowVolume::V1, &[10485760], text)?;
    let sums = [2146404, 2162788, 6357092];
    let text = b"error: lost block 2162688\n";
    leaves_all(&rt, rt.alloc(), RowVolume::V1d, &sums, text)
}
