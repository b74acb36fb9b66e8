// Files with holes, and with sizes that end inside a sector.
use super::made::{Lines, pattern, zeros};
use super::memory::{Outcome, counts};
use super::replay::replayed;
use super::scene::{Scene, TOP, Who};
use std::alloc::{AllocError, Global};
use std::process::Abort;
use std::test::Fail;

const UUID: [u8; 16] = [1, 2, 3, 4, 5, 6, 7, 8, 9, 10, 11, 12, 13, 14, 15, 16];

/// The lines of a subvolume `v` that has the uuid and the transid of these tests.
pub(super) fn subvolume(alloc: Global) -> Result<Lines, AllocError> {
    let mut lines = Lines::new(alloc);
    lines.subvolume(b"v", &UUID, &[0x15, 0xcd, 0x5b, 7, 0, 0, 0, 0])?;
    Ok(lines)
}

/// What came of a send of a subvolume that is who these tests say.
pub(super) fn sent(rt: &impl Abort, scene: Scene) -> Result<Outcome, Fail> {
    scene.sent(rt, Who::New(UUID, 123456789))
}

// One file, of these bytes.
fn makes(rt: &impl Abort, alloc: Global, scene: Scene, bytes: &[u8]) -> Result<(), Fail> {
    let all = sent(rt, scene)?;
    let mut lines = subvolume(alloc)?;
    lines.file(b"f", bytes)?;
    assert_eq!(rt; all.answer, Ok(counts(0, 1, 0)));
    assert!(rt; replayed(alloc, all.whole.as_slice())?.as_slice() == lines.as_slice());
    Ok(())
}

// A file `f` of a size, without an extent.
fn empty(alloc: Global, size: u64) -> Result<Scene, Fail> {
    let mut scene = Scene::new(alloc)?;
    scene.file(TOP, b"f", 257, size)?;
    Ok(scene)
}

#[test]
fn sizes_within_a_sector(rt: HostRuntime) -> Result<(), Fail> {
    for size in [1, 4095, 4096, 4097, 8191, 9000, 12289] {
        let bytes = pattern(rt.alloc(), size, size)?;
        let mut scene = empty(rt.alloc(), size)?;
        scene.extent(257, 0, bytes.as_slice())?;
        makes(&rt, rt.alloc(), scene, bytes.as_slice())?;
    }
    Ok(())
}

// The size is all that is said of these.
#[test]
fn nothing_but_a_hole(rt: HostRuntime) -> Result<(), Fail> {
    for size in [0, 1, 4096, 100000] {
        let scene = empty(rt.alloc(), size)?;
        makes(&rt, rt.alloc(), scene, zeros(rt.alloc(), size)?.as_slice())?;
    }
    Ok(())
}

// Some zeros, a pattern, and zeros.
fn between(alloc: Global, before: u64, len: u64, after: u64) -> Result<Vec<u8>, AllocError> {
    let mut bytes = zeros(alloc, before)?;
    bytes.extend_from_slice(pattern(alloc, 3, len)?.as_slice())?;
    bytes.extend_from_slice(zeros(alloc, after)?.as_slice())?;
    Ok(bytes)
}

// A hole in front of an extent and behind it, without an item or with one; the last ends inside a
// sector.
#[test]
fn a_hole_at_each_end(rt: HostRuntime) -> Result<(), Fail> {
    let bytes = between(rt.alloc(), 8192, 4096, 5000)?;
    let middle = pattern(rt.alloc(), 3, 4096)?;
    let mut scene = empty(rt.alloc(), 17288)?;
    scene.extent(257, 8192, middle.as_slice())?;
    makes(&rt, rt.alloc(), scene, bytes.as_slice())?;
    let mut scene = empty(rt.alloc(), 17288)?;
    scene.hole(257, 0, 8192)?;
    scene.extent(257, 8192, middle.as_slice())?;
    scene.hole(257, 12288, 8192)?;
    makes(&rt, rt.alloc(), scene, bytes.as_slice())?;
    let mut scene = empty(rt.alloc(), 17288)?;
    scene.preallocated(257, 0, 8192)?;
    scene.extent(257, 8192, middle.as_slice())?;
    scene.preallocated(257, 12288, 8192)?;
    makes(&rt, rt.alloc(), scene, bytes.as_slice())
}

// Two extents with a hole between them, the second of which ends inside a sector.
#[test]
fn a_hole_between(rt: HostRuntime) -> Result<(), Fail> {
    let alloc = rt.alloc();
    let mut bytes = pattern(alloc, 7, 8192)?;
    bytes.extend_from_slice(between(alloc, 12288, 5000, 0)?.as_slice())?;
    let mut scene = empty(alloc, 25480)?;
    scene.extent(257, 0, pattern(alloc, 7, 8192)?.as_slice())?;
    scene.hole(257, 8192, 12288)?;
    scene.extent(257, 20480, pattern(alloc, 3, 5000)?.as_slice())?;
    makes(&rt, alloc, scene, bytes.as_slice())
}

// The old form of a ROOT_ITEM says nothing of who the subvolume is.
#[test]
fn no_uuid(rt: HostRuntime) -> Result<(), Fail> {
    let mut scene = Scene::new(rt.alloc())?;
    scene.inline(TOP, b"f", 257, b"some bytes")?;
    let all = scene.sent(&rt, Who::Old)?;
    let mut lines = Lines::new(rt.alloc());
    lines.subvolume(b"v", &[0; 16], &[0; 8])?;
    lines.file(b"f", b"some bytes")?;
    assert_eq!(rt; all.answer, Ok(counts(0, 1, 0)));
    assert!(rt; replayed(rt.alloc(), all.whole.as_slice())?.as_slice() == lines.as_slice());
    Ok(())
}
