// Directories, and paths that are long.
use super::holes::{sent, subvolume};
use super::made::Lines;
use super::memory::counts;
use super::replay::replayed;
use super::scene::{Scene, TOP};
use std::alloc::{AllocError, Global};
use std::test::Fail;

// Directories two levels deep, up and down again.
fn branches(alloc: Global) -> Result<Scene, Fail> {
    let mut scene = Scene::new(alloc)?;
    scene.directory(TOP, b"a", 257)?;
    scene.directory(257, b"b", 258)?;
    scene.inline(258, b"f", 259, b"1")?;
    scene.directory(257, b"c", 260)?;
    scene.inline(260, b"g", 261, b"22")?;
    scene.directory(260, b"none", 262)?;
    scene.inline(257, b"d", 263, b"333")?;
    scene.directory(TOP, b"e", 264)?;
    scene.inline(264, b"a", 265, b"4444")?;
    scene.inline(TOP, b"i", 266, b"55555")?;
    Ok(scene)
}

#[test]
fn up_and_down_again(rt: HostRuntime) -> Result<(), Fail> {
    let all = sent(&rt, branches(rt.alloc())?)?;
    let mut lines = subvolume(rt.alloc())?;
    lines.directory(b"a")?;
    lines.directory(b"a/b")?;
    lines.file(b"a/b/f", b"1")?;
    lines.directory(b"a/c")?;
    lines.file(b"a/c/g", b"22")?;
    lines.directory(b"a/c/none")?;
    lines.file(b"a/d", b"333")?;
    lines.directory(b"e")?;
    lines.file(b"e/a", b"4444")?;
    lines.file(b"i", b"55555")?;
    assert_eq!(rt; all.answer, Ok(counts(5, 5, 0)));
    let text = b"directories 5 files 5 skipped 0\n";
    assert_eq!(rt; all.text.as_slice(), text.as_slice());
    assert!(rt; replayed(rt.alloc(), all.whole.as_slice())?.as_slice() == lines.as_slice());
    Ok(())
}

// A path with one more name, which is a letter so many times.
fn with_name(alloc: Global, path: &[u8], letter: u8, len: usize) -> Result<Vec<u8>, AllocError> {
    let mut longer = Vec::new(alloc);
    longer.extend_from_slice(path)?;
    if !path.is_empty() {
        longer.push(b'/')?;
    }
    for _ in 0..len {
        longer.push(letter)?;
    }
    Ok(longer)
}

// Fifteen directories of 255 letters each, and one of 100: 3940 bytes.
const OUTER: u64 = 15;

const INNER: u64 = TOP + OUTER + 1;

fn with_outer(alloc: Global) -> Result<Scene, Fail> {
    let mut scene = Scene::new(alloc)?;
    for n in 0..OUTER {
        scene.directory(TOP + n, &[b'o'; 255], TOP + n + 1)?;
    }
    scene.directory(TOP + OUTER, &[b'm'; 100], INNER)?;
    Ok(scene)
}

// Files and directories in the innermost of them, whose paths have 4094, 4095 and 4096 bytes.
fn with_long(alloc: Global) -> Result<Scene, Fail> {
    let mut scene = with_outer(alloc)?;
    scene.inline(INNER, &[b'x'; 153], 280, b"1")?;
    scene.inline(INNER, &[b'x'; 154], 281, b"22")?;
    scene.inline(INNER, &[b'x'; 155], 282, b"333")?;
    scene.directory(INNER, &[b'y'; 154], 283)?;
    scene.inline(283, b"z", 284, b"4444")?;
    scene.directory(INNER, &[b'y'; 155], 285)?;
    scene.inline(285, b"z", 286, b"55555")?;
    Ok(scene)
}

// The line of a path that is too long.
fn skip(path: &[u8], text: &mut Vec<u8>) -> Result<(), AllocError> {
    text.extend_from_slice(b"skip path /")?;
    text.extend_from_slice(path)?;
    text.extend_from_slice(b"\n")
}

#[test]
fn long_paths(rt: HostRuntime) -> Result<(), Fail> {
    let alloc = rt.alloc();
    let all = sent(&rt, with_long(alloc)?)?;
    let mut lines = subvolume(alloc)?;
    let mut text = Vec::new(alloc);
    let mut path = Vec::new(alloc);
    for _ in 0..OUTER {
        path = with_name(alloc, path.as_slice(), b'o', 255)?;
        lines.directory(path.as_slice())?;
    }
    let path = with_name(alloc, path.as_slice(), b'm', 100)?;
    assert_eq!(rt; path.len(), 3940);
    lines.directory(path.as_slice())?;
    lines.file(
        with_name(alloc, path.as_slice(), b'x', 153)?.as_slice(),
        b"1",
    )?;
    lines.file(
        with_name(alloc, path.as_slice(), b'x', 154)?.as_slice(),
        b"22",
    )?;
    skip(
        with_name(alloc, path.as_slice(), b'x', 155)?.as_slice(),
        &mut text,
    )?;
    let longest = with_name(alloc, path.as_slice(), b'y', 154)?;
    lines.directory(longest.as_slice())?;
    skip(
        with_name(alloc, longest.as_slice(), b'z', 1)?.as_slice(),
        &mut text,
    )?;
    skip(
        with_name(alloc, path.as_slice(), b'y', 155)?.as_slice(),
        &mut text,
    )?;
    text.extend_from_slice(b"directories 17 files 2 skipped 3\n")?;
    assert_eq!(rt; all.answer, Ok(counts(17, 2, 3)));
    assert!(rt; all.text.as_slice() == text.as_slice());
    assert!(rt; replayed(alloc, all.whole.as_slice())?.as_slice() == lines.as_slice());
    Ok(())
}

// Directories one in another, the deepest of which has a file.
fn deep(alloc: Global, depth: u64) -> Result<Scene, Fail> {
    let mut scene = Scene::new(alloc)?;
    for n in 0..depth {
        let dir = TOP.saturating_add(n);
        scene.directory(dir, b"d", dir.saturating_add(1))?;
    }
    scene.inline(TOP.saturating_add(depth), b"f", 2000, b"bottom")?;
    Ok(scene)
}

// The lines of 512 directories one in another; answers the path of the last.
fn deepest(alloc: Global, lines: &mut Lines) -> Result<Vec<u8>, AllocError> {
    let mut path = Vec::new(alloc);
    for _ in 0..512 {
        path = with_name(alloc, path.as_slice(), b'd', 1)?;
        lines.directory(path.as_slice())?;
    }
    Ok(path)
}

#[test]
fn as_deep_as_may_be(rt: HostRuntime) -> Result<(), Fail> {
    let alloc = rt.alloc();
    let all = sent(&rt, deep(alloc, 512)?)?;
    let mut lines = subvolume(alloc)?;
    let path = deepest(alloc, &mut lines)?;
    lines.file(
        with_name(alloc, path.as_slice(), b'f', 1)?.as_slice(),
        b"bottom",
    )?;
    assert_eq!(rt; all.answer, Ok(counts(512, 1, 0)));
    assert!(rt; replayed(alloc, all.whole.as_slice())?.as_slice() == lines.as_slice());
    Ok(())
}

#[test]
fn one_deeper(rt: HostRuntime) -> Result<(), Fail> {
    let alloc = rt.alloc();
    let all = sent(&rt, deep(alloc, 513)?)?;
    let mut lines = subvolume(alloc)?;
    let path = deepest(alloc, &mut lines)?;
    let mut text = Vec::new(alloc);
    text.extend_from_slice(b"skip depth /")?;
    text.extend_from_slice(path.as_slice())?;
    text.extend_from_slice(b"/d\ndirectories 512 files 0 skipped 1\n")?;
    assert_eq!(rt; all.answer, Ok(counts(512, 0, 1)));
    assert!(rt; all.text.as_slice() == text.as_slice());
    assert!(rt; replayed(alloc, all.whole.as_slice())?.as_slice() == lines.as_slice());
    Ok(())
}
