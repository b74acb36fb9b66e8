// The sink that is a real folder.
ghost use Rattle.std.specs.Prelude.{◌≡◌, ◌+◌, ◌<◌, ◌≤◌, OnOk};
ghost use Rattle.btr_rack.specs.Name.{IsGoodName};
ghost use Rattle.btr_rack.specs.Sink.{BetweenFiles};

use crate::folder::temporary;
use btr_rack::{FolderTree, SinkError, TreeSink};
use std::alloc::{AllocError, Global};
use std::os::unix::fs::{PermissionsExt, symlink};
use std::test::Fail;
use std::{env, fs, io};

const LONGEST_NAME: &str =
    "0123456789012345678901234567890123456789012345678901234567890123456789012345678901234567890123456789012345678901234567890123456789012345678901234567890123456789012345678901234567890123456789012345678901234567890123456789012345678901234567890123456789abcde";

// Leaves the destination, and removes it with all that is in it.
fn remove(rt: &HostRuntime, out: &str) -> io::Result<()> {
    env::set_current_dir(rt, "..")?;
    fs::remove_dir_all(rt, out)
}

fn len_of(rt: &HostRuntime, name: &str) -> io::Result<u64> {
    Ok(fs::metadata(rt, name)?.len())
}

// Makes a file with a gap.
fn make_sparse<T: TreeSink>(tree: &mut T) -> Result<(), SinkError>
    requires { (T.sink tree.old).stage ≡ BetweenFiles }
    ensures { OnOk result ((T.sink tree.new).stage ≡ BetweenFiles) }
{
    tree.file("f")?;
    tree.put(b"ab")?;
    tree.gap(1 << 40)?;
    tree.put(b"c")?;
    tree.done()
}

#[test]
fn a_file_is_sparse(rt: HostRuntime) -> Result<(), Fail> {
    let out = temporary(&rt, "sparse")?;
    fs::create_dir(&rt, out.as_str())?;
    let mut tree = FolderTree::new(&rt, rt.alloc());
    tree.start(out.as_str())?;
    make_sparse(&mut tree)?;
    assert_eq!(rt; len_of(&rt, "f")?, (1 << 40) + 3);
    assert_eq!(rt; tree.file("f"), Err(SinkError::Failed));
    remove(&rt, out.as_str())?;
    Ok(())
}

// Makes a file of three runs of bytes and a gap.
fn make_large<T: TreeSink>(tree: &mut T) -> Result<(), SinkError>
    requires { (T.sink tree.old).stage ≡ BetweenFiles }
{
    tree.file("f")?;
    tree.put(&[b'a'; 40000])?;
    tree.put(&[b'b'; 40000])?;
    tree.put(&[b'c'; 70000])?;
    tree.gap(3)?;
    tree.done()
}

// The byte at a place of that file.
fn byte_at(place: usize) -> u8 {
    match place {
        0..40000 => b'a',
        40000..80000 => b'b',
        80000..150000 => b'c',
        _ => 0,
    }
}

#[test]
fn bytes_pass_the_buffer_in_order(rt: HostRuntime) -> Result<(), Fail> {
    let out = temporary(&rt, "large")?;
    let mut tree = FolderTree::new(&rt, rt.alloc());
    tree.start(out.as_str())?;
    make_large(&mut tree)?;
    let bytes = fs::read(&rt, "f")?;
    assert_eq!(rt; bytes.len(), 150003);
    for (i, byte) in bytes.iter().enumerate() {
        assert_eq!(rt; *byte, byte_at(i), "byte {i}");
    }
    remove(&rt, out.as_str())?;
    Ok(())
}

fn with_slash(alloc: Global, name: &str) -> Result<String, AllocError> {
    let mut text = String::from_str(alloc, name)?;
    text.push('/')?;
    Ok(text)
}

#[test]
fn a_link_is_no_destination(rt: HostRuntime) -> Result<(), Fail> {
    let link = temporary(&rt, "link")?;
    symlink(&rt, "/", link.as_str())?;
    let slash = with_slash(rt.alloc(), link.as_str())?;
    let mut tree = FolderTree::new(&rt, rt.alloc());
    assert_eq!(rt; tree.start(link.as_str()), Err(SinkError::Failed));
    assert_eq!(rt; tree.start(slash.as_str()), Err(SinkError::Failed));
    fs::remove_file(&rt, link.as_str())?;
    Ok(())
}

// Makes and leaves a folder whose name has a line's end.
fn make_lines<T: TreeSink>(tree: &mut T) -> Result<(), SinkError>
    requires between { (T.sink tree.old).stage ≡ BetweenFiles }
    requires above { (T.sink tree.old).depth < 512 }
    ensures between { OnOk result ((T.sink tree.new).stage ≡ BetweenFiles) }
    ensures depth { OnOk result ((T.sink tree.new).depth ≡ (T.sink tree.old).depth) }
{
    tree.dir("lines\nand spaces")?;
    tree.up()
}

fn is_folder(rt: &HostRuntime, name: &str) -> io::Result<bool> {
    Ok(fs::metadata(rt, name)?.is_dir())
}

#[test]
fn links_are_faults(rt: HostRuntime) -> Result<(), Fail> {
    let out = temporary(&rt, "names")?;
    let mut tree = FolderTree::new(&rt, rt.alloc());
    tree.start(out.as_str())?;
    symlink(&rt, "/", "link")?;
    make_lines(&mut tree)?;
    assert!(rt; is_folder(&rt, "lines\nand spaces")?);
    assert_eq!(rt; tree.dir("link"), Err(SinkError::Failed));
    assert_eq!(rt; tree.file("link"), Err(SinkError::Failed));
    remove(&rt, out.as_str())?;
    Ok(())
}

// Makes folders in one another.
fn go_down<T: TreeSink>(tree: &mut T, name: &str, levels: u64) -> Result<(), SinkError>
    requires between { (T.sink tree.old).stage ≡ BetweenFiles }
    requires good { IsGoodName name.now }
    requires room { (T.sink tree.old).depth + levels ≤ 512 }
    ensures { OnOk result ((T.sink tree.new).stage ≡ BetweenFiles) }
{
    for _level in 0..levels {
        tree.dir(name)?;
    }
    Ok(())
}

fn make_deep<T: TreeSink>(tree: &mut T) -> Result<(), SinkError>
    requires between { (T.sink tree.old).stage ≡ BetweenFiles }
    requires top { (T.sink tree.old).depth ≡ 0 }
{
    go_down(tree, LONGEST_NAME, 512)?;
    tree.file(LONGEST_NAME)?;
    tree.put(b"deep")?;
    tree.done()
}

// Leaves folders, and removes them.
fn go_up(rt: &HostRuntime, name: &str, levels: u64) -> io::Result<()> {
    for _ in 0..levels {
        env::set_current_dir(rt, "..")?;
        fs::remove_dir(rt, name)?;
    }
    Ok(())
}

#[test]
fn folders_of_depth_512_are_entered(rt: HostRuntime) -> Result<(), Fail> {
    let out = temporary(&rt, "deep")?;
    let mut tree = FolderTree::new(&rt, rt.alloc());
    tree.start(out.as_str())?;
    make_deep(&mut tree)?;
    let text = fs::read_to_string(&rt, LONGEST_NAME)?;
    assert_eq!(rt; text.as_str(), "deep");
    fs::remove_file(&rt, LONGEST_NAME)?;
    go_up(&rt, LONGEST_NAME, 512)?;
    go_up(&rt, out.as_str(), 1)?;
    Ok(())
}

// Makes a file of one byte.
fn make_small<T: TreeSink>(tree: &mut T, name: &str) -> Result<(), SinkError>
    requires between { (T.sink tree.old).stage ≡ BetweenFiles }
    requires good { IsGoodName name.now }
    ensures between { OnOk result ((T.sink tree.new).stage ≡ BetweenFiles) }
    ensures depth { OnOk result ((T.sink tree.new).depth ≡ (T.sink tree.old).depth) }
{
    tree.file(name)?;
    tree.put(b"x")?;
    tree.done()
}

// Makes a folder with a file in it, and stays there.
fn make_level<T: TreeSink>(tree: &mut T, name: &str, file: &str) -> Result<(), SinkError>
    requires between { (T.sink tree.old).stage ≡ BetweenFiles }
    requires above { (T.sink tree.old).depth < 512 }
    requires good { IsGoodName name.now }
    requires good_file { IsGoodName file.now }
    ensures between { OnOk result ((T.sink tree.new).stage ≡ BetweenFiles) }
    ensures depth { OnOk result ((T.sink tree.new).depth ≡ (T.sink tree.old).depth + 1) }
{
    tree.dir(name)?;
    make_small(tree, file)
}

// Leaves a folder, and makes a file in the one above it.
fn leave_level<T: TreeSink>(tree: &mut T, file: &str) -> Result<(), SinkError>
    requires between { (T.sink tree.old).stage ≡ BetweenFiles }
    requires below { 0 < (T.sink tree.old).depth }
    requires good_file { IsGoodName file.now }
    ensures between { OnOk result ((T.sink tree.new).stage ≡ BetweenFiles) }
    ensures depth { OnOk result ((T.sink tree.new).depth + 1 ≡ (T.sink tree.old).depth) }
{
    tree.up()?;
    make_small(tree, file)
}

fn make_levels<T: TreeSink>(tree: &mut T) -> Result<(), SinkError>
    requires between { (T.sink tree.old).stage ≡ BetweenFiles }
    requires top { (T.sink tree.old).depth ≡ 0 }
{
    make_level(tree, "a", "1")?;
    make_level(tree, "b", "2")?;
    make_level(tree, "c", "3")?;
    leave_level(tree, "4")?;
    leave_level(tree, "5")?;
    leave_level(tree, "6")
}

#[test]
fn folders_are_left_to_those_above(rt: HostRuntime) -> Result<(), Fail> {
    let out = temporary(&rt, "levels")?;
    let mut tree = FolderTree::new(&rt, rt.alloc());
    tree.start(out.as_str())?;
    make_levels(&mut tree)?;
    for file in ["a/1", "a/b/2", "a/b/c/3", "a/b/4", "a/5", "6"] {
        assert_eq!(rt; len_of(&rt, file)?, 1, "{file}");
    }
    remove(&rt, out.as_str())?;
    Ok(())
}

fn mode_of(rt: &HostRuntime, name: &str) -> io::Result<u32> {
    Ok(fs::metadata(rt, name)?.permissions().mode() & 0o777)
}

#[test]
fn what_is_made_is_private(rt: HostRuntime) -> Result<(), Fail> {
    let out = temporary(&rt, "private")?;
    let mut tree = FolderTree::new(&rt, rt.alloc());
    tree.start(out.as_str())?;
    make_levels(&mut tree)?;
    for (name, mode) in [(".", 0o700), ("a", 0o700), ("a/b/c", 0o700), ("6", 0o600)] {
        assert_eq!(rt; mode_of(&rt, name)?, mode, "{name}");
    }
    remove(&rt, out.as_str())?;
    Ok(())
}

// Begins a file, and stores what waits of it.
fn make_unfinished<T: TreeSink>(tree: &mut T) -> Result<(), SinkError>
    requires { (T.sink tree.old).stage ≡ BetweenFiles }
{
    tree.file("f")?;
    tree.put(b"abc")?;
    tree.gap(5)?;
    tree.flush()
}

#[test]
fn what_waits_is_stored(rt: HostRuntime) -> Result<(), Fail> {
    let out = temporary(&rt, "unfinished")?;
    let mut tree = FolderTree::new(&rt, rt.alloc());
    tree.start(out.as_str())?;
    make_unfinished(&mut tree)?;
    assert!(rt; fs::read(&rt, "f")?.as_slice() == b"abc\0\0\0\0\0".as_slice());
    remove(&rt, out.as_str())?;
    Ok(())
}
