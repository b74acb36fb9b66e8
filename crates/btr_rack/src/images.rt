// The images of a rack in memory: the open ones in the order of their opening, and then the shelf.
ghost use Rattle.std.specs.Prelude.{◌≡◌, ◌+◌, ◌<◌, ◌≤◌, length, slice_index_or, replicate};
ghost use Rattle.std.specs.List.{list_any, position};
ghost use Rattle.btr_rack.specs.Image.{MemoryImage, is_named};
ghost use Rattle.btr_rack.specs.Images.{shelf_place, Moves, WritesImage, TearsImage, CutsImage};

use crate::image::Image;
use btr_base::Memory;

pub(crate) fn contains(images: &[Image], name: &str) -> bool
    ensures { result ≡ list_any (is_named name.now) images.now }
{
    images.iter().any(|image| image.is_named(name))
}

/// The place of the first image of a name.
pub(crate) fn position_of(images: &[Image], name: &str) -> Option<usize>
    ensures { result ≡ position (is_named name.now) images.now }
{
    images.iter().position(|image| image.is_named(name))
}

/// The place on the shelf of the image of a name that is not open.
pub(crate) fn place_on_shelf(images: &[Image], opened: usize, name: &str) -> Option<usize>
    requires { opened ≤ length images.now }
    ensures { result ≡ shelf_place opened name.now images.now }
{
    let (open, shelf) = images.split_at(opened);
    if contains(open, name) {
        None
    } else {
        position_of(shelf, name)
    }
}

/// Moves an image of the shelf behind the open ones.
pub(crate) fn open_image(images: &mut Vec<Image>, opened: usize, at: usize, write: bool)
    requires { opened + at < length images.old.items }
    ensures { Moves opened at write images.old.items images.new.items }
{
    let mut image = images.remove(opened + at);
    image.open(write);
    match images.insert(opened, image) {
        Ok(()) => {}
        Err(_) => unreachable!(),
    }
}

/// Writes over the bytes of an image from `off` on.
pub(crate) fn write_image(
    images: &mut Vec<Image>,
    at: usize,
    off: u64,
    bytes: &[u8],
) -> Result<(), Memory>
    requires within { at < length images.old.items }
    requires range { (d : MemoryImage) → off + length bytes.now ≤ (slice_index_or images.old.items at d).slot.len }
    ensures { WritesImage at off bytes.now images.old.items images.new.items result }
{
    images[at].write(off, bytes)
}

/// Writes a byte over `len` bytes of an image from `off` on.
fn fill_image(
    images: &mut Vec<Image>,
    at: usize,
    off: u64,
    len: usize,
    byte: u8,
) -> Result<(), Memory>
    requires within { at < length images.old.items }
    requires range { (d : MemoryImage) → off + len ≤ (slice_index_or images.old.items at d).slot.len }
    ensures { WritesImage at off (replicate len byte) images.old.items images.new.items result }
{
    images[at].fill(off, len, byte)
}

/// What is left of a write that is to fail: its range holds the byte, or is as before.
pub(crate) fn tear_image(
    images: &mut Vec<Image>,
    at: usize,
    off: u64,
    len: usize,
    tear: Option<u8>,
) -> Result<(), Memory>
    requires within { at < length images.old.items }
    requires range { (d : MemoryImage) → off + len ≤ (slice_index_or images.old.items at d).slot.len }
    ensures { TearsImage tear at off len images.old.items images.new.items result }
{
    match tear {
        Some(byte) => fill_image(images, at, off, len, byte),
        None => Ok(()),
    }
}

/// Shortens an image, or says that it is shorter.
pub(crate) fn cut_image(images: &mut Vec<Image>, at: usize, len: u64) -> bool
    requires within { at < length images.old.items }
    ensures { CutsImage at len images.old.items images.new.items result }
{
    images[at].cut(len)
}
