// Images whose bytes are wrong.
ghost use Rattle.std.specs.Prelude.{◌≡◌, ◌+◌, ◌-◌, ◌*◌, ◌<◌, ◌≤◌, ◌^◌, map};
ghost use Rattle.btr_make.specs.Spoil.{Spoils, SpoilsPage, AnswersTurned, AnswersBytes, is_zeros};

use btr_rack::{MemRack, PokeError};

const PAGE_SIZE: u64 = 4096;

// The number of the page at 1048576, and one that no image has.
const FIRST: u64 = 256;

const END: u64 = 1 << 51;

// The numbers of the pages of superblocks that come behind the first.
const SECOND_SUPER: u64 = 16384;

const THIRD_SUPER: u64 = 67108864;

/// Replaces each byte b by 255 - b in each whole page of 4096 bytes of an image, open or not, from 1048576 on, but for pages
/// that are all zeros and those at the places of superblocks. All other bytes stay. Where no page is all FFh, a second
/// call undoes it.
///
/// `NoImage` comes exactly where the name isn't there, and `Memory` for want of it, with the pages behind some page as
/// they were. `Range` doesn't come.
pub fn spoil(rack: &mut MemRack, name: &str) -> Result<(), PokeError>
    ensures { Spoils name.now rack.old rack.new result }
{
    rack.poke(name, 0, &[])?;
    for index in FIRST..END {
        if !spoil_page(rack, name, index)? {
            break;
        }
    }
    Ok(())
}

// Spoils a page, unless it is one that is spared. It is false where the image ends before the page does.
fn spoil_page(rack: &mut MemRack, name: &str, index: u64) -> Result<bool, PokeError>
    requires { (256 ≤ index) × (index < 2 ^ 51) }
    ensures { SpoilsPage name.now index rack.old rack.new result }
{
    let off = index * PAGE_SIZE;
    if rack.byte(name, off + (PAGE_SIZE - 1)).is_none() {
        return Ok(false);
    }
    let Some(page) = turned_page(rack, name, index) else {
        return Ok(true);
    };
    rack.poke(name, off, &page)?;
    Ok(true)
}

// The bytes of a page, turned, or `None` where it is spared. The image has to have the page.
fn turned_page(rack: &MemRack, name: &str, index: u64) -> Option<[u8; 4096]>
    requires { (256 ≤ index) × (index < 2 ^ 51) }
    ensures { AnswersTurned rack.now name.now index result }
{
    if index == SECOND_SUPER || index == THIRD_SUPER {
        return None;
    }
    rack.page(name, index)?;
    let page = bytes_of(rack, name, index * PAGE_SIZE);
    if is_blank(&page) {
        return None;
    }
    Some(turned(&page))
}

fn is_blank(page: &[u8; 4096]) -> bool
    ensures { result ≡ is_zeros page.now }
{
    page.iter().all(|byte| *byte == 0)
}

fn turned(page: &[u8; 4096]) -> [u8; 4096]
    ensures { result ≡ map (λ b. 255 - b) page.now }
{
    let mut turned = [0; 4096];
    for (i, byte) in turned.iter_mut().enumerate() {
        *byte = 255 - page[i];
    }
    turned
}

// The bytes of the page at an offset, which has to lie in the image.
fn bytes_of(rack: &MemRack, name: &str, off: u64) -> [u8; 4096]
    requires { off < 2 ^ 63 }
    ensures { AnswersBytes rack.now name.now off result }
{
    let mut page = [0; 4096];
    for (i, byte) in page.iter_mut().enumerate() {
        *byte = rack.byte(name, off + i as u64).unwrap_or(0);
    }
    page
}
