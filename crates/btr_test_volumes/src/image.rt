use anyhow::{Context, Result};
use btr_rack::{MemRack, Rack};
use std::fs::File;
use std::os::unix::fs::FileExt;

const PAGE: u64 = 4096;

const NAMES: [&str; 5] = ["a", "b", "c", "d", "e"];

/// Writes each image that stands on the shelf of a rack into a folder, as a file of its name; pages that aren't kept are holes.
/// The error is that of the first file that couldn't be made or written.
pub fn write_images(rt: &HostRuntime, rack: &mut MemRack, folder: &str) -> Result<()> {
    for name in NAMES {
        if let Ok(slot) = rack.open(name, false) {
            let path = format!(in rt.alloc(); "{folder}/{name}")?;
            let file = File::create(rt, path.as_str()).context("making a file")?;
            let len = if slot < rack.count() {
                rack.len(slot)
            } else {
                0
            };
            write_image(&file, rack, name, len)?;
        }
    }
    Ok(())
}

// Writes the pages of an image that are kept. The others are holes.
fn write_image(file: &File, rack: &MemRack, name: &str, len: u64) -> Result<()> {
    file.set_len(len)
        .context("making a file as long as its image")?;
    for index in 0..len / PAGE {
        if let Some(page) = rack.page(name, index) {
            file.write_all_at(page, index.wrapping_mul(PAGE))
                .context("writing a page")?;
        }
    }
    Ok(())
}
