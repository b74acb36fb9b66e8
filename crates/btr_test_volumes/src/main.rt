//! `btr_test_volumes NAME FOLDER` writes the images of a volume of `btr_make` into a folder, as sparse files, so that other
//! programs can read them. NAME is that of a small volume, as `V1d`, or the number of directories of a made one, from 1
//! to 1000. The folder has to be there, and a file of an image's name in it is written over.
#![tactic(auto)]

mod image;
mod names;
#[cfg(test)]
mod tests;

use anyhow::{Context, Result, bail};
use btr_base::Memory;
use btr_make::{make, row};
use btr_rack::MemRack;
use image::write_images;
use names::row_of;
use std::alloc::Global;
use std::env;

fn main(rt: HostRuntime) -> Result<()> {
    let words: Vec<String> = env::args(&rt)?.collect(rt.alloc())?;
    let [_, name, folder] = words.as_slice() else {
        bail!("usage: btr_test_volumes NAME FOLDER");
    };
    let mut rack = volume(rt.alloc(), name.as_str())?;
    write_images(&rt, &mut rack, folder.as_str())
}

// The volume of a name or a number.
fn volume(alloc: Global, name: &str) -> Result<MemRack> {
    let made = match row_of(name) {
        Some(which) => row(alloc, which),
        None => {
            let number = name.parse::<u64>().context("no volume has this name")?;
            if number < 1 || number > 1000 {
                bail!("a made volume has from 1 to 1000 directories");
            }
            make(alloc, number)
        }
    };
    match made {
        Ok(rack) => Ok(rack),
        Err(Memory) => bail!("no memory"),
    }
}
