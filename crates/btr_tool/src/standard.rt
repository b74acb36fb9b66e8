// The standard descriptors.
use std::fs::File;
use std::io;
use std::os::fd::AsRawFd;
use std::rt::Files;

/// Files at those of the descriptors 0 to 2 that were closed: while they are held, no image is opened there.
#[derive(Drop)]
pub(crate) struct Held {
    first: Option<File>,
    second: Option<File>,
    third: Option<File>,
}

/// Holds the descriptors 0 to 2, by the folder that each process has. What is put there then fails.
pub(crate) fn hold<R: Files<File = File>>(rt: &R) -> io::Result<Held> {
    Ok(Held {
        first: lowest(rt)?,
        second: lowest(rt)?,
        third: lowest(rt)?,
    })
}

// A file at the lowest free descriptor, if that is one of 0 to 2.
fn lowest<R: Files<File = File>>(rt: &R) -> io::Result<Option<File>> {
    let file = File::open(rt, "/")?;
    if file.as_raw_fd() > 2 {
        return Ok(None);
    }
    Ok(Some(file))
}
