// Racks over files.
use crate::folder::temporary;
use crate::reading::{four_at, holds_four, opened};
use btr_rack::{FileRack, Rack, RackError};
use std::fs;
use std::process::Abort;
use std::test::Fail;

// A file with ten digits, in the folder for temporary files.
fn ten_digits(rt: &HostRuntime, name: &str) -> Result<String, Fail> {
    let path = temporary(rt, name)?;
    fs::write(rt, path.as_str(), b"0123456789")?;
    Ok(path)
}

#[test]
fn files_are_opened(rt: HostRuntime) -> Result<(), Fail> {
    let path = ten_digits(&rt, "opened")?;
    let mut rack = FileRack::new(&rt, rt.alloc());
    for (name, answer) in [
        (path.as_str(), Ok(0)),
        (path.as_str(), Ok(1)),
        ("/", Err(RackError::Failed)),
        ("/dev/null", Err(RackError::Failed)),
        ("", Err(RackError::Failed)),
        ("no such file", Err(RackError::Failed)),
    ] {
        assert_eq!(rt; opened(&mut rack, name, false), answer, "{name}");
    }
    assert!(rt; holds_four(&rt, &rack, 1, 6) && !holds_four(&rt, &rack, 1, 7));
    assert_eq!(rt; four_at(&rt, &mut rack, 1, 6), Ok(*b"6789"));
    fs::remove_file(&rt, path.as_str())?;
    Ok(())
}

// Writes into a file of ten bytes.
fn write_digits<R: Rack>(rt: &impl Abort, rack: &mut R, path: &str) -> Result<(), RackError> {
    let slot = rack.open(path, true)?;
    let len = rack.len(slot);
    assert_eq!(rt; len, 10);
    rack.write_at(slot, 3, b"abcd")?;
    rack.sync(slot)
}

#[test]
fn files_are_written(rt: HostRuntime) -> Result<(), Fail> {
    let path = ten_digits(&rt, "written")?;
    let mut rack = FileRack::new(&rt, rt.alloc());
    assert_eq!(rt; write_digits(&rt, &mut rack, path.as_str()), Ok(()));
    let text = fs::read_to_string(&rt, path.as_str())?;
    assert_eq!(rt; text.as_str(), "012abcd789");
    fs::remove_file(&rt, path.as_str())?;
    Ok(())
}
