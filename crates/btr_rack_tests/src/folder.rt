// The folder for temporary files.
use std::alloc::{AllocError, Global};
use std::test::Fail;
use std::{env, io, process};

// Goes to the folder.
fn enter(rt: &HostRuntime) -> io::Result<()> {
    let folder = env::temp_dir(rt)?;
    env::set_current_dir(rt, folder.as_path())
}

// A name that no other process takes.
fn name_of(alloc: Global, name: &str, id: u32) -> Result<String, AllocError> {
    format!(in alloc; "btr_rack-{name}-{id}")
}

/// Goes to the folder, and gives a name for a file or a folder there.
pub(crate) fn temporary(rt: &HostRuntime, name: &str) -> Result<String, Fail> {
    enter(rt)?;
    Ok(name_of(rt.alloc(), name, process::id(rt.process()))?)
}
