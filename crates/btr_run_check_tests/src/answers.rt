// What `run` tells.
use btr_rack::MemRack;
use btr_test_calls::{CallFault, call};
use std::alloc::Global;
use std::process::Abort;

/// Asserts that `run` puts this text for these words, and ends with this exit status.
pub(crate) fn answers(
    rt: &impl Abort,
    alloc: Global,
    rack: &mut MemRack,
    all: &[&str],
    text: &[u8],
    code: u8,
) -> Result<(), CallFault> {
    let told = call(alloc, rack, all)?;
    assert_eq!(rt; told.text.as_slice(), text);
    assert_eq!(rt; told.code, code);
    Ok(())
}
