// The rows of a destination, as text.
use btr_rack::{MemTree, Row};
use std::alloc::{AllocError, Global};

/// The rows, a line each.
pub(crate) fn shown(alloc: Global, tree: &MemTree) -> Result<Vec<u8>, AllocError> {
    let mut shown = Vec::new(alloc);
    for row in tree.rows() {
        push_row(&mut shown, row)?;
        shown.push(b'\n')?;
    }
    Ok(shown)
}

// A row: the name, or `..` behind a directory, and behind a file's name a space and its bytes.
fn push_row(shown: &mut Vec<u8>, row: &Row) -> Result<(), AllocError> {
    match row {
        Row::Start(name) => push_name(shown, name.as_str()),
        Row::Dir(name) => push_name(shown, name.as_str()),
        Row::Up => push_name(shown, ".."),
        Row::File(name, bytes) => {
            push_name(shown, name.as_str())?;
            push_name(shown, " ")?;
            Ok(shown.extend_from_slice(bytes.as_slice())?)
        }
    }
}

fn push_name(shown: &mut Vec<u8>, name: &str) -> Result<(), AllocError> {
    Ok(shown.extend_from_slice(name.as_bytes())?)
}
