use crate::bytes::Bytes;
use crate::text::Text;

/// A file that isn't finished.
#[derive(Drop)]
pub struct Part {
    pub name: Text,
    pub bytes: Bytes,
}
