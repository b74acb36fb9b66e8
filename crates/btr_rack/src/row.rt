use crate::bytes::Bytes;
use crate::text::Text;

/// A step of a sink that was finished: the start in the destination, a folder that was entered, one that was
/// left, or a file with its bytes.
#[derive(Drop)]
pub enum Row {
    Start(Text),
    Dir(Text),
    Up,
    File(Text, Bytes),
}
