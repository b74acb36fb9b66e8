// The checksum of a superblock or a tree block.
ghost use Rattle.std.specs.Prelude.{◌≡◌, ◌≤◌, length};
ghost use Rattle.btr_base.specs.Sum.{is_summed};

use crate::checksum::sum;
use crate::{Sum, SumKind};

/// Whether the checksum that stands at the beginning of a superblock or a tree block is that of its bytes
/// from 32 on. Bytes of the 32 that the checksum doesn't fill aren't looked at.
pub fn is_summed(kind: SumKind, bytes: &[u8]) -> bool
    requires { 32 ≤ length bytes.now }
    ensures { result ≡ is_summed kind bytes.now }
{
    Sum::read(kind, bytes).bytes == sum(kind, &bytes[32..]).bytes
}
