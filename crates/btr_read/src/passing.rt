ghost use Rattle.std.specs.Prelude.{◌≡◌, length};
ghost use Rattle.btr_read.specs.Want.{len_of, passes};

use crate::{Store, Want};
use btr_base::SumRoom;

/// Whether a reading passes for a want: the checksum and, for a tree block, what its header says. `Plain` always
/// passes. The bytes are as many as the want has.
pub fn passes(want: &Want, store: &Store, bytes: &[u8]) -> bool
    requires { length bytes.now ≡ len_of store.now.layout.setting want.now }
    ensures { result ≡ passes store.now.layout.setting want.now bytes.now }
{
    store.setting.passes(want, bytes)
}

/// The same, where the checksum of a sector is computed in room that the caller keeps.
pub fn passes_in(room: &mut SumRoom, want: &Want, store: &Store, bytes: &[u8]) -> bool
    requires { length bytes.now ≡ len_of store.now.layout.setting want.now }
    ensures { result ≡ passes store.now.layout.setting want.now bytes.now }
{
    store.setting.passes_in(room, want, bytes)
}
