ghost use Rattle.std.specs.Prelude.{◌≡◌, ◌+◌, ◌≤◌, length};
ghost use Rattle.btr_base.specs.Key as spec;

use btr_base::Key;

// The key in the 17 bytes from `at`.
pub(crate) fn key_at(body: &[u8], at: usize) -> Key
    requires { at + 17 ≤ length body.now }
    ensures { result ≡ spec.key_at at body.now }
{
    Key::read(&body[at..])
}
