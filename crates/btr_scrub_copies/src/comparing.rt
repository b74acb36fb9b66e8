// Long runs of bytes, compared.
ghost use Rattle.std.specs.Prelude.{◌≡◌};
ghost use Rattle.std.specs.Str.{bytes_eq};

/// Whether some bytes are the same as others. It doesn't stop at the first that differ, so that many are compared at once.
pub fn same_bytes(some: &[u8], others: &[u8]) -> bool
    ensures { result ≡ bytes_eq some.now others.now }
{
    if some.len() != others.len() {
        return false;
    }
    let mut same = true;
    for i in 0..some.len() {
        same &= some[i] == others[i];
    }
    same
}
