// Names that a destination can have.
ghost use Rattle.std.specs.Prelude.{◌≡◌, true, false, IfNone, IfSome};
ghost use Rattle.btr_rack.specs.Name.{is_bad, is_reserved, is_split};

use std::str::from_utf8;

fn is_reserved(name: &[u8]) -> bool
    ensures { result ≡ is_reserved name.now }
{
    name.is_empty() || name == b".".as_slice() || name == b"..".as_slice()
}

fn is_split(name: &[u8]) -> bool
    ensures { result ≡ is_split name.now }
{
    name.iter().any(|b| *b == b'/' || *b == 0)
}

/// A name as text; `None` exactly where no destination has it: it isn't UTF-8, is empty, `.` or `..`, or holds `/` or a zero byte.
pub fn good_name(name: &[u8]) -> Option<&str>
    ensures bad { IfNone result (is_bad name.now ≡ true) }
    ensures good { IfSome result (λ text. is_bad name.now ≡ false) }
    ensures same { IfSome result (λ text. text.now ≡ name.now) }
{
    if is_reserved(name) || is_split(name) {
        return None;
    }
    match from_utf8(name) {
        Ok(text) => Some(text),
        Err(_) => None,
    }
}
