// The names and bytes of made directories and files.
ghost use Rattle.std.specs.Prelude.{◌≡◌, ◌<◌, ◌≤◌};
ghost use Rattle.std.specs.Str.{bytes_eq};
ghost use Rattle.btr_trial.specs.Stated.{digit, directory_name, pattern};

// The last decimal digit of a number.
fn digit(n: u64) -> u8
    ensures { result ≡ digit n }
{
    b'0' + (n % 10) as u8
}

/// Whether this is the name of a directory: `d` and its number in four digits.
pub(crate) fn is_directory_name(name: &str, i: u64) -> bool
    ensures { result ≡ bytes_eq name.now (directory_name i) }
{
    let wanted = [
        b'd',
        digit(i / 1000),
        digit(i / 100),
        digit(i / 10),
        digit(i),
    ];
    name.as_bytes() == wanted.as_slice()
}

/// Whether these are so many bytes that count up to 250 and begin anew at 0, the first being that of a number.
pub(crate) fn is_pattern(bytes: &[u8], first: u64, len: u64) -> bool
    requires { first < 8000 }
    ensures { result ≡ bytes_eq bytes.now (pattern first len) }
{
    if bytes.len() as u64 != len {
        return false;
    }
    for (p, byte) in bytes.iter().enumerate() {
        if u64::from(*byte) != (first + p as u64) % 251 {
            return false;
        }
    }
    true
}
