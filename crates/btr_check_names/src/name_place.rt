// The names of many entries in one buffer.
ghost use Rattle.std.specs.Prelude.{◌≡◌, ◌++◌, length, OnOk, OnErr, IfOk};
ghost use Rattle.btr_base.specs.Field.{bytes_at};
ghost use Rattle.btr_check_names.specs.Packed.{HasNameAt};

use btr_base::Memory;

/// Where a name lies in a buffer of names.
#[derive(Clone, Copy)]
pub(crate) struct NamePlace {
    pub(crate) at: usize,
    pub(crate) len: usize,
}

impl NamePlace {
    /// The name at this place of a buffer.
    pub(crate) fn name(self, names: &[u8]) -> &[u8]
        requires { HasNameAt names.now self }
        ensures { result.now ≡ bytes_at self.len self.at names.now }
    {
        &names[self.at..self.at + self.len]
    }
}

/// Puts a name behind those of a buffer. `Memory`: the buffer is as it was.
pub(crate) fn push_name(names: &mut Vec<u8>, name: &[u8]) -> Result<NamePlace, Memory>
    ensures ok { OnOk result (names.new.items ≡ names.old.items ++ name.now) }
    ensures at { IfOk result (λ place. place.at ≡ length names.old.items) }
    ensures len { IfOk result (λ place. place.len ≡ length name.now) }
    ensures err { OnErr result (names.new.items ≡ names.old.items) }
{
    let at = names.len();
    match names.extend_from_slice(name) {
        Ok(()) => Ok(NamePlace {
            at,
            len: name.len(),
        }),
        Err(_) => Err(Memory),
    }
}
