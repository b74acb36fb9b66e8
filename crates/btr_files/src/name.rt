ghost use Rattle.std.specs.Prelude.{◌≡◌, ◌≤◌, [], length};
ghost use Rattle.btr_files.specs.Entries.{name_in};

/// A place for a name, which has at most 255 bytes.
#[derive(Clone, Copy, Debug)]
pub struct NameBuf {
    /// The name's bytes, and any bytes behind them.
    pub bytes: [u8; 255],
    /// How many bytes the name has.
    pub len: u8,
}

impl NameBuf {
    /// A place with an empty name.
    pub fn new() -> NameBuf
        ensures { name_in result ≡ [] }
    {
        NameBuf {
            bytes: [0; 255],
            len: 0,
        }
    }

    /// The name.
    pub fn as_bytes(&self) -> &[u8]
        ensures { result.now ≡ name_in self.now }
    {
        &self.bytes[..self.len as usize]
    }

    /// Puts another name in the place of the one before.
    pub fn set(&mut self, name: &[u8])
        requires { length name.now ≤ 255 }
        ensures { name_in self.new ≡ name.now }
    {
        self.bytes[..name.len()].copy_from_slice(name);
        self.len = name.len() as u8;
    }
}
