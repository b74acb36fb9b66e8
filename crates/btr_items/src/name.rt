ghost use Rattle.std.specs.Prelude.{◌≡◌};
ghost use Rattle.btr_base.specs.Field.{bytes_at};
ghost use Rattle.btr_items.specs.Form.{is_name, HasName};

// Names have 1 to 255 bytes.
pub(crate) fn is_name_length(len: usize) -> bool
    ensures { result ≡ is_name len }
{
    (1..=255).contains(&len)
}

// The bytes of a name.
pub(crate) fn name_at(body: &[u8], at: usize, len: usize) -> &[u8]
    requires { HasName body.now at len }
    ensures { result.now ≡ bytes_at len at body.now }
{
    &body[at..at + len]
}
