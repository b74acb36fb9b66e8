// The entries and references that stand in a body one after another, a line each.
ghost use Rattle.std.specs.Prelude.{All, IfOk};
ghost use Rattle.btr_rack.specs.Out.{Counts};
ghost use Rattle.btr_block_text.specs.Read.{WritesTo, of_parts};

use crate::extents::write_link;
use crate::files::{entry_line, ext_ref_line, inode_ref_line};
use btr_items::{Entry, ExtRef, InlineRef, InodeRef, Part, Parts};
use btr_rack::{Out, SinkError};
use btr_text::TextBuffer;

/// What is shown as a line.
pub(crate) trait Line: Part {
    ghost use Rattle.std.specs.Prelude.{ℕ, List};
    ghost use Rattle.btr_rack.specs.Out.{Counts};
    ghost use Rattle.btr_block_text.specs.Read.{WritesTo};

    // The line of what was read from a body.
    ghost line: { List ℕ → Self → List ℕ };

    // Its name, if it has one, lies in the body.
    ghost stands: { List ℕ → Self → Type 0 };

    /// Writes the line. The error is the output's.
    fn write<O: Out>(
        &self,
        body: &[u8],
        text: &mut TextBuffer,
        out: &mut O,
    ) -> Result<(), SinkError>
        requires { stands body.now self.now }
        ensures text { WritesTo O.text out.old out.new text.old text.new (line body.now self.now) result }
        ensures account { Counts (O.account out.old) (O.account out.new) result };
}

impl Line for InodeRef {
    ghost use Rattle.btr_items.specs.Form.{HasName};
    ghost use Rattle.btr_block_text.specs.Files.{inode_ref_line};

    ghost line = { inode_ref_line };

    ghost stands = { λ body found. HasName body found.name_at found.name_len };

    fn write<O: Out>(
        &self,
        body: &[u8],
        text: &mut TextBuffer,
        out: &mut O,
    ) -> Result<(), SinkError> {
        text.push_all(&inode_ref_line(body, self), out)
    }
}

impl Line for ExtRef {
    ghost use Rattle.btr_items.specs.Form.{HasName};
    ghost use Rattle.btr_block_text.specs.Files.{ext_ref_line};

    ghost line = { ext_ref_line };

    ghost stands = { λ body found. HasName body found.name_at found.name_len };

    fn write<O: Out>(
        &self,
        body: &[u8],
        text: &mut TextBuffer,
        out: &mut O,
    ) -> Result<(), SinkError> {
        text.push_all(&ext_ref_line(body, self), out)
    }
}

impl Line for Entry {
    ghost use Rattle.btr_items.specs.Form.{HasName};
    ghost use Rattle.btr_block_text.specs.Files.{entry_line};

    ghost line = { entry_line };

    ghost stands = { λ body entry. HasName body entry.name_at entry.name_len };

    fn write<O: Out>(
        &self,
        body: &[u8],
        text: &mut TextBuffer,
        out: &mut O,
    ) -> Result<(), SinkError> {
        text.push_all(&entry_line(body, self), out)
    }
}

impl Line for InlineRef {
    ghost use Rattle.btr_block_text.specs.Extents.{inline_ref_line};

    ghost line = { inline_ref_line };

    ghost stands = { λ body found. Unit {0} };

    fn write<O: Out>(
        &self,
        _body: &[u8],
        text: &mut TextBuffer,
        out: &mut O,
    ) -> Result<(), SinkError> {
        write_link(self.link, self.count, text, out)
    }
}

/// Writes the lines of parts of a body. The error is the output's.
pub(crate) fn write_parts<P: Line, O: Out>(
    body: &[u8],
    parts: Parts<'_, P>,
    text: &mut TextBuffer,
    out: &mut O,
) -> Result<(), SinkError>
    requires { All (λ read. IfOk read (P.stands body.now)) parts }
    ensures text { WritesTo O.text out.old out.new text.old text.new (of_parts (P.line body.now) parts.entry) result }
    ensures account { Counts (O.account out.old) (O.account out.new) result }
{
    for read in parts {
        match read {
            Ok(part) => part.write(body, text, out)?,
            Err(_) => (),
        }
    }
    Ok(())
}
