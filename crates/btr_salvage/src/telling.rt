// What is told of what is missing, and of how much was salvaged.
ghost use Rattle.std.specs.Prelude.{◌≡◌};
ghost use Rattle.btr_rack.specs.Out.{Puts, Counts as Accounts};
ghost use Rattle.btr_restore.specs.Running.{WroteLines};
ghost use Rattle.btr_restore.specs.Treating.{IsOver};
ghost use Rattle.btr_salvage.specs.Damages.{fault_by};
ghost use Rattle.btr_salvage.specs.Lines.{folder_path, missing_line, salvaged_line};
ghost use Rattle.btr_salvage.specs.Salvaging.{broken, part_missing, summed_up};
ghost use Rattle.btr_salvage.specs.Treating.{came, counted};

use crate::damage::Damage;
use crate::salvaged::Salvaged;
use btr_rack::{Out, SinkError};
use btr_restore::{Treated, more, out_stop};
use btr_text::{Piece, put_pieces};
use btr_volume::Stop;

// Puts that something is missing at a path. The error is the output's.
fn put_missing<O: Out>(
    word: &'static [u8],
    damage: Damage,
    path: &[u8],
    out: &mut O,
) -> Result<(), SinkError>
    ensures text { Puts (O.text out.old) (O.text out.new) (missing_line word.now (fault_by damage) path.now) result }
    ensures account { Accounts (O.account out.old) (O.account out.new) result }
{
    let pieces = [
        Piece::Plain(word),
        Piece::Plain(b" "),
        Piece::Plain(damage.text()),
        Piece::Plain(b" "),
        Piece::Decimal(damage.addr()),
        Piece::Plain(b" "),
        Piece::Name(path),
        Piece::Plain(b"\n"),
    ];
    put_pieces(&pieces, out)
}

// Puts how much was salvaged. The error is the output's.
fn put_salvaged<O: Out>(salvaged: &Salvaged, out: &mut O) -> Result<(), SinkError>
    ensures text { Puts (O.text out.old) (O.text out.new) (salvaged_line salvaged.now) result }
    ensures account { Accounts (O.account out.old) (O.account out.new) result }
{
    let pieces = [
        Piece::Plain(b"directories "),
        Piece::Decimal(salvaged.counts.dirs),
        Piece::Plain(b" files "),
        Piece::Decimal(salvaged.counts.files),
        Piece::Plain(b" skipped "),
        Piece::Decimal(salvaged.counts.skipped),
        Piece::Plain(b" broken "),
        Piece::Decimal(salvaged.broken),
        Piece::Plain(b"\n"),
    ];
    put_pieces(&pieces, out)
}

/// Names an entry that can't be had, and counts it.
pub(crate) fn leave_broken<O: Out>(
    damage: Damage,
    path: &[u8],
    salvaged: &mut Salvaged,
    out: &mut O,
) -> Result<Treated, Stop>
    ensures wrote { WroteLines (broken (fault_by damage) path.now salvaged.old)
        O.text O.account out.old out.new (came salvaged.new result) }
    ensures over { IsOver result }
{
    match put_missing(b"broken", damage, path, out) {
        Ok(()) => {
            salvaged.broken = more(salvaged.broken);
            Ok(Treated::Over)
        }
        Err(error) => Err(out_stop(error)),
    }
}

// The path of a directory: the start directory is `/`.
fn folder_path<'a>(path: &'a [u8]) -> &'a [u8]
    ensures { result.now ≡ folder_path path.now }
{
    if path.is_empty() {
        return b"/";
    }
    path
}

/// Names a directory of which a part can't be had, and counts it.
pub(crate) fn tell_part<O: Out>(
    damage: Damage,
    path: &[u8],
    salvaged: &mut Salvaged,
    out: &mut O,
) -> Result<(), Stop>
    ensures { WroteLines (part_missing (fault_by damage) path.now salvaged.old)
        O.text O.account out.old out.new (counted salvaged.new result) }
{
    match put_missing(b"part", damage, folder_path(path), out) {
        Ok(()) => {
            salvaged.broken = more(salvaged.broken);
            Ok(())
        }
        Err(error) => Err(out_stop(error)),
    }
}

/// Tells how much was salvaged.
pub(crate) fn tell_salvaged<O: Out>(salvaged: &Salvaged, out: &mut O) -> Result<Salvaged, Stop>
    ensures { WroteLines (summed_up salvaged.now) O.text O.account out.old out.new result }
{
    match put_salvaged(salvaged, out) {
        Ok(()) => Ok(*salvaged),
        Err(error) => Err(out_stop(error)),
    }
}
