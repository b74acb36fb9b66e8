// The sectors of a parity that differ from those of the new data.
ghost use Rattle.std.specs.Prelude.{◌≡◌, ◌+◌, ◌<◌, ◌≤◌, length, if◌then◌else◌};
ghost use Rattle.btr_read.specs.Gathering.{part_of};
ghost use Rattle.btr_read.specs.Layout.{Layout};
ghost use Rattle.btr_scrub_row.specs.Rows.{parity_writes};
ghost use Rattle.btr_scrub_row.specs.Memory.{HasParity, IsStripe};
ghost use Rattle.btr_scrub_row.specs.Preparing.{IsAllPrepared, WherePrepared, WritesPrepared};
ghost use Rattle.btr_scrub_row.specs.Writing.{CanWrite, column_writes, is_wrong};

use crate::buffer::ELEMENT;
use crate::gathering::same_pieces;
use crate::parity::element_of;
use crate::prepared_row::{PreparedRow, sums_of};
use crate::stripe::place_of_part;
use crate::writing::write_range;
use btr_rack::Rack;
use btr_read::{Parity, Store};
use btr_scrub_copies::MendFault;

// How many bytes a sector has.
const SECTOR: usize = 4096;

// Whether a column is decided, and the parity in it differs from that of the new data.
fn is_wrong(column: usize, parity: Parity, prepared: &PreparedRow<'_>) -> bool
    requires column { column < 16 }
    requires whole { IsAllPrepared prepared.now }
    requires has { HasParity prepared.now.stripe.shape.profile parity }
    ensures { (layout : Layout) → WherePrepared layout prepared.now.stripe prepared.now.judged.now prepared.now.buffer.now
        (λ images row. result ≡ is_wrong images layout row (part_of parity) column) }
{
    if !prepared.judged.met[column] || prepared.judged.broken[column] {
        return false;
    }
    let start = element_of(parity, prepared.stripe.shape.slices) as usize * ELEMENT
        + column * SECTOR;
    let sums = sums_of(parity, prepared.buffer);
    !same_pieces(
        &prepared.buffer.elements,
        start,
        sums,
        column * SECTOR,
        SECTOR,
    )
}

// A count, with one more if there is one.
fn counted(count: u64, more: bool) -> u64
    requires { count < 16 }
    ensures { result ≡ count + (if more then 1 else 0) }
{
    if more { count + 1 } else { count }
}

// How many of the columns are so.
pub(crate) fn count_wrong(parity: Parity, prepared: &PreparedRow<'_>) -> u64
    requires whole { IsAllPrepared prepared.now }
    requires has { HasParity prepared.now.stripe.shape.profile parity }
    ensures few { result ≤ 16 }
    ensures count { (layout : Layout) → WherePrepared layout prepared.now.stripe prepared.now.judged.now prepared.now.buffer.now
        (λ images row. result ≡ length (parity_writes images layout row (part_of parity))) }
{
    let mut count = 0;
    for column in 0..16 {
        let wrong = is_wrong(column, parity, prepared);
        count = counted(count, wrong);
    }
    count
}

// Writes the sector of a parity in a column, where it is wrong there.
fn write_sector<R: Rack>(
    column: usize,
    parity: Parity,
    prepared: &PreparedRow<'_>,
    rack: &mut R,
    store: &Store,
    marks: &mut [bool],
) -> Result<(), MendFault>
    requires can { CanWrite store.now.layout (R.seen rack.old) marks.old }
    requires column { column < 16 }
    requires whole { IsAllPrepared prepared.now }
    requires has { HasParity prepared.now.stripe.shape.profile parity }
    requires stripe { IsStripe store.now.layout prepared.now.stripe }
    ensures slots { (R.seen rack.new).slots ≡ (R.seen rack.old).slots }
    ensures writes { WritesPrepared store.now.layout prepared.now.stripe prepared.now.judged.now prepared.now.buffer.now
        (λ images row. column_writes store.now.layout row (part_of parity) images column)
        marks.old marks.new (R.seen rack.old) (R.seen rack.new) result }
{
    if !is_wrong(column, parity, prepared) {
        return Ok(());
    }
    let element = place_of_part(&prepared.stripe, parity.part(), store);
    let rest = column * SECTOR;
    let sums = sums_of(parity, prepared.buffer);
    write_range(element, sums, rest, SECTOR, rack, marks)
}

// Writes the sectors of a parity that are wrong.
pub(crate) fn write_parity<R: Rack>(
    parity: Parity,
    prepared: &PreparedRow<'_>,
    rack: &mut R,
    store: &Store,
    marks: &mut [bool],
) -> Result<(), MendFault>
    requires can { CanWrite store.now.layout (R.seen rack.old) marks.old }
    requires whole { IsAllPrepared prepared.now }
    requires has { HasParity prepared.now.stripe.shape.profile parity }
    requires stripe { IsStripe store.now.layout prepared.now.stripe }
    ensures slots { (R.seen rack.new).slots ≡ (R.seen rack.old).slots }
    ensures writes { WritesPrepared store.now.layout prepared.now.stripe prepared.now.judged.now prepared.now.buffer.now
        (λ images row. parity_writes images store.now.layout row (part_of parity))
        marks.old marks.new (R.seen rack.old) (R.seen rack.new) result }
{
    for column in 0..16 {
        write_sector(column, parity, prepared, rack, store, marks)?;
    }
    Ok(())
}
