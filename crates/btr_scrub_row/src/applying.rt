// Writing all that mends a row.
ghost use Rattle.std.specs.Prelude.{◌≡◌, ℕ, length, IsFalse};
ghost use Rattle.std.specs.List.{flat_map};
ghost use Rattle.btr_scrub_row.specs.Wanted.{mending_writes};
ghost use Rattle.btr_scrub_row.specs.Rows.{parities, parity_writes};
ghost use Rattle.btr_scrub_row.specs.Mending.{HasRoom, parity_count};
ghost use Rattle.btr_scrub_row.specs.Memory.{IsStripe, IsWanted, OfRow};
ghost use Rattle.btr_scrub_row.specs.Preparing.{HasOneTurn, StaysPrepared, WherePrepared, WritesInTurn, WritesPrepared, WritesWanted};
ghost use Rattle.btr_scrub_row.specs.Writing.{CanWrite};

use crate::RowBuffer;
use crate::blocks::write_blocks;
use crate::judged::Judged;
use crate::prepared_row::PreparedRow;
use crate::row_view::RowView;
use crate::sectors::{count_wrong, write_parity};
use crate::stripe::FullStripe;
use crate::wanted_row::WantedRow;
use btr_chunk::Profile;
use btr_rack::Rack;
use btr_read::{Parity, Store};
use btr_scrub_copies::{MendFault, sync_if};

// How many sectors of the parities are wrong.
pub(crate) fn count_parities(
    stripe: &FullStripe,
    judged: &Judged,
    store: &Store,
    buffer: &RowBuffer,
) -> u64
    requires stripe { IsStripe store.now.layout stripe.now }
    requires room { OfRow store.now.layout stripe.now (λ row. HasRoom buffer.now (length row.chunk.stripes)) }
    ensures { WherePrepared store.now.layout stripe.now judged.now buffer.now
        (λ images row. result ≡ parity_count images store.now.layout row) }
{
    let prepared = PreparedRow {
        stripe: *stripe,
        judged,
        buffer,
    };
    let p = count_wrong(Parity::P, &prepared);
    match stripe.shape.profile {
        Profile::Raid6 => p + count_wrong(Parity::Q, &prepared),
        _ => p,
    }
}

// Writes the sectors of the parities that are wrong.
fn write_parities<R: Rack>(
    stripe: &FullStripe,
    judged: &Judged,
    rack: &mut R,
    store: &Store,
    buffer: &RowBuffer,
    marks: &mut [bool],
) -> Result<(), MendFault>
    requires can { CanWrite store.now.layout (R.seen rack.old) marks.old }
    requires stripe { IsStripe store.now.layout stripe.now }
    requires room { OfRow store.now.layout stripe.now (λ row. HasRoom buffer.now (length row.chunk.stripes)) }
    ensures slots { (R.seen rack.new).slots ≡ (R.seen rack.old).slots }
    ensures writes { WritesPrepared store.now.layout stripe.now judged.now buffer.now
        (λ images row. flat_map (parity_writes images store.now.layout row) (parities row.chunk.profile))
        marks.old marks.new (R.seen rack.old) (R.seen rack.new) result }
{
    let prepared = PreparedRow {
        stripe: *stripe,
        judged,
        buffer,
    };
    write_parity(Parity::P, &prepared, rack, store, marks)?;
    match stripe.shape.profile {
        Profile::Raid6 => write_parity(Parity::Q, &prepared, rack, store, marks),
        _ => Ok(()),
    }
}

// Writes the blocks at whose own places something is wrong, where some get bytes.
fn write_rebuilt<R: Rack>(
    wanted: &WantedRow<'_>,
    judged: &Judged,
    rack: &mut R,
    store: &Store,
    buffer: &mut RowBuffer,
    marks: &mut [bool],
) -> Result<(), MendFault>
    requires can { CanWrite store.now.layout (R.seen rack.old) marks.old }
    requires wanted { IsWanted store.now.layout wanted.now }
    requires room { OfRow store.now.layout wanted.now.stripe (λ row. HasRoom buffer.old (length row.chunk.stripes)) }
    ensures slots { (R.seen rack.new).slots ≡ (R.seen rack.old).slots }
    ensures room { (elements : ℕ) → HasRoom buffer.old elements → HasRoom buffer.new elements }
    ensures prepared { StaysPrepared store.now.layout judged.now buffer.old buffer.new }
    ensures writes { WritesWanted store.now.layout wanted.now judged.now buffer.old
        (λ images row. flat_map (mending_writes images row.failing) row.blocks)
        marks.old marks.new (R.seen rack.old) (R.seen rack.new) result }
{
    if judged.rebuilt == 0 {
        return Ok(());
    }
    let view = RowView {
        wanted: *wanted,
        store,
        old: &buffer.elements,
    };
    write_blocks(&view, rack, &mut buffer.block, &mut buffer.spare, marks)
}

// Whether blocks are to be written, and parities too.
fn has_both(stripe: &FullStripe, judged: &Judged, store: &Store, buffer: &RowBuffer) -> bool
    requires stripe { IsStripe store.now.layout stripe.now }
    requires room { OfRow store.now.layout stripe.now (λ row. HasRoom buffer.now (length row.chunk.stripes)) }
    ensures { IsFalse result → WherePrepared store.now.layout stripe.now judged.now buffer.now
        (λ images row. HasOneTurn images store.now.layout row) }
{
    judged.rebuilt > 0 && count_parities(stripe, judged, store, buffer) > 0
}

// Writes all that mends a row: the blocks, and behind them P and Q. Where there is something to be written of both, what was written until then is synced
// between them: else a parity could be stored before the blocks that are rebuilt by it.
pub(crate) fn write_row<R: Rack>(
    wanted: &WantedRow<'_>,
    judged: &Judged,
    rack: &mut R,
    store: &Store,
    buffer: &mut RowBuffer,
    marks: &mut [bool],
) -> Result<(), MendFault>
    requires can { CanWrite store.now.layout (R.seen rack.old) marks.old }
    requires slots { length marks.old ≡ length (R.seen rack.old).slots }
    requires wanted { IsWanted store.now.layout wanted.now }
    requires room { OfRow store.now.layout wanted.now.stripe (λ row. HasRoom buffer.old (length row.chunk.stripes)) }
    ensures slots { (R.seen rack.new).slots ≡ (R.seen rack.old).slots }
    ensures room { (elements : ℕ) → HasRoom buffer.old elements → HasRoom buffer.new elements }
    ensures prepared { StaysPrepared store.now.layout judged.now buffer.old buffer.new }
    ensures writes { WritesInTurn store.now.layout wanted.now judged.now buffer.old
        marks.old marks.new (R.seen rack.old) (R.seen rack.new) result }
{
    let stripe = &wanted.stripe;
    let both = has_both(stripe, judged, store, buffer);
    write_rebuilt(wanted, judged, rack, store, buffer, marks)?;
    sync_if(both, rack, marks)?;
    write_parities(stripe, judged, rack, store, buffer, marks)
}
