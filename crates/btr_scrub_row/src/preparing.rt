// Reading a row, judging its blocks, and making its parities.
ghost use Rattle.std.specs.Prelude.{◌≡◌, ℕ, ◌*◌, ◌<◌, ◌≤◌, length, take, IfOk};
ghost use Rattle.btr_chunk.specs.declared.profile.Profile.{Profile};
ghost use Rattle.btr_parity.specs.Slices.{parity_p, parity_q};
ghost use Rattle.btr_rack.specs.Rack.{OnlyReads};
ghost use Rattle.btr_read.specs.Layout.{AreOpen};
ghost use Rattle.btr_scrub_row.specs.Mending.{HasRoom};
ghost use Rattle.btr_scrub_row.specs.Memory.{AccountsRow, IsWanted, OfRow, slices_in};
ghost use Rattle.btr_scrub_row.specs.Preparing.{Prepares};

use crate::RowBuffer;
use crate::judged::{Judged, judge};
use crate::parities::{make_p, make_q};
use crate::reading::read_row;
use crate::row_view::RowView;
use crate::shape::Shape;
use crate::wanted_row::WantedRow;
use btr_chunk::Profile;
use btr_rack::Rack;
use btr_read::Store;
use btr_scrub_copies::MendFault;

// Makes the parities of the new data.
fn make_parities(shape: &Shape, new: &[u8], p: &mut [u8], q: &mut [u8])
    requires p_fits { 65536 ≤ length p.old }
    requires q_fits { 65536 ≤ length q.old }
    requires some { 0 < shape.now.slices }
    requires few { shape.now.slices ≤ 63 }
    requires within { shape.now.slices * 65536 ≤ length new.now }
    ensures p { take 65536 p.new ≡ parity_p 65536 (slices_in new.now shape.now.slices) }
    ensures q { shape.now.profile ≡ Profile.Raid6
        → take 65536 q.new ≡ parity_q 65536 (slices_in new.now shape.now.slices) }
{
    make_p(shape.slices, new, p);
    match shape.profile {
        Profile::Raid6 => make_q(shape.slices, new, q),
        _ => {}
    }
}

// Reads a row, judges its blocks, and makes the new data and its parities.
pub(crate) fn prepare<R: Rack>(
    wanted: &WantedRow<'_>,
    rack: &mut R,
    store: &Store,
    buffer: &mut RowBuffer,
) -> Result<Judged, MendFault>
    requires open { AreOpen (R.seen rack.old).slots store.now.layout.devices }
    requires wanted { IsWanted store.now.layout wanted.now }
    requires room { OfRow store.now.layout wanted.now.stripe (λ row. HasRoom buffer.old (length row.chunk.stripes)) }
    ensures reads { OnlyReads (R.seen rack.old) (R.seen rack.new) }
    ensures room { (elements : ℕ) → HasRoom buffer.old elements → HasRoom buffer.new elements }
    ensures prepared { IfOk result (Prepares store.now.layout wanted.now (R.seen rack.old) buffer.new) }
    ensures account { AccountsRow store.now.layout wanted.now.stripe (R.seen rack.old) (R.seen rack.new) result }
{
    let stripe = &wanted.stripe;
    read_row(stripe, rack, store, &mut buffer.elements)?;
    let view = RowView {
        wanted: *wanted,
        store,
        old: &buffer.elements,
    };
    let judged = judge(
        &view,
        &mut buffer.slices,
        &mut buffer.block,
        &mut buffer.spare,
    );
    make_parities(&stripe.shape, &buffer.slices, &mut buffer.p, &mut buffer.q);
    Ok(judged)
}
