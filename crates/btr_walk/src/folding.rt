// A range that is folded.
ghost use Rattle.std.specs.Prelude.{◌≡◌, ◌<◌, ◌≤◌};
ghost use Rattle.btr_rack.specs.Rack.{OnlyReads};
ghost use Rattle.btr_read.specs.Serves.{Serves};
ghost use Rattle.btr_read.specs.Store.{SameLoans, free_count};
ghost use Rattle.btr_walk.specs.Folding.{FoldCause, IsTaken, IsTurned, IsRun, FoldFollows, TurnRankFalls};
ghost use Rattle.btr_walk.specs.Reading.{TellsOf};
ghost use Rattle.btr_walk.specs.ScanEnds.{IsScanReady, without_leaf};
ghost use Rattle.btr_walk.specs.Showing.{item_of};

use crate::{FoldFault, Folder, Found, RootPlace, Scan, Took, TreeFault, next};
use btr_base::Key;
use btr_rack::Rack;
use btr_read::Store;

/// What comes of one item, or of the end.
pub(crate) enum Turn<Out> {
    More,
    Last,
    Out(Out),
}

// Treats an item that was met.
fn take_found<Out, E, F: Folder<Out, E>>(
    state: &mut F,
    found: &Found<'_>,
) -> Result<Turn<Out>, FoldFault<E>>
    ensures { IsTaken F.step state.old (item_of found.now) state.new result }
{
    match state.take(found) {
        Err(own) => Err(FoldFault::Own(own)),
        Ok(Took::Go) => Ok(Turn::More),
        Ok(Took::End(out)) => Ok(Turn::Out(out)),
        Ok(Took::Broken) => Err(FoldFault::Tree(TreeFault::Malformed(found.block))),
    }
}

// One item further.
fn take_next<R: Rack, Out, E, F: Folder<Out, E>>(
    scan: &mut Scan,
    rack: &mut R,
    store: &mut Store,
    state: &mut F,
) -> Result<Turn<Out>, FoldFault<E>>
    requires ready { IsScanReady (R.seen rack.old) store.old scan.old }
    requires room { 4 ≤ free_count (without_leaf store.old scan.old) }
    ensures ready { IsScanReady (R.seen rack.new) store.new scan.new }
    ensures reads { OnlyReads (R.seen rack.old) (R.seen rack.new) }
    ensures others { SameLoans (without_leaf store.old scan.old) (without_leaf store.new scan.new) }
    ensures lo { scan.new.lo ≡ scan.old.lo }
    ensures hi { scan.new.hi ≡ scan.old.hi }
    ensures rank_falls { TurnRankFalls scan.old scan.new result }
    ensures cause { FoldCause store.old.layout (R.seen rack.old) (R.seen rack.new) result }
    ensures content { TellsOf store.old (R.seen rack.old) (R.seen rack.new)
        (λ Is B. IsTurned F.step F.answer Is B store.old store.new scan.old scan.new state.old state.new result) }
{
    match next(store, scan, rack) {
        Err(fault) => Err(FoldFault::Tree(fault)),
        Ok(None) => Ok(Turn::Last),
        Ok(Some(found)) => take_found(state, &found),
    }
}

// All items of a scan: the answer, if one came before the last.
fn run<R: Rack, Out, E, F: Folder<Out, E>>(
    scan: &mut Scan,
    rack: &mut R,
    store: &mut Store,
    state: &mut F,
) -> Result<Option<Out>, FoldFault<E>>
    requires ready { IsScanReady (R.seen rack.old) store.old scan.old }
    requires room { 4 ≤ free_count (without_leaf store.old scan.old) }
    ensures ready { IsScanReady (R.seen rack.new) store.new scan.new }
    ensures reads { OnlyReads (R.seen rack.old) (R.seen rack.new) }
    ensures others { SameLoans (without_leaf store.old scan.old) (without_leaf store.new scan.new) }
    ensures cause { FoldCause store.old.layout (R.seen rack.old) (R.seen rack.new) result }
    ensures content { TellsOf store.old (R.seen rack.old) (R.seen rack.new)
        (λ Is B. IsRun F.step F.answer Is B store.old scan.old state.old state.new result) }
{
    loop {
        match take_next(scan, rack, store, state)? {
            Turn::More => {}
            Turn::Last => return Ok(None),
            Turn::Out(out) => return Ok(Some(out)),
        }
    }
}

/// Folds the items of a tree from `lo` to `hi`, both included: treats each before the next block is read, until the folder
/// has its answer or no item is left. Four slots are free; it takes no memory, and keeps no loan.
///
/// The faults of the tree are those of the blocks of the range, in their order, up to where the answer comes: `Lost`, `Unread`,
/// `Unmapped` and `Crosses` of a block, and `Malformed` where one breaks a rule, doesn't fit its place, or has an item that
/// breaks its form. `Own` is the folder's refusal.
pub fn fold<R: Rack, Out, E, F: Folder<Out, E> + Drop>(
    root: &RootPlace,
    lo: Key,
    hi: Key,
    rack: &mut R,
    store: &mut Store,
    state: F,
) -> Result<Out, FoldFault<E>>
    requires serves { Serves (R.seen rack.old) store.old }
    requires room { 4 ≤ free_count store.old }
    ensures serves { Serves (R.seen rack.new) store.new }
    ensures reads { OnlyReads (R.seen rack.old) (R.seen rack.new) }
    ensures loans { SameLoans store.old store.new }
    ensures cause { FoldCause store.old.layout (R.seen rack.old) (R.seen rack.new) result }
    ensures content { TellsOf store.old (R.seen rack.old) (R.seen rack.new)
        (λ Is B. FoldFollows F.step F.answer Is B state root.now lo hi result) }
{
    let mut state = state;
    let mut scan = Scan::new(root, lo, hi);
    let ended = run(&mut scan, rack, store, &mut state);
    scan.finish(store);
    match ended? {
        Some(out) => Ok(out),
        None => Ok(state.end()),
    }
}
