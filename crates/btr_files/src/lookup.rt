// A lookup by the items from one key to another.
ghost use Rattle.std.specs.Prelude.{◌≡◌, ◌≤◌, IfSome, None, Some};
ghost use Rattle.btr_rack.specs.Rack.{OnlyReads};
ghost use Rattle.btr_read.specs.Serves.{Serves};
ghost use Rattle.btr_read.specs.Store.{IsLiveIn, free_count};
ghost use Rattle.btr_walk.specs.Lending.{base};
ghost use Rattle.btr_walk.specs.Folds.{folded};
ghost use Rattle.btr_walk.specs.Reading.{HasCause};
ghost use Rattle.btr_volume.specs.Looking.{SameVolume};
ghost use Rattle.btr_volume.specs.Tree.{key};
ghost use Rattle.btr_files.specs.Told.{LooksIn};

use btr_base::Key;
use btr_rack::Rack;
use btr_read::{Loan, Store};
use btr_volume::Volume;
use btr_walk::{FoldFault, Folder, RootPlace, TreeFault, fold};
use std::convert::Infallible;

// The key of an item.
pub(crate) fn key_of(objectid: u64, kind: u8, offset: u64) -> Key
    ensures { result ≡ key objectid kind offset }
{
    Key {
        objectid,
        kind,
        offset,
    }
}

// Gives a loan back, if there is one.
pub(crate) fn give_back(store: &mut Store, loan: Option<Loan>)
    requires { IfSome loan (IsLiveIn store.old) }
    ensures { store.new ≡ base store.old loan }
{
    if let Some(loan) = loan {
        store.give(loan);
    }
}

// Puts a loan into an empty place.
pub(crate) fn keep(place: &mut Option<Loan>, loan: Loan)
    requires { place.old ≡ None }
    ensures { place.new ≡ Some loan }
{
    match place.replace(loan) {
        None => {}
        Some(_) => unreachable!(),
    }
}

// Folds the items of a tree from `lo` to `hi`, where the folder has no refusal of its own.
pub(crate) fn lookup<R: Rack, Out, F: Folder<Out, Infallible> + Drop>(
    root: &RootPlace,
    lo: Key,
    hi: Key,
    rack: &mut R,
    vol: &mut Volume,
    state: F,
) -> Result<Out, TreeFault>
    requires serves { Serves (R.seen rack.old) vol.old.store }
    requires room { 4 ≤ free_count vol.old.store }
    ensures serves { Serves (R.seen rack.new) vol.new.store }
    ensures reads { OnlyReads (R.seen rack.old) (R.seen rack.new) }
    ensures volume { SameVolume vol.old vol.new }
    ensures cause { HasCause vol.old.store.layout (R.seen rack.old) (R.seen rack.new) result }
    ensures content { LooksIn vol.old (R.seen rack.old) (R.seen rack.new)
        (folded F.step F.answer state root.now lo hi) result }
{
    match fold(root, lo, hi, rack, &mut vol.store, state) {
        Ok(out) => Ok(out),
        Err(FoldFault::Tree(fault)) => Err(fault),
        Err(FoldFault::Own(never)) => match never {},
    }
}
