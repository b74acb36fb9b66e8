// The subvolume that is sent.
ghost use Rattle.std.specs.Prelude.{◌≡◌, ◌≤◌, Some, IfSome};
ghost use Rattle.btr_read.specs.Serves.{Serves};
ghost use Rattle.btr_read.specs.Store.{SameLoans, free_count, IsLiveIn};
ghost use Rattle.btr_rack.specs.Rack.{OnlyReads};
ghost use Rattle.btr_walk.specs.Lending.{base};
ghost use Rattle.btr_walk.specs.Reading.{HasCause};
ghost use Rattle.btr_walk.specs.Showing.{item_of};
ghost use Rattle.btr_volume.specs.Looking.{Judges, Looks};
ghost use Rattle.btr_volume.specs.Readable.{CanRead};
ghost use Rattle.btr_volume.specs.Tree.{is_root_of};
ghost use Rattle.btr_listing.specs.Looked.{Looked};
ghost use Rattle.btr_restore.specs.Running.{LookedFor};
ghost use Rattle.btr_send.specs.Source.{source_found, source_in, source_of, transid_in, unnamed, uuid_in};

use btr_base::{Key, array_at, u64_at};
use btr_rack::Rack;
use btr_read::{Loan, Store};
use btr_volume::{Stop, TreeRoot, Volume, chunk_root, named_root, root_at, root_root};
use btr_walk::{Found, RootPlace, TreeFault, find_le};

const ROOT_TREE: u64 = 1;

const CHUNK_TREE: u64 = 3;

const ROOT_ITEM: u8 = 132;

// The size of a ROOT_ITEM that has a uuid and a transid.
const NEW_FORM: usize = 439;

/// The subvolume that is sent: its root, and what its ROOT_ITEM says of who it is.
#[derive(Clone, Copy, Debug)]
pub(crate) struct Source {
    pub(crate) root: TreeRoot,
    pub(crate) uuid: [u8; 16],
    /// The transaction in which it was changed last.
    pub(crate) transid: u64,
}

// The uuid in the body of a ROOT_ITEM; zeros in its old form.
fn uuid_in(body: &[u8]) -> [u8; 16]
    ensures { result ≡ uuid_in body.now }
{
    if body.len() == NEW_FORM {
        return array_at(body, 247);
    }
    [0; 16]
}

// The transid in the body of a ROOT_ITEM; 0 in its old form.
fn transid_in(body: &[u8]) -> u64
    ensures { result ≡ transid_in body.now }
{
    if body.len() == NEW_FORM {
        return u64_at(body, 295);
    }
    0
}

// A tree without a ROOT_ITEM.
fn unnamed(root: TreeRoot) -> Source
    ensures { result ≡ unnamed root }
{
    Source {
        root,
        uuid: [0; 16],
        transid: 0,
    }
}

// Whether this is the key of a ROOT_ITEM of an id.
fn is_root_of(id: u64, key: Key) -> bool
    ensures { result ≡ is_root_of id key }
{
    key.objectid == id && key.kind == ROOT_ITEM
}

// The subvolume that was found for an id: none where it is another one's item.
fn source_found(id: u64, found: &Found<'_>) -> Result<Option<Source>, TreeFault>
    ensures { Judges (source_found id (Some (item_of found.now))) result }
{
    if !is_root_of(id, found.key) {
        return Ok(None);
    }
    match root_at(found.key, found.body) {
        Ok(root) => Ok(Some(Source {
            root,
            uuid: uuid_in(found.body),
            transid: transid_in(found.body),
        })),
        Err(_) => Err(TreeFault::Malformed(found.block)),
    }
}

// Gives a loan back, if there is one.
fn give_back(store: &mut Store, loan: Option<Loan>)
    requires { IfSome loan (IsLiveIn store.old) }
    ensures { store.new ≡ base store.old loan }
{
    if let Some(loan) = loan {
        store.give(loan);
    }
}

// The subvolume of an id in the root tree.
#[tactic(auto, using(btr_volume::proofs::Looked::served_base, btr_volume::proofs::Looked::looks_found))]
fn find_in<R: Rack>(
    store: &mut Store,
    root: &RootPlace,
    id: u64,
    rack: &mut R,
) -> Result<Option<Source>, TreeFault>
    requires serves { Serves (R.seen rack.old) store.old }
    requires room { 4 ≤ free_count store.old }
    ensures serves { Serves (R.seen rack.new) store.new }
    ensures reads { OnlyReads (R.seen rack.old) (R.seen rack.new) }
    ensures loans { SameLoans store.old store.new }
    ensures cause { HasCause store.old.layout (R.seen rack.old) (R.seen rack.new) result }
    ensures content { Looks store.old.layout (R.seen rack.old) (R.seen rack.new) (source_in root.now id) result }
{
    let mut loan = None;
    let key = Key {
        objectid: id,
        kind: ROOT_ITEM,
        offset: u64::MAX,
    };
    let answer = match find_le(store, root, key, rack, &mut loan) {
        Err(fault) => Err(fault),
        Ok(None) => Ok(None),
        Ok(Some(found)) => source_found(id, &found),
    };
    give_back(store, loan);
    answer
}

// The same in a volume: a tree whose root the superblock names has no ROOT_ITEM.
fn look_up<R: Rack>(id: u64, rack: &mut R, vol: &mut Volume) -> Result<Option<Source>, TreeFault>
    requires { CanRead 4 (R.seen rack.old) vol.old }
    ensures { Looked (source_of vol.old.sup id) (R.seen rack.old) vol.old (R.seen rack.new) vol.new result }
{
    let root = root_root(&vol.sup);
    match id {
        ROOT_TREE => Ok(Some(unnamed(named_root(id, root)))),
        CHUNK_TREE => Ok(Some(unnamed(named_root(id, chunk_root(&vol.sup))))),
        _ => find_in(&mut vol.store, &root, id, rack),
    }
}

/// The subvolume of an id, if there is one: its root and its other fields are read from one item. It takes no memory.
pub(crate) fn find_source<R: Rack>(
    id: u64,
    rack: &mut R,
    vol: &mut Volume,
) -> Result<Option<Source>, Stop>
    requires { CanRead 6 (R.seen rack.old) vol.old }
    ensures { LookedFor (λ s. source_of s id) (R.seen rack.old) vol.old (R.seen rack.new) vol.new result }
{
    match look_up(id, rack, vol) {
        Ok(found) => Ok(found),
        Err(fault) => Err(Stop::Tree(fault)),
    }
}
