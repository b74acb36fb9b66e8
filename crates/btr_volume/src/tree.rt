// The roots of trees.
ghost use Rattle.std.specs.Prelude.{◌≡◌, ◌≤◌, Some, IfSome};
ghost use Rattle.btr_rack.specs.Rack.{OnlyReads};
ghost use Rattle.btr_read.specs.Serves.{Serves};
ghost use Rattle.btr_read.specs.Store.{SameLoans, free_count, IsLiveIn};
ghost use Rattle.btr_walk.specs.Lending.{base};
ghost use Rattle.btr_walk.specs.Reading.{HasCause};
ghost use Rattle.btr_walk.specs.Showing.{item_of};
ghost use Rattle.btr_volume.specs.Table.{chunk_root};
ghost use Rattle.btr_items.specs.Form.{map_ok};
ghost use Rattle.btr_items.specs.RootItem.{root_item_of};
ghost use Rattle.btr_volume.specs.Tree.{root_root, root_want, named_root, is_root_of, described, root_found, root_in, tree_of};
ghost use Rattle.btr_volume.specs.Looking.{Looks, Judges, SameVolume};

use crate::{TreeRoot, Volume};
use btr_base::Key;
use btr_items::{ItemFault, RootItem};
use btr_rack::Rack;
use btr_read::{Loan, Store, Want};
use btr_super::Super;
use btr_walk::{Found, RootPlace, TreeFault, find_le};

const ROOT_TREE: u64 = 1;

const CHUNK_TREE: u64 = 3;

const ROOT_ITEM: u8 = 132;

/// The root block of the root tree.
pub fn root_root(s: &Super) -> RootPlace
    ensures { result ≡ root_root s.now }
{
    RootPlace {
        addr: s.root,
        generation: s.generation,
        level: s.root_level,
    }
}

// The same as it is sought.
pub(crate) fn root_want(s: &Super) -> Want
    ensures { result ≡ root_want s.now }
{
    Want::Tree {
        addr: s.root,
        generation: s.generation,
        level: s.root_level,
    }
}

/// The root block of the chunk tree.
pub fn chunk_root(s: &Super) -> RootPlace
    ensures { result ≡ chunk_root s.now }
{
    RootPlace {
        addr: s.chunk_root,
        generation: s.chunk_root_generation,
        level: s.chunk_root_level,
    }
}

/// A tree whose root the superblock names: 1, the root tree, or 3, the chunk tree.
pub fn named_root(id: u64, place: RootPlace) -> TreeRoot
    ensures { result ≡ named_root id place }
{
    TreeRoot {
        id,
        offset: 0,
        place,
        dirid: 0,
        refs: 1,
    }
}

// Whether this is the key of a ROOT_ITEM of an id.
fn is_root_of(id: u64, key: Key) -> bool
    ensures { result ≡ is_root_of id key }
{
    key.objectid == id && key.kind == ROOT_ITEM
}

/// The root that a ROOT_ITEM of this key and body describes. `ItemFault`: the body breaks its form.
pub fn root_at(key: Key, body: &[u8]) -> Result<TreeRoot, ItemFault>
    ensures { result ≡ map_ok (described key) (root_item_of body.now) }
{
    let root = RootItem::read(body)?;
    Ok(TreeRoot {
        id: key.objectid,
        offset: key.offset,
        place: RootPlace {
            addr: root.bytenr,
            generation: root.generation,
            level: body[238],
        },
        dirid: root.dirid,
        refs: root.refs,
    })
}

// The root that was found for an id: none where it is another one's item.
fn root_found(id: u64, found: &Found<'_>) -> Result<Option<TreeRoot>, TreeFault>
    ensures { Judges (root_found id (Some (item_of found.now))) result }
{
    if is_root_of(id, found.key) {
        match root_at(found.key, found.body) {
            Ok(root) => Ok(Some(root)),
            Err(ItemFault) => Err(TreeFault::Malformed(found.block)),
        }
    } else {
        Ok(None)
    }
}

// Gives a loan back, if there is one.
fn give_back(store: &mut Store, loan: Option<Loan>)
    requires { IfSome loan (IsLiveIn store.old) }
    ensures { store.new ≡ base store.old loan }
{
    if let Some(loan) = loan {
        store.give(loan);
    }
}

// The root of the tree of an id in the root tree.
#[tactic(auto, using(crate::proofs::Looked::served_base, crate::proofs::Looked::looks_found))]
fn find_root<R: Rack>(
    store: &mut Store,
    root: &RootPlace,
    id: u64,
    rack: &mut R,
) -> Result<Option<TreeRoot>, TreeFault>
    requires serves { Serves (R.seen rack.old) store.old }
    requires room { 4 ≤ free_count store.old }
    ensures serves { Serves (R.seen rack.new) store.new }
    ensures reads { OnlyReads (R.seen rack.old) (R.seen rack.new) }
    ensures loans { SameLoans store.old store.new }
    ensures cause { HasCause store.old.layout (R.seen rack.old) (R.seen rack.new) result }
    ensures content { Looks store.old.layout (R.seen rack.old) (R.seen rack.new) (root_in root.now id) result }
{
    let mut loan = None;
    let key = Key {
        objectid: id,
        kind: ROOT_ITEM,
        offset: u64::MAX,
    };
    let answer = match find_le(store, root, key, rack, &mut loan) {
        Err(fault) => Err(fault),
        Ok(None) => Ok(None),
        Ok(Some(found)) => root_found(id, &found),
    };
    give_back(store, loan);
    answer
}

impl Volume {
    /// The root of the tree of an id, if there is one: the root tree 1 and the chunk tree 3 are the superblock's, all others have the
    /// ROOT_ITEM with the greatest offset. It takes no memory. Four slots are free.
    ///
    /// The faults are those of the one way down the root tree, and `Malformed` of the leaf where the ROOT_ITEM breaks its form.
    pub fn tree<R: Rack>(&mut self, id: u64, rack: &mut R) -> Result<Option<TreeRoot>, TreeFault>
        requires serves { Serves (R.seen rack.old) self.old.store }
        requires room { 4 ≤ free_count self.old.store }
        ensures serves { Serves (R.seen rack.new) self.new.store }
        ensures reads { OnlyReads (R.seen rack.old) (R.seen rack.new) }
        ensures same { SameVolume self.old self.new }
        ensures cause { HasCause self.old.store.layout (R.seen rack.old) (R.seen rack.new) result }
        ensures content { Looks self.old.store.layout (R.seen rack.old) (R.seen rack.new)
            (tree_of self.old.sup id) result }
    {
        match id {
            ROOT_TREE => Ok(Some(named_root(id, root_root(&self.sup)))),
            CHUNK_TREE => Ok(Some(named_root(id, chunk_root(&self.sup)))),
            _ => find_root(&mut self.store, &root_root(&self.sup), id, rack),
        }
    }
}
