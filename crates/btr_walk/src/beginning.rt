// Where a cursor begins.
ghost use Rattle.std.specs.Prelude.{◌≡◌, ℕ, List, None, Some, slice_index_or};
ghost use Rattle.btr_base.specs.declared.key.Key.{Key};
ghost use Rattle.btr_walk.specs.Le.{root_pointer};
ghost use Rattle.btr_walk.specs.Range.{range};
ghost use Rattle.btr_walk.specs.Reading.{Map};
ghost use Rattle.btr_read.specs.declared.want.Want.{Want};
ghost use Rattle.btr_walk.specs.Going.{IsAlong, place_prog};
ghost use Rattle.btr_walk.specs.Ranks.{IsShaped};

use crate::RootPlace;
use crate::block_pointer::BlockPointer;
use crate::frame::Todo;
use crate::going::Where;
use crate::path::HEIGHT;

/// The place at which a cursor begins: the root is to be read.
pub fn begin(root: &RootPlace) -> Where
    ensures program { (lo hi : Key) (B : Map) → place_prog lo hi B result ≡ range lo hi root.now }
    ensures todo { result.todo ≡ Some (record { level = root.now.level; pointer = root_pointer root.now }) }
    ensures path { (k : ℕ) → slice_index_or result.path k None ≡ None }
    ensures shaped { IsShaped result }
    ensures on { (lo hi : Key) (B : Map) (seen : List Want) → IsAlong lo hi B seen result }
{
    let pointer = BlockPointer {
        addr: root.addr,
        generation: root.generation,
        first: None,
        up: None,
    };
    Where {
        path: [None; HEIGHT],
        todo: Some(Todo {
            level: root.level,
            pointer,
        }),
    }
}
