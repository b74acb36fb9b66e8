// The folders that were entered.
ghost use Rattle.std.specs.Prelude.{◌≡◌, ◌<◌, ◌-◌, ◌++◌, [], ◌∷◌, length, take, IfOk};
ghost use Rattle.btr_rack.specs.Folders.{IsAbove};

use crate::file_id::FileId;
use btr_base::Memory;
use std::alloc::Global;
use std::marker::Model;

const MOST_FOLDERS: usize = 512;

/// The folders that were entered below the destination and not left, at most 512. Its memory is taken once, in
/// `new`. Clauses see the list.
#[derive(Drop)]
pub(crate) struct Folders {
    entered: Vec<FileId>,
}

impl Model for Folders {
    ghost use Rattle.std.specs.Prelude.{List, ◌≤◌};
    ghost use Rattle.std.specs.Vec.{vec_capacity};
    ghost use Rattle.btr_rack.specs.declared.file_id.FileId.{FileId};

    ghost Value = { List FileId };

    ghost view = { λ f. f.entered.items };

    ghost invariant = { λ f. 512 ≤ vec_capacity f.entered };
}

impl Folders {
    pub(crate) fn new(alloc: Global) -> Result<Folders, Memory>
        ensures { IfOk result (λ f. f ≡ []) }
    {
        match Vec::with_capacity(alloc, MOST_FOLDERS) {
            Ok(entered) => Ok(Folders { entered }),
            Err(_) => Err(Memory),
        }
    }

    /// The folder above the last one, where the destination is `top`.
    pub(crate) fn above(&self, top: FileId) -> FileId
        requires { 0 < length self.now }
        ensures { IsAbove top self.now result }
    {
        let Some(at) = self.entered.len().checked_sub(2) else {
            return top;
        };
        match self.entered.get(at) {
            Some(folder) => *folder,
            None => unreachable!(),
        }
    }

    /// A folder was entered.
    pub(crate) fn enter(&mut self, folder: FileId)
        requires { length self.old < 512 }
        ensures { self.new ≡ self.old ++ folder ∷ [] }
    {
        let Ok(()) = self.entered.push(folder) else {
            unreachable!()
        };
    }

    /// The last folder was left.
    pub(crate) fn leave(&mut self)
        requires { 0 < length self.old }
        ensures { self.new ≡ take (length self.old - 1) self.old }
    {
        let _ = self.entered.pop();
    }
}
