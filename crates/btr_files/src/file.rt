// The bytes of a file, piece by piece.
ghost use Rattle.std.specs.Prelude.{◌≡◌, []};
ghost use Rattle.btr_base.specs.declared.kind.SumKind.{SumKind};
ghost use Rattle.btr_rack.specs.Rack.{Seen};
ghost use Rattle.btr_read.specs.Serves.{Serves};
ghost use Rattle.btr_read.specs.Store.{Blocks, SameLoans};
ghost use Rattle.btr_walk.specs.Reading.{Map};
ghost use Rattle.btr_files.specs.Content.{content};
ghost use Rattle.btr_files.specs.Streaming.{BeginsFile, IsFileOn, IsLoanLive, IsReading, without_file};

use crate::lookup::{give_back, key_of};
use crate::progress::{Progress, Source, Todo};
use crate::sums_ahead::SumsAhead;
use btr_items::item;
use btr_read::Loan;
use btr_volume::{TreeRoot, Volume};
use btr_walk::Rest;

/// The bytes of a file, piece by piece in ascending position. The checksums of the sectors behind one that was looked up are kept, as far as they stand in
/// one item of the checksum tree. It keeps at most one loan: that of the piece that was lent last. It is not let go but by
/// `finish`.
pub struct FileBytes {
    pub(crate) source: Source,
    pub(crate) progress: Progress,
    pub(crate) ahead: SumsAhead,
    pub(crate) loan: Option<Loan>,
}

impl FileBytes {
    /// The file of `size` bytes with this inode; nothing is read yet. `nosum` says that its sectors have no checksums, `sums` is the checksum tree,
    /// if there is one.
    pub fn new(
        tree: TreeRoot,
        ino: u64,
        size: u64,
        nosum: bool,
        sums: Option<TreeRoot>,
    ) -> FileBytes
        ensures reading { (rack : Seen) (store : Blocks) → Serves rack store → IsReading rack store result }
        ensures free { (store : Blocks) → without_file store result ≡ store }
        ensures program { (kind : SumKind) → BeginsFile kind result (content kind sums nosum size tree ino) }
        ensures on { (B : Map) → IsFileOn B [] result }
    {
        let lo = key_of(ino, item::EXTENT_DATA, 0);
        let hi = key_of(ino, item::EXTENT_DATA, u64::MAX);
        let ahead = SumsAhead::new();
        let todo = if size == 0 { Todo::Over } else { Todo::Next };
        FileBytes {
            source: Source { size, nosum, sums },
            progress: Progress {
                rest: Rest::new(&tree.place, lo, hi),
                at: 0,
                end: 0,
                todo,
            },
            ahead,
            loan: None,
        }
    }

    /// Gives the loan back, if one is kept. No file is let go without it.
    pub fn finish(self, vol: &mut Volume)
        requires { IsLoanLive vol.old.store self }
        ensures sup { vol.new.sup ≡ vol.old.sup }
        ensures back { SameLoans (without_file vol.old.store self) vol.new.store }
        ensures serves { (rack : Seen) → Serves rack vol.old.store → Serves rack vol.new.store }
    {
        let FileBytes {
            source: _,
            progress: _,
            ahead: _,
            loan,
        } = self;
        give_back(&mut vol.store, loan);
    }
}
