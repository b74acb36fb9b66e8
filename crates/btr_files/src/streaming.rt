// The next piece of a file.
ghost use Rattle.std.specs.Prelude.{◌≡◌, ◌↔◌, ◌+◌, ◌<◌, ◌≤◌, ◌^◌, length, IsTrue, IfOk, IfSome, OnErr};
ghost use Rattle.std.specs.Borrow.{sem};
ghost use Rattle.btr_node.specs.Block.{items, is_leaf};
ghost use Rattle.btr_rack.specs.Rack.{OnlyReads};
ghost use Rattle.btr_read.specs.Serves.{Serves};
ghost use Rattle.btr_read.specs.Store.{free_count};
ghost use Rattle.btr_walk.specs.Reading.{HasCause};
ghost use Rattle.btr_files.specs.Giving.{after_end, after_sector, body_at, span_piece, zeros_at, IsSpan, LendsNext, LendsStep, StepsOn, NextStepsOn};
ghost use Rattle.btr_files.specs.Ahead.{IsFound};
ghost use Rattle.btr_files.specs.Streaming.{piece_of, without_file, FitsTodo, IsPiece, IsReading, IsUnderway, PieceRankFalls, SameFile, StreamEnds};
ghost use Rattle.btr_files.specs.Told.{TellsStep, TellsSummed, TellsNextStep};

use crate::extent::find_next;
use crate::lookup::{give_back, keep};
use crate::progress::{InlinePart, Progress, SectorPart, Source, Todo};
use crate::sector::{crc_of, is_tested, read_sector, want_of};
use crate::sums_ahead::SumsAhead;
use crate::{FileBytes, Piece};
use btr_items::FileExtent;
use btr_node::Leaf;
use btr_rack::Rack;
use btr_read::Loan;
use btr_volume::Volume;
use btr_walk::{MetAgain, TreeFault};

/// Where the bytes of a piece stand in the block of a loan.
#[derive(Clone, Copy, Debug)]
pub(crate) enum Span {
    /// The first `len` bytes of the inline extent that item `at` of the leaf holds.
    Inline {
        at: usize,
        len: usize,
    },
    /// The first `len` bytes of the sector; it may have been tested, and their CRC-32C be known.
    Sector {
        len: usize,
        verified: bool,
        crc: Option<u32>,
    },
}

/// A piece that is given, with the loan of its bytes.
pub(crate) enum Shown {
    Gap(u64),
    Bytes(Loan, Span),
}

// How many zeros come before anything else.
fn zeros_at(size: u64, progress: &Progress) -> u64
    requires within { progress.now.at ≤ size }
    requires fits { FitsTodo size progress.now.at progress.now.end progress.now.todo }
    ensures { result ≡ zeros_at size progress.now.at progress.now.todo }
{
    match &progress.todo {
        Todo::Next => 0,
        Todo::Inline(part) => part.start - progress.at,
        Todo::Sectors(part) => part.start - progress.at,
        Todo::Over => size - progress.at,
    }
}

// Goes on behind all bytes of the extent that was met last.
fn pass_extent(size: u64, progress: &mut Progress)
    ensures { progress.new ≡ after_end size progress.old }
{
    if u128::from(size) <= progress.end {
        progress.at = size;
        progress.todo = Todo::Over;
        return;
    }
    progress.at = progress.end as u64;
    progress.todo = Todo::Next;
}

// .. and behind the first of some sectors.
fn pass_sector(size: u64, progress: &mut Progress, part: &SectorPart)
    requires { FitsTodo size progress.old.at progress.old.end (Todo.Sectors part.now) }
    ensures { progress.new ≡ after_sector size progress.old part.now }
{
    if part.count <= 1 {
        pass_extent(size, progress);
        return;
    }
    let start = part.start + 4096;
    progress.at = start;
    progress.todo = Todo::Sectors(SectorPart {
        start,
        addr: part.addr + 4096,
        count: part.count - 1,
    });
}

// Whether an item of a leaf is an inline extent of so many bytes.
fn has_inline(block: &[u8], at: usize, len: u64) -> bool
    requires header { 101 ≤ length block.now }
    requires good { IsTrue (is_leaf block.now) }
    requires there { at < length (items block.now) }
    ensures { IsTrue result ↔ (length (body_at block.now at) ≡ 21 + len) }
{
    let body = Leaf::of(block).body(at);
    body.len() >= 21 && (body.len() - 21) as u64 == len
}

// Gives the bytes of an inline extent, which is read again, and goes on behind them.
fn give_inline<R: Rack>(
    source: &Source,
    progress: &mut Progress,
    part: &InlinePart,
    rack: &mut R,
    vol: &mut Volume,
) -> Result<Shown, TreeFault>
    requires serves { Serves (R.seen rack.old) vol.old.store }
    requires room { 4 ≤ free_count vol.old.store }
    requires underway { IsUnderway source.now progress.old }
    requires todo { progress.old.todo ≡ Todo.Inline part.now }
    requires begun { progress.old.at ≡ part.now.start }
    ensures serves { Serves (R.seen rack.new) vol.new.store }
    ensures reads { OnlyReads (R.seen rack.old) (R.seen rack.new) }
    ensures sup { vol.new.sup ≡ vol.old.sup }
    ensures lent { LendsStep vol.old.store vol.new.store result }
    ensures on { IfOk result (StepsOn source.now progress.old progress.new) }
    ensures stays { OnErr result (progress.new ≡ progress.old) }
    ensures cause { HasCause vol.old.store.layout (R.seen rack.old) (R.seen rack.new) result }
    ensures content { TellsStep vol.old (R.seen rack.old) (R.seen rack.new) source.now
        progress.old progress.new vol.new.store result }
{
    let MetAgain { loan, at } = progress.rest.met_again(rack, &mut vol.store)?;
    if !has_inline(vol.store.bytes(&loan), at, part.len) {
        vol.store.give(loan);
        return Err(TreeFault::Malformed(part.leaf));
    }
    let len = (source.size - part.start).min(part.len) as usize;
    pass_extent(source.size, progress);
    Ok(Shown::Bytes(loan, Span::Inline { at, len }))
}

// Gives the first of some sectors, and goes on behind it.
fn give_sector<R: Rack>(
    source: &Source,
    progress: &mut Progress,
    part: &SectorPart,
    ahead: &mut SumsAhead,
    rack: &mut R,
    vol: &mut Volume,
) -> Result<Shown, TreeFault>
    requires serves { Serves (R.seen rack.old) vol.old.store }
    requires room { 4 ≤ free_count vol.old.store }
    requires underway { IsUnderway source.now progress.old }
    requires todo { progress.old.todo ≡ Todo.Sectors part.now }
    requires begun { progress.old.at ≡ part.now.start }
    ensures serves { Serves (R.seen rack.new) vol.new.store }
    ensures reads { OnlyReads (R.seen rack.old) (R.seen rack.new) }
    ensures sup { vol.new.sup ≡ vol.old.sup }
    ensures lent { LendsStep vol.old.store vol.new.store result }
    ensures on { IfOk result (StepsOn source.now progress.old progress.new) }
    ensures stays { OnErr result (progress.new ≡ progress.old) }
    ensures cause { HasCause vol.old.store.layout (R.seen rack.old) (R.seen rack.new) result }
    ensures content { TellsSummed vol.old (R.seen rack.old) (R.seen rack.new) source.now
        ahead.old ahead.new progress.old progress.new vol.new.store result }
{
    let want = want_of(source, part.addr, ahead, rack, vol)?;
    let loan = read_sector(&want, rack, &mut vol.store)?;
    let left = source.size - part.start;
    let len = left.min(vol.store.bytes(&loan).len() as u64) as usize;
    let verified = is_tested(&want);
    let crc = crc_of(&want, len);
    pass_sector(source.size, progress, part);
    Ok(Shown::Bytes(loan, Span::Sector { len, verified, crc }))
}

// Gives the next piece of what is at hand, and goes on behind it.
fn give<R: Rack>(
    source: &Source,
    progress: &mut Progress,
    ahead: &mut SumsAhead,
    rack: &mut R,
    vol: &mut Volume,
) -> Result<Option<Shown>, TreeFault>
    requires serves { Serves (R.seen rack.old) vol.old.store }
    requires room { 4 ≤ free_count vol.old.store }
    requires underway { IsUnderway source.now progress.old }
    requires found { IsFound progress.old.todo }
    ensures serves { Serves (R.seen rack.new) vol.new.store }
    ensures reads { OnlyReads (R.seen rack.old) (R.seen rack.new) }
    ensures sup { vol.new.sup ≡ vol.old.sup }
    ensures lent { LendsNext vol.old.store vol.new.store result }
    ensures on { NextStepsOn source.now progress.old progress.new result }
    ensures cause { HasCause vol.old.store.layout (R.seen rack.old) (R.seen rack.new) result }
    ensures content { TellsNextStep vol.old (R.seen rack.old) (R.seen rack.new) source.now
        ahead.old ahead.new progress.old progress.new vol.new.store result }
{
    let zeros = zeros_at(source.size, progress);
    if zeros > 0 {
        progress.at += zeros;
        return Ok(Some(Shown::Gap(zeros)));
    }
    match progress.todo {
        Todo::Next => unreachable!(),
        Todo::Over => Ok(None),
        Todo::Inline(part) => Ok(Some(give_inline(source, progress, &part, rack, vol)?)),
        Todo::Sectors(part) => Ok(Some(give_sector(source, progress, &part, ahead, rack, vol)?)),
    }
}

// Gives the next piece, and goes on behind it. After a fault the file is given as far as it was.
fn next_step<R: Rack>(
    source: &Source,
    progress: &mut Progress,
    ahead: &mut SumsAhead,
    rack: &mut R,
    vol: &mut Volume,
) -> Result<Option<Shown>, TreeFault>
    requires serves { Serves (R.seen rack.old) vol.old.store }
    requires room { 4 ≤ free_count vol.old.store }
    requires underway { IsUnderway source.now progress.old }
    ensures serves { Serves (R.seen rack.new) vol.new.store }
    ensures reads { OnlyReads (R.seen rack.old) (R.seen rack.new) }
    ensures sup { vol.new.sup ≡ vol.old.sup }
    ensures lent { LendsNext vol.old.store vol.new.store result }
    ensures on { NextStepsOn source.now progress.old progress.new result }
    ensures cause { HasCause vol.old.store.layout (R.seen rack.old) (R.seen rack.new) result }
    ensures content { TellsNextStep vol.old (R.seen rack.old) (R.seen rack.new) source.now
        ahead.old ahead.new progress.old progress.new vol.new.store result }
{
    match progress.todo {
        Todo::Next => {
            let mut next = find_next(source, progress, rack, &mut vol.store)?;
            let shown = give(source, &mut next, ahead, rack, vol)?;
            *progress = next;
            Ok(shown)
        }
        _ => give(source, progress, ahead, rack, vol),
    }
}

// The piece whose bytes stand in a block.
fn piece_in(block: &[u8], span: Span) -> Piece<'_>
    requires { IsSpan block.now span }
    ensures piece { piece_of result ≡ span_piece block.now span }
    ensures some { IsPiece result }
{
    match span {
        Span::Inline { at, len } => {
            let body = Leaf::of(block).body(at);
            Piece::Bytes {
                bytes: &FileExtent::inline_data(body)[..len],
                verified: true,
                crc: None,
            }
        }
        Span::Sector { len, verified, crc } => Piece::Bytes {
            bytes: &block[..len],
            verified,
            crc,
        },
    }
}

/// Answers the next piece of a file, whose bytes stand in the slot of the file's loan; `None` exactly after the last. It takes no memory. Five slots are
/// free besides that of the piece before, which is given back.
///
/// The faults are those of the blocks that are wanted, in their order: of the leaves of the file's extents, of the checksum tree, and of the sectors.
/// `Lost`, `Unread`, `Unmapped` and `Crosses` of a block, and `Malformed` where a tree's block breaks a rule, doesn't fit its place, or has an item that
/// breaks its form, an extent that begins before the end of the one before, or one that is compressed or encoded. After a fault and after the last
/// piece no loan is kept; after a fault the next call goes on from the same place.
pub fn next_piece<'e, R: Rack>(
    vol: &'e mut Volume,
    file: &mut FileBytes,
    rack: &mut R,
) -> Result<Option<Piece<'e>>, TreeFault>
    requires ready { IsReading (R.seen rack.old) vol.old.store file.old }
    requires room { 5 ≤ free_count (without_file vol.old.store file.old) }
    ensures* after { sem 𝓛 (StreamEnds vol.entry file.old file.new (R.seen rack.old) (R.seen rack.new) result) }
    ensures reads { OnlyReads (R.seen rack.old) (R.seen rack.new) }
    ensures same { SameFile file.old file.new }
    ensures rank_falls { PieceRankFalls file.old file.new result }
    ensures some { IfOk result (λ found. IfSome found IsPiece) }
    ensures cause { HasCause vol.old.store.layout (R.seen rack.old) (R.seen rack.new) result }
{
    let loan = file.loan.take();
    give_back(&mut vol.store, loan);
    match next_step(&file.source, &mut file.progress, &mut file.ahead, rack, vol) {
        Err(fault) => {
            file.ahead = SumsAhead::new();
            Err(fault)
        }
        Ok(None) => Ok(None),
        Ok(Some(shown)) => match shown {
            Shown::Gap(count) => Ok(Some(Piece::Gap(count))),
            Shown::Bytes(loan, span) => {
                keep(&mut file.loan, loan);
                let Some(held) = &file.loan else {
                    unreachable!();
                };
                Ok(Some(piece_in(vol.store.bytes(held), span)))
            }
        },
    }
}
