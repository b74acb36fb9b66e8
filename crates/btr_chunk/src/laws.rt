// Laws of chunks and places: each holds for all chunks, and its body does nothing.
ghost use Rattle.std.specs.Prelude.{◌≡◌, ◌/◌, ◌<◌, length, slice_get, None, IfSome, IsSomeAnd, true, false};
ghost use Rattle.btr_chunk.specs.Chunk.{IsChunk, stripe_length, data_count, mirrors};
ghost use Rattle.btr_chunk.specs.Mapping.{HasPart, PartOn, IsPosition, IsInStripe, LieInOnePiece, holds, stripe_of, place_at, data_place};
ghost use Rattle.btr_chunk.specs.Table.{some_meet};
ghost use Rattle.btr_chunk.specs.Apart.{StripesApart, PartsApart, CopiesApart};

use crate::{Chunk, Elements, Part};

/// The number of data slices of RAID5 and RAID6 is the chunk's length divided by the length of its stripes.
pub fn slices_divide(chunk: &Chunk)
    requires { IsChunk chunk.now }
    ensures { chunk.now.length / stripe_length chunk.now
        ≡ data_count chunk.now.profile (length chunk.now.stripes) }
{}

/// The slices and parities of a row of RAID5 or RAID6 lie on different stripes.
pub fn parts_differ(chunk: &Chunk, row: &Elements, one: Part, other: Part)
    requires chunk { IsChunk chunk.now }
    requires parity { mirrors chunk.now ≡ None }
    requires one { HasPart chunk.now.profile (length chunk.now.stripes) one }
    requires other { HasPart chunk.now.profile (length chunk.now.stripes) other }
    ensures { stripe_of chunk.now.profile (length chunk.now.stripes) one row.now
        ≡ stripe_of chunk.now.profile (length chunk.now.stripes) other row.now
        → one ≡ other }
{}

/// The slices and parities of a row of RAID5 or RAID6 cover each stripe.
pub fn parts_cover(chunk: &Chunk, row: &Elements, stripe: usize)
    requires chunk { IsChunk chunk.now }
    requires parity { mirrors chunk.now ≡ None }
    requires stripe { stripe < length chunk.now.stripes }
    ensures { PartOn chunk.now.profile (length chunk.now.stripes) row.now stripe }
{}

/// The bytes of a part from a position on, as far as the position reaches, lie in the part's stripe.
pub fn place_inside(chunk: &Chunk, part: Part, at: &Elements, len: u64)
    requires chunk { IsChunk chunk.now }
    requires part { HasPart chunk.now.profile (length chunk.now.stripes) part }
    requires at { IsPosition chunk.now at.now }
    requires reach { LieInOnePiece chunk.now at.now len }
    ensures { IsSomeAnd
        (slice_get chunk.now.stripes (stripe_of chunk.now.profile (length chunk.now.stripes) part at.now))
        (λ stripe. IsInStripe (stripe_length chunk.now) stripe (place_at chunk.now part at.now) len) }
{}

/// Two addresses of a chunk whose own stripes are apart, as those of each chunk of a table are, never share a place in
/// one copy; nor do they in RAID5 and RAID6, among the data slices.
pub fn places_differ(chunk: &Chunk, copy: u32, one: u64, other: u64)
    requires chunk { IsChunk chunk.now }
    requires spread { some_meet (stripe_length chunk.now) chunk.now.stripes ≡ false }
    requires copy { IfSome (mirrors chunk.now) (λ copies. copy < copies) }
    requires one { holds chunk.now one ≡ true }
    requires other { holds chunk.now other ≡ true }
    ensures { data_place chunk.now copy one ≡ data_place chunk.now copy other → one ≡ other }
{}

/// Each byte of a device lies in one stripe of one chunk of a table at most.
pub fn stripes_apart()
    ensures { StripesApart }
{}

/// Each byte of a device is, at one offset, of one part of one row of one chunk of RAID5 or RAID6 at most.
pub fn parts_apart()
    ensures { PartsApart }
{}

/// Each byte of a device is that of one address in one copy of one chunk at most.
pub fn copies_apart()
    ensures { CopiesApart }
{}
