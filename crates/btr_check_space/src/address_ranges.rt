// Ranges of addresses, and whether one of them holds another range.
ghost use Rattle.std.specs.Prelude.{◌≡◌, ◌+◌, ◌<◌, ◌≤◌, ◌^◌, length};
ghost use Rattle.std.specs.List.Sorted.{IsNonDecreasingBy};
ghost use Rattle.btr_check_space.specs.declared.address_ranges.AddressRange.{AddressRange};
ghost use Rattle.btr_check_space.specs.AddressRanges.{HoldSame, AscendAtBothEnds, HoldsUpTo, end_before, end_of, is_held_from, lengthened, start_behind};

use std::marker::Model;

/// A range of addresses, which may end at 2^64 or behind.
#[derive(Clone, Copy, Debug, PartialEq, Eq, PartialOrd, Ord)]
pub struct AddressRange {
    /// The first address.
    pub start: u64,
    /// How many addresses there are.
    pub len: u64,
}

// The address behind the last.
fn end_of(range: &AddressRange) -> u128
    ensures { result ≡ end_of range.now }
{
    u128::from(range.start) + u128::from(range.len)
}

// A range as far as it or an earlier one reaches: the earlier one holds what is new of it.
fn lengthened(earlier: &AddressRange, range: &AddressRange) -> AddressRange
    requires { earlier.now.start ≤ range.now.start }
    ensures { result ≡ lengthened earlier.now range.now }
{
    let behind = range.start - earlier.start;
    AddressRange {
        start: range.start,
        len: range.len.max(earlier.len.saturating_sub(behind)),
    }
}

// Lengthens each range as far as the ones before it reach.
fn lengthen(ranges: &mut [AddressRange])
    requires { IsNonDecreasingBy (λ (range : AddressRange). range.start) ranges.old }
    ensures ascend { AscendAtBothEnds ranges.new }
    ensures same { HoldSame ranges.old ranges.new }
{
    let mut last = AddressRange { start: 0, len: 0 };
    for i in 0..ranges.len() {
        last = lengthened(&last, &ranges[i]);
        ranges[i] = last;
    }
}

/// How ranges of one length stand from an address on: whether one of some others holds them, and up to before which address that is the same.
#[derive(Clone, Copy, Debug, PartialEq, Eq)]
pub struct Reach {
    /// Whether they are held.
    pub held: bool,
    /// The first address at which it may be otherwise.
    pub until: u128,
}

// Where the last of the first ranges ends.
fn end_before(ranges: &[AddressRange], begun: usize) -> u128
    requires { begun ≤ length ranges.now }
    ensures { result ≡ end_before ranges.now begun }
{
    if begun == 0 {
        return 0;
    }
    end_of(&ranges[begun - 1])
}

// Where the first range behind them begins, if there is one.
fn start_behind(ranges: &[AddressRange], begun: usize) -> u128
    ensures { result ≡ start_behind ranges.now begun }
{
    if begun < ranges.len() {
        u128::from(ranges[begun].start)
    } else {
        u128::MAX
    }
}

// How ranges of a length stand from an address on.
fn reach_in(ranges: &[AddressRange], start: u128, len: u64) -> Reach
    requires ascend { AscendAtBothEnds ranges.now }
    requires start { start < 2 ^ 127 }
    requires len { 0 < len }
    ensures { HoldsUpTo (is_held_from len ranges.now) start result }
{
    let begun = ranges.partition_point(|range| u128::from(range.start) <= start);
    let end = end_before(ranges, begun);
    if start + u128::from(len) <= end {
        let until = end - u128::from(len) + 1;
        Reach { held: true, until }
    } else {
        let until = start_behind(ranges, begun);
        Reach { held: false, until }
    }
}

/// Ranges of addresses, by which is looked up whether one of some others, which may overlap, holds a range. That takes a number of steps that
/// grows as the logarithm of their number.
#[derive(Drop)]
pub struct AddressRanges {
    ranges: Vec<AddressRange>,
}

impl Model for AddressRanges {
    ghost use Rattle.std.specs.Prelude.{List};
    ghost use Rattle.btr_check_space.specs.declared.address_ranges.AddressRange.{AddressRange};
    ghost use Rattle.btr_check_space.specs.AddressRanges.{AscendAtBothEnds};

    ghost Value = { List AddressRange };

    ghost view = { λ all. all.ranges.items };

    ghost invariant = { λ all. AscendAtBothEnds all.ranges.items };
}

impl AddressRanges {
    ghost use Rattle.std.specs.Prelude.{◌≡◌, ◌<◌, ◌^◌};
    ghost use Rattle.std.specs.List.{list_any};
    ghost use Rattle.btr_check_space.specs.AddressRanges.{HoldSame, HoldsUpTo, is_held, is_held_from};

    /// These ranges, in whatever order they are.
    pub fn new(mut ranges: Vec<AddressRange>) -> AddressRanges
        ensures { HoldSame ranges.items result }
    {
        ranges.sort_unstable_by_key(|range| range.start);
        lengthen(&mut ranges);
        AddressRanges { ranges }
    }

    /// Whether one of the ranges holds the one from `start` up to before `end`.
    pub fn holds(&self, start: u128, end: u128) -> bool
        ensures { result ≡ list_any (is_held start end) self.now }
    {
        let begun = self
            .ranges
            .partition_point(|range| u128::from(range.start) <= start);
        if begun == 0 {
            return false;
        }
        end <= end_of(&self.ranges[begun - 1])
    }

    /// Whether one of the ranges holds the `len` addresses from `start` on, and up to before which start that is the same.
    pub fn reach(&self, start: u128, len: u64) -> Reach
        requires start { start < 2 ^ 127 }
        requires len { 0 < len }
        ensures { HoldsUpTo (is_held_from len self.now) start result }
    {
        reach_in(self.ranges.as_slice(), start, len)
    }
}
