ghost use Rattle.std.specs.Prelude.{◌≡◌, ℕ, ◌+◌, ◌<◌, slice_get, Some};
ghost use Rattle.btr_read.specs.Candidates.{rebuilt};
ghost use Rattle.btr_read.specs.Comparing.{lesser};
ghost use Rattle.btr_read.specs.Sought.{IsInPlace, IsOneParity, IsTwoParities};

use crate::Want;
use crate::candidate::Candidate;
use crate::device::{Member, any_older, find_device};
use crate::setting::Setting;
use btr_chunk::{Chunk, Elements, Part, Profile, place_of};
use btr_rack::Place;
use std::marker::Model;

/// What is sought: the bytes of a want at its position in a chunk, on the devices that are given.
#[derive(Drop)]
pub(crate) struct Search<'a> {
    pub(crate) want: &'a Want,
    pub(crate) setting: Setting,
    pub(crate) chunk: &'a Chunk,
    pub(crate) at: Elements,
    pub(crate) devices: &'a [Member],
}

impl<'a> Model for Search<'a> {
    ghost use Rattle.btr_read.specs.Candidates.{Target};
    ghost use Rattle.btr_read.specs.Sought.{IsTarget};

    ghost Value = { Target };

    ghost view = { λ s. record { want = s.want.now; setting = s.setting; chunk = s.chunk.now; at = s.at; devices = s.devices.now } };

    ghost invariant = { λ s. IsTarget s.setting s.chunk.now s.at };
}

impl Search<'_> {
    ghost use Rattle.std.specs.Prelude.{◌≡◌, ◌<◌, ◌≤◌, ◌&&◌, ◌↔◌, IsTrue, true, length, slice_get, Some, IsNone};
    ghost use Rattle.btr_chunk.specs.Mapping.{HasPart};
    ghost use Rattle.btr_read.specs.Want.{passes};
    ghost use Rattle.btr_chunk.specs.declared.place.Part.{Part};
    ghost use Rattle.btr_chunk.specs.Chunk.{mirror_count};
    ghost use Rattle.btr_read.specs.Candidates.{size_of, range_of, ways, candidates, slice_count, slices_read, reads_slice, reads_older, is_on_older};
    ghost use Rattle.btr_read.specs.Candidates.{parts_stand, stands, lacks_slice};
    ghost use Rattle.btr_read.specs.Comparing.{least_of, least_slot};
    ghost use Rattle.btr_read.specs.Order.{FitsAmong, IsWayAt};
    ghost use Rattle.std.specs.List.{list_any};
    ghost use Rattle.btr_read.specs.Sought.{CanTry, IsByParities, IsRebuilt, parities_read};
    ghost use Rattle.btr_read.specs.Gathering.{IsOfRow, RowStands};

    // How many bytes are sought.
    pub(crate) fn size(&self) -> usize
        ensures value { result ≡ size_of self.now }
        ensures few { result ≤ 65536 }
    {
        self.setting.len(self.want)
    }

    // Whether a reading passes.
    pub(crate) fn passes(&self, bytes: &[u8]) -> bool
        requires { length bytes.now ≡ size_of self.now }
        ensures { result ≡ passes self.now.setting self.now.want bytes.now }
    {
        self.setting.passes(self.want, bytes)
    }

    // Where the bytes of a part lie, if its device is given and they lie in its image.
    pub(crate) fn range(&self, part: Part) -> Option<Place>
        requires { HasPart self.now.chunk.profile (length self.now.chunk.stripes) part }
        ensures { result ≡ range_of self.now part }
    {
        let place = place_of(self.chunk, part, &self.at);
        let device = find_device(self.devices, place.devid)?;
        let len = self.size() as u64;
        if place.offset > device.len || len > device.len - place.offset {
            return None;
        }
        Some(Place {
            slot: device.slot,
            off: place.offset,
            len,
        })
    }

    // How many data slices the row has.
    pub(crate) fn slice_count(&self) -> u32
        requires { IsNone (mirror_count self.now.chunk.profile (length self.now.chunk.stripes)) }
        ensures value { result ≡ slice_count self.now }
        ensures few { result ≤ 63 }
        ensures sought { self.now.at.index < result }
    {
        let parities = match self.chunk.profile {
            Profile::Raid6 => 2,
            _ => 1,
        };
        self.chunk.stripes.len() as u32 - parities
    }

    // Which of them is sought.
    pub(crate) fn index(&self) -> u32
        ensures { result ≡ self.now.at.index }
    {
        self.at.index
    }

    // Whether a candidate by parities stands.
    pub(crate) fn stands(&self, candidate: Candidate) -> bool
        requires { IsRebuilt self.now candidate }
        ensures { result ≡ stands self.now candidate }
    {
        self.parities_stand(candidate) && self.slices_stand(candidate)
    }

    // Whether the parities stand that a candidate reads.
    fn parities_stand(&self, candidate: Candidate) -> bool
        requires { IsRebuilt self.now candidate }
        ensures { result ≡ parts_stand self.now (parities_read candidate) }
    {
        match candidate {
            Candidate::Read(_) => true,
            Candidate::ByP => self.range(Part::P).is_some(),
            Candidate::ByQ => self.range(Part::Q).is_some(),
            Candidate::ByBoth(_) => self.range(Part::P).is_some() && self.range(Part::Q).is_some(),
        }
    }

    // Whether the slices stand that a candidate reads.
    fn slices_stand(&self, candidate: Candidate) -> bool
        requires { IsRebuilt self.now candidate }
        ensures { result ≡ parts_stand self.now (slices_read (slice_count self.now) self.now.at.index candidate) }
    {
        for slice in 0..self.slice_count() {
            if self.lacks(candidate, slice) {
                return false;
            }
        }
        true
    }

    // Whether a candidate by parities reads a slice.
    pub(crate) fn reads(&self, candidate: Candidate, slice: u32) -> bool
        ensures { result ≡ reads_slice self.now.at.index candidate slice }
    {
        candidate.reads_slice(self.at.index, slice)
    }

    // Whether a candidate by parities reads a slice that doesn't stand.
    fn lacks(&self, candidate: Candidate, slice: u32) -> bool
        requires { HasPart self.now.chunk.profile (length self.now.chunk.stripes) (Part.Slice slice) }
        ensures { result ≡ lacks_slice self.now candidate slice }
    {
        self.reads(candidate, slice) && !self.range(Part::Slice(slice)).is_some()
    }

    // How many candidates there are.
    pub(crate) fn candidate_count(&self) -> u32
        ensures { result ≡ length (candidates self.now) }
    {
        self.way_count()
    }

    // How many ways there are to get the bytes.
    fn way_count(&self) -> u32
        ensures { result ≡ length (ways self.now) }
    {
        match self.chunk.mirrors() {
            Some(copies) => copies,
            None => match self.chunk.profile {
                Profile::Raid6 => self.chunk.stripes.len() as u32,
                _ => 2,
            },
        }
    }

    // Whether the chunk has P and Q, and no candidate reads an older image.
    pub(crate) fn is_by_syndromes(&self) -> bool
        ensures profile { IsTrue result → self.now.chunk.profile ≡ Profile.Raid6 }
        ensures order { IsTrue result → candidates self.now ≡ ways self.now }
    {
        matches!(self.chunk.profile, Profile::Raid6) && self.reads_none_older()
    }

    // Whether P, Q and all slices but the one that is sought stand.
    pub(crate) fn row_stands(&self) -> bool
        requires { self.now.chunk.profile ≡ Profile.Raid6 }
        ensures { result ≡ true → RowStands self.now Candidate.ByP }
    {
        self.stands(Candidate::ByP) && self.stands(Candidate::ByQ)
    }

    // The place of the candidate that doesn't read a part.
    pub(crate) fn without(&self, part: Part) -> u32
        requires profile { self.now.chunk.profile ≡ Profile.Raid6 }
        requires part { IsOfRow self.now Candidate.ByP part }
        ensures { result < length (candidates self.now) }
    {
        match part {
            Part::Mirror(_) => unreachable!(),
            Part::P => 2,
            Part::Q => 1,
            Part::Slice(slice) => {
                if slice < self.at.index {
                    slice + 3
                } else {
                    slice + 2
                }
            }
        }
    }

    // The way at a place in their order.
    fn way(&self, k: u32) -> Candidate
        requires { k < length (ways self.now) }
        ensures value { slice_get (ways self.now) k ≡ Some result }
        ensures parts { CanTry self.now result }
    {
        match self.chunk.profile {
            Profile::Raid5 => by_one_parity(self.at.index, k),
            Profile::Raid6 => by_two_parities(self.at.index, k),
            _ => Candidate::Read(Part::Mirror(k)),
        }
    }

    // The candidate at a place in their order.
    pub(crate) fn candidate(&self, k: u32) -> Candidate
        requires { k < length (candidates self.now) }
        ensures value { slice_get (candidates self.now) k ≡ Some result }
        ensures parts { CanTry self.now result }
        ensures behind { candidates self.now ≡ ways self.now → self.now.chunk.profile ≡ Profile.Raid6 → 0 < k → IsByParities result }
    {
        self.way(self.way_at(k))
    }

    // Which of the ways the candidate at a place in their order is, if there are so many.
    pub(crate) fn way_at(&self, k: u32) -> u32
        ensures { IsWayAt k result self.now }
    {
        if !any_older(self.devices) {
            return k;
        }
        match self.way_among(false, k) {
            Ok(way) => way,
            Err(left) => match self.way_among(true, left) {
                Ok(way) => way,
                Err(_) => k,
            },
        }
    }

    // Whether no candidate reads an older image.
    fn reads_none_older(&self) -> bool
        ensures { IsTrue result → candidates self.now ≡ ways self.now }
    {
        if !any_older(self.devices) {
            return true;
        }
        matches!(self.way_among(true, 0), Err(_))
    }

    // The way of a number among those that read an older image, or that don't; or how many are left of the number behind all
    // of them.
    fn way_among(&self, older: bool, mut number: u32) -> Result<u32, u32>
        ensures { FitsAmong self.now older number result }
    {
        for k in 0..self.way_count() {
            if self.reads_older(self.way(k)) == older {
                if number == 0 {
                    return Ok(k);
                }
                number -= 1;
            }
        }
        Err(number)
    }

    // Whether a candidate reads an older image.
    fn reads_older(&self, candidate: Candidate) -> bool
        requires { CanTry self.now candidate }
        ensures { result ≡ reads_older self.now candidate }
    {
        match candidate {
            Candidate::Read(part) => self.is_on_older(part),
            Candidate::ByP => self.is_on_older(Part::P) || self.reads_older_slice(Candidate::ByP),
            Candidate::ByQ => self.is_on_older(Part::Q) || self.reads_older_slice(Candidate::ByQ),
            Candidate::ByBoth(other) => {
                self.is_on_older(Part::P)
                    || self.is_on_older(Part::Q)
                    || self.reads_older_slice(Candidate::ByBoth(other))
            }
        }
    }

    // Whether a candidate by parities reads a slice of an older image.
    fn reads_older_slice(&self, candidate: Candidate) -> bool
        requires { IsRebuilt self.now candidate }
        ensures { result ≡ list_any (is_on_older self.now) (slices_read (slice_count self.now) self.now.at.index candidate) }
    {
        for slice in 0..self.slice_count() {
            if self.reads(candidate, slice) && self.is_on_older(Part::Slice(slice)) {
                return true;
            }
        }
        false
    }

    // The smallest slot that a candidate reads, of the images that are given.
    pub(crate) fn least_slot(&self, candidate: Candidate) -> Option<usize>
        requires { CanTry self.now candidate }
        ensures { result ≡ least_slot self.now candidate }
    {
        match candidate {
            Candidate::Read(part) => lesser(None, self.range(part)),
            Candidate::ByP => self.least_slice(Candidate::ByP, lesser(None, self.range(Part::P))),
            Candidate::ByQ => self.least_slice(Candidate::ByQ, lesser(None, self.range(Part::Q))),
            Candidate::ByBoth(other) => {
                let parities = lesser(lesser(None, self.range(Part::P)), self.range(Part::Q));
                self.least_slice(Candidate::ByBoth(other), parities)
            }
        }
    }

    // The smallest one of a slot and those of the slices that a candidate reads.
    fn least_slice(&self, candidate: Candidate, mut least: Option<usize>) -> Option<usize>
        requires { IsRebuilt self.now candidate }
        ensures { result ≡ least_of self.now least (slices_read (slice_count self.now) self.now.at.index candidate) }
    {
        for slice in 0..self.slice_count() {
            if self.reads(candidate, slice) {
                least = lesser(least, self.range(Part::Slice(slice)));
            }
        }
        least
    }

    // Whether a part lies on a device whose image is older.
    fn is_on_older(&self, part: Part) -> bool
        requires { HasPart self.now.chunk.profile (length self.now.chunk.stripes) part }
        ensures { result ≡ is_on_older self.now part }
    {
        match find_device(self.devices, place_of(self.chunk, part, &self.at).devid) {
            Some(device) => device.older,
            None => false,
        }
    }
}

// The smaller one of a slot and the slot of a range, where there are such.
fn lesser(least: Option<usize>, range: Option<Place>) -> Option<usize>
    ensures { result ≡ lesser least range }
{
    match (least, range) {
        (least, None) => least,
        (None, Some(range)) => Some(range.slot),
        (Some(slot), Some(range)) => Some(slot.min(range.slot)),
    }
}

// The candidate at a place in their order, for slice `index` of a row with P.
fn by_one_parity(index: u32, k: u32) -> Candidate
    requires { k < 2 }
    ensures value { (slices : ℕ) → slice_get (rebuilt Profile.Raid5 slices index) k ≡ Some result }
    ensures parts { IsOneParity index result }
{
    if k == 0 {
        Candidate::Read(Part::Slice(index))
    } else {
        Candidate::ByP
    }
}

// The candidate at a place in their order, for slice `index` of a row with P and Q.
fn by_two_parities(index: u32, k: u32) -> Candidate
    ensures value { IsInPlace index k result }
    ensures parts { (slices : ℕ) → index < slices → k < slices + 2 → IsTwoParities slices index result }
{
    match k {
        0 => Candidate::Read(Part::Slice(index)),
        1 => Candidate::ByP,
        2 => Candidate::ByQ,
        _ => {
            let other = k - 3;
            Candidate::ByBoth(if other < index { other } else { other + 1 })
        }
    }
}
