use btr_chunk::{Part, Profile};

// What a row consists of.
#[derive(Clone, Copy, Debug, PartialEq, Eq)]
pub(crate) struct Shape {
    pub(crate) profile: Profile,
    // How many slices of data.
    pub(crate) slices: u32,
}

impl Shape {
    ghost use Rattle.std.specs.Prelude.{◌≡◌, ◌+◌, ◌≤◌, length, None};
    ghost use Rattle.btr_chunk.specs.Chunk.{mirror_count};
    ghost use Rattle.btr_scrub_row.specs.Rows.{parities};
    ghost use Rattle.btr_scrub_row.specs.Memory.{part_at};

    // How many elements.
    pub(crate) fn elements(&self) -> u32
        requires few { self.now.slices ≤ 63 }
        requires parity { mirror_count self.now.profile 0 ≡ None }
        ensures { result ≡ self.now.slices + length (parities self.now.profile) }
    {
        match self.profile {
            Profile::Raid6 => self.slices + 2,
            _ => self.slices + 1,
        }
    }

    // The part whose element has a number.
    pub(crate) fn part(&self, element: u32) -> Part
        ensures { result ≡ part_at self.now.slices element }
    {
        if element < self.slices {
            Part::Slice(element)
        } else if element == self.slices {
            Part::P
        } else {
            Part::Q
        }
    }
}
