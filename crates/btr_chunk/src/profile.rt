/// How a chunk lies on its devices.
#[derive(Clone, Copy, Debug, PartialEq, Eq)]
pub enum Profile {
    /// One copy on one stripe.
    Single,
    /// Two copies, as a rule on one device.
    Dup,
    /// One copy, element by element over the stripes.
    Raid0,
    /// Two copies.
    Raid1,
    /// Three copies.
    Raid1c3,
    /// Four copies.
    Raid1c4,
    /// Two copies, element by element over pairs of stripes.
    Raid10,
    /// Data slices and one parity in each row, on stripes that turn from row to row.
    Raid5,
    /// Data slices and two parities in each row, on stripes that turn from row to row.
    Raid6,
}

impl Profile {
    ghost use Rattle.std.specs.Prelude.{◌≡◌, ◌<◌, true};
    ghost use Rattle.btr_chunk.specs.Chunk.{has_count, is_striped, data_count};

    // Whether it can have this number of stripes.
    pub(crate) fn has_count(self, count: u64) -> bool
        ensures { result ≡ has_count self count }
    {
        match self {
            Profile::Single => count == 1,
            Profile::Dup | Profile::Raid1 => count == 2,
            Profile::Raid1c3 => count == 3,
            Profile::Raid1c4 => count == 4,
            Profile::Raid0 => count >= 1,
            Profile::Raid10 => count >= 2 && count % 2 == 0,
            Profile::Raid5 => count >= 2,
            Profile::Raid6 => count >= 3,
        }
    }

    /// Whether its data lies on the stripes element by element.
    pub fn is_striped(self) -> bool
        ensures { result ≡ is_striped self }
    {
        matches!(
            self,
            Profile::Raid0 | Profile::Raid10 | Profile::Raid5 | Profile::Raid6
        )
    }

    // How many elements of data a row has.
    pub(crate) fn data_count(self, count: u64) -> u64
        requires { has_count self count ≡ true }
        ensures value { result ≡ data_count self count }
        ensures some { 0 < result }
    {
        match self {
            Profile::Raid0 => count,
            Profile::Raid10 => count / 2,
            Profile::Raid5 => count - 1,
            Profile::Raid6 => count - 2,
            _ => 1,
        }
    }
}
