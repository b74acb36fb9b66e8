// The newest of several superblocks.
ghost use Rattle.std.specs.Prelude.{◌≡◌, ◌<◌, length};
ghost use Rattle.btr_super.specs.Newest.{newest_index};

use crate::Super;

/// The index of the first of the superblocks with the greatest generation.
pub fn choose(supers: &[Super]) -> usize
    requires { 0 < length supers.now }
    ensures newest { newest_index supers.now ≡ result }
    ensures bound { result < length supers.now }
{
    let mut best = 0;
    for (i, s) in supers.iter().enumerate() {
        let newest = &supers[best];
        if newest.generation < s.generation {
            best = i;
        }
    }
    best
}
