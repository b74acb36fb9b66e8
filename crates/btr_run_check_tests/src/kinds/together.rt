// Several faults in one volume: those of trees are all found, and where there are such, no others.
use super::space::MORE_USED;
use super::trees::{LOST_DEVICES, LOST_FILES, LOST_SUMS, MALFORMED_FILES};
use super::{Case, Several};

const LOST: &[Case] = &[LOST_DEVICES, LOST_FILES, LOST_SUMS];

pub(super) const FOUND: &[Several] = &[
    Several {
        cases: LOST,
        text: b"lost 2129920\nlost 2146304\nlost 2162688\nfindings 3\n",
    },
    Several {
        cases: &[MALFORMED_FILES, LOST_SUMS],
        text: b"lost 2162688\nmalformed 2146304\nfindings 2\n",
    },
    Several {
        cases: &[LOST_FILES, MORE_USED],
        text: b"lost 2146304\nfindings 1\n",
    },
];
