// How chunks lie on their stripes, and what their elements hold, said anew: the places are written out by hand, and the
// parities are sums over the field.

pub(crate) const START: u64 = 16777216;

pub(crate) const ELEMENT: u64 = 65536;

pub(crate) const MIB: u64 = 1048576;

/// How a chunk lies on its stripes, which are dealt out to the devices in turn. Each row has a letter for each stripe:
/// a digit is the slice of this number, and P and Q are the parities.
#[derive(Clone, Copy)]
pub(crate) struct Shape {
    pub(crate) kind: u64,
    pub(crate) devices: u64,
    pub(crate) stripes: u16,
    pub(crate) slices: u64,
    pub(crate) rows: &'static [&'static [u8]],
}

pub(crate) const SINGLE: Shape = Shape {
    kind: 0x1,
    devices: 1,
    stripes: 1,
    slices: 1,
    rows: &[b"0", b"0"],
};

pub(crate) const DUP: Shape = Shape {
    kind: 0x21,
    devices: 1,
    stripes: 2,
    slices: 1,
    rows: &[b"00", b"00"],
};

pub(crate) const RAID0: Shape = Shape {
    kind: 0x9,
    devices: 3,
    stripes: 3,
    slices: 3,
    rows: &[b"012", b"012"],
};

pub(crate) const RAID1: Shape = Shape {
    kind: 0x11,
    devices: 2,
    stripes: 2,
    slices: 1,
    rows: &[b"00", b"00"],
};

pub(crate) const RAID1C3: Shape = Shape {
    kind: 0x201,
    devices: 3,
    stripes: 3,
    slices: 1,
    rows: &[b"000", b"000"],
};

pub(crate) const RAID1C4: Shape = Shape {
    kind: 0x401,
    devices: 4,
    stripes: 4,
    slices: 1,
    rows: &[b"0000", b"0000"],
};

pub(crate) const RAID10_ON_TWO: Shape = Shape {
    kind: 0x41,
    devices: 2,
    stripes: 2,
    slices: 1,
    rows: &[b"00", b"00"],
};

pub(crate) const RAID10: Shape = Shape {
    kind: 0x41,
    devices: 4,
    stripes: 4,
    slices: 2,
    rows: &[b"0011", b"0011"],
};

pub(crate) const RAID10_ON_SIX: Shape = Shape {
    kind: 0x41,
    devices: 6,
    stripes: 6,
    slices: 3,
    rows: &[b"001122", b"001122"],
};

pub(crate) const RAID5_ON_TWO: Shape = Shape {
    kind: 0x81,
    devices: 2,
    stripes: 2,
    slices: 1,
    rows: &[b"0P", b"P0", b"0P"],
};

pub(crate) const RAID5: Shape = Shape {
    kind: 0x81,
    devices: 4,
    stripes: 4,
    slices: 3,
    rows: &[b"012P", b"P012", b"2P01", b"12P0", b"012P"],
};

pub(crate) const RAID6_ON_THREE: Shape = Shape {
    kind: 0x101,
    devices: 3,
    stripes: 3,
    slices: 1,
    rows: &[b"0PQ", b"Q0P", b"PQ0", b"0PQ"],
};

pub(crate) const RAID6_ON_FOUR: Shape = Shape {
    kind: 0x101,
    devices: 4,
    stripes: 4,
    slices: 2,
    rows: &[b"01PQ", b"Q01P", b"PQ01", b"1PQ0"],
};

pub(crate) const RAID6: Shape = Shape {
    kind: 0x101,
    devices: 5,
    stripes: 5,
    slices: 3,
    rows: &[b"012PQ", b"Q012P", b"PQ012", b"2PQ01", b"12PQ0"],
};

pub(crate) const RAID6_OF_TEN: Shape = Shape {
    kind: 0x101,
    devices: 5,
    stripes: 10,
    slices: 8,
    rows: &[b"01234567PQ"],
};

pub(crate) const COPIES: [Shape; 9] = [
    SINGLE,
    DUP,
    RAID0,
    RAID1,
    RAID1C3,
    RAID1C4,
    RAID10_ON_TWO,
    RAID10,
    RAID10_ON_SIX,
];

pub(crate) const PARITIES: [Shape; 5] = [RAID5_ON_TWO, RAID5, RAID6_ON_THREE, RAID6_ON_FOUR, RAID6];

impl Shape {
    /// The device that a stripe lies on.
    pub(crate) fn device_of(&self, stripe: u64) -> u64 {
        if self.devices == 0 {
            return 0;
        }
        stripe % self.devices
    }

    /// The set of the stripes that lie on a set of devices.
    pub(crate) fn stripes_on(&self, devices: u32) -> u32 {
        let mut stripes = 0;
        for stripe in 0..u64::from(self.stripes) {
            if contains(devices, self.device_of(stripe)) {
                stripes |= set_of(stripe);
            }
        }
        stripes
    }

    /// The letters of a row, and none of a row that isn't there.
    pub(crate) fn letters(&self, row: u64) -> &'static [u8] {
        match self.rows.get(row as usize) {
            Some(letters) => letters,
            None => &[],
        }
    }

    /// Whether a slice of a row can be had where the elements on some stripes can't.
    pub(crate) fn survives(&self, row: u64, slice: u64, lost: u32) -> bool {
        survives(self.letters(row), slice, lost)
    }

    /// The address of the data in a slice of a row. It has another place in the elements of each row.
    pub(crate) fn addr(&self, row: u64, slice: u64) -> u64 {
        let element = row.wrapping_mul(self.slices).wrapping_add(slice);
        START
            .wrapping_add(element.wrapping_mul(ELEMENT))
            .wrapping_add(rest(row))
    }

    /// The data in a slice of a row.
    pub(crate) fn slice(&self, row: u64, slice: u64) -> [u8; 4096] {
        noise(row.wrapping_mul(self.slices).wrapping_add(slice))
    }

    /// What the element with a letter holds in a row.
    pub(crate) fn element(&self, row: u64, letter: u8) -> [u8; 4096] {
        match letter {
            b'P' => self.parity(row, false),
            b'Q' => self.parity(row, true),
            digit => self.slice(row, number(digit)),
        }
    }

    // The sum of the slices of a row: for Q by Horner's rule, each slice times 2 to the power of its number.
    fn parity(&self, row: u64, weighted: bool) -> [u8; 4096] {
        let mut parity = [0; 4096];
        for behind in 0..self.slices {
            let slice = self.slice(row, self.slices - 1 - behind);
            for i in 0..4096usize {
                let sum = parity[i];
                parity[i] = slice[i] ^ if weighted { doubled(sum) } else { sum };
            }
        }
        parity
    }
}

/// Whether a set of numbers below 32 contains one.
pub(crate) fn contains(set: u32, number: u64) -> bool {
    set & set_of(number) != 0
}

/// The set of one number below 32.
pub(crate) fn set_of(number: u64) -> u32 {
    1u32.wrapping_shl((number % 32) as u32)
}

/// The slice of a digit.
pub(crate) fn number(digit: u8) -> u64 {
    u64::from(digit.wrapping_sub(b'0'))
}

/// Whether a slice of a row can be had where the elements on some stripes can't: where a copy is left, or where there
/// are no more of them than parities.
pub(crate) fn survives(letters: &[u8], slice: u64, lost: u32) -> bool {
    let mut parities = 0u32;
    for (stripe, letter) in letters.iter().enumerate() {
        if matches!(*letter, b'P' | b'Q') {
            parities = parities.wrapping_add(1);
        } else if number(*letter) == slice && !contains(lost, stripe as u64) {
            return true;
        }
    }
    lost.count_ones() <= parities
}

/// Twice a number of the field with the polynomial 11Dh.
pub(crate) fn doubled(number: u8) -> u8 {
    let shifted = number << 1;
    if number & 0x80 == 0 {
        shifted
    } else {
        shifted ^ 0x1d
    }
}

/// Bytes that look random, and differ by the seed.
pub(crate) fn noise(seed: u64) -> [u8; 4096] {
    let mut bytes = [0; 4096];
    let mut state = seed.wrapping_add(1).wrapping_mul(0x9e3779b97f4a7c15);
    for byte in bytes.iter_mut() {
        state = state
            .wrapping_mul(6364136223846793005)
            .wrapping_add(1442695040888963407);
        *byte = state.to_le_bytes()[7];
    }
    bytes
}

// The place of the data in the elements of a row.
fn rest(row: u64) -> u64 {
    row.wrapping_mul(20480) % ELEMENT
}

/// Where a stripe begins on its device.
pub(crate) fn stripe_start(stripe: u64) -> u64 {
    stripe.wrapping_add(1).wrapping_mul(MIB)
}

/// Where the data of a row lies on the device of a stripe.
pub(crate) fn place_of(row: u64, stripe: u64) -> u64 {
    stripe_start(stripe)
        .wrapping_add(row.wrapping_mul(ELEMENT))
        .wrapping_add(rest(row))
}
