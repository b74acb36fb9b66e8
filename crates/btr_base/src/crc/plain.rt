// The register bit by bit, which the faster forms are compared with.
ghost use Rattle.std.specs.Prelude.{◌≡◌};
ghost use Rattle.btr_base.specs.Crc.{register, shifted, shifted_by};

const POLYNOMIAL: u32 = 0x82F63B78;

// The register after one more bit that is 0.
fn shift(reg: u32) -> u32
    ensures { result ≡ shifted reg }
{
    if reg % 2 == 1 {
        POLYNOMIAL ^ (reg / 2)
    } else {
        reg / 2
    }
}

// The register after eight more bits that are 0.
#[tactic(auto, unfolding(crate::specs::Crc::shifted_by))]
fn shift_byte(reg: u32) -> u32
    ensures { result ≡ shifted_by 8 reg }
{
    shift(shift(shift(shift(shift(shift(shift(shift(reg))))))))
}

pub(crate) fn register_of(start: u32, bytes: &[u8]) -> u32
    ensures { result ≡ register start bytes.now }
{
    let mut reg = start;
    for byte in bytes {
        reg = shift_byte(reg ^ u32::from(*byte));
    }
    reg
}
