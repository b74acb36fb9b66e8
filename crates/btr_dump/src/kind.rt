// The kind of a volume's checksums.
ghost use Rattle.std.specs.Prelude.{◌≡◌};
ghost use Rattle.btr_dump.specs.Pieces.{kind_in};

use btr_base::SumKind;
use btr_super::Super;

/// The kind of the checksums of a volume, whose type is one that is read.
pub(crate) fn kind_in(s: &Super) -> SumKind
    ensures { result ≡ kind_in s.now }
{
    match SumKind::from_type(s.csum_type) {
        Some(kind) => kind,
        None => SumKind::Crc32c,
    }
}
