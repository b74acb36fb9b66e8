use btr_make::RowVolume;

/// The small volume of a name, and `None` where no volume has it.
pub fn row_of(name: &str) -> Option<RowVolume> {
    match name {
        "V1" => Some(RowVolume::V1),
        "V1d" => Some(RowVolume::V1d),
        "V2" => Some(RowVolume::V2),
        "Raid5" => Some(RowVolume::Raid5),
        "Raid6" => Some(RowVolume::Raid6),
        "S" => Some(RowVolume::S),
        "X2" => Some(RowVolume::X2),
        "X3" => Some(RowVolume::X3),
        "M1" => Some(RowVolume::M1),
        "N" => Some(RowVolume::N),
        "P" => Some(RowVolume::P),
        "Q" => Some(RowVolume::Q),
        "L" => Some(RowVolume::L),
        "M3" => Some(RowVolume::M3),
        "Rows5" => Some(RowVolume::Rows5),
        "Rows6" => Some(RowVolume::Rows6),
        "Differing" => Some(RowVolume::Differing),
        "DifferingNames" => Some(RowVolume::DifferingNames),
        _ => None,
    }
}
