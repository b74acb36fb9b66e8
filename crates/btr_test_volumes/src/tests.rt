use crate::names::row_of;
use crate::volume;
use btr_make::RowVolume;
use std::test::Fail;

#[test]
fn volumes_by_name(rt: HostRuntime) -> Result<(), Fail> {
    assert_eq!(rt; row_of("V1d"), Some(RowVolume::V1d));
    assert_eq!(rt; row_of("v1d"), None);
    let rack = volume(rt.alloc(), "1")?;
    assert!(rt; rack.byte("c", 134217727).is_some());
    assert!(rt; rack.byte("d", 0).is_none());
    for name in ["0", "1001", "-1", "V9"] {
        assert!(rt; volume(rt.alloc(), name).is_err(), "{name}");
    }
    Ok(())
}
