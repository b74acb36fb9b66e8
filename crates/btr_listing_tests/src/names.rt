// Names that a destination can have.
use btr_listing::good_name;
use std::test::Fail;

#[test]
fn names(rt: HostRuntime) -> Result<(), Fail> {
    for bad in [b"".as_slice(), b".", b"..", b"a/b", b"a\0", b"\xff"] {
        assert!(rt; good_name(bad).is_none());
    }
    for good in [b"a".as_slice(), b"...", b"a b", b"\xc3\xa4"] {
        assert!(rt; good_name(good).is_some());
    }
    Ok(())
}
