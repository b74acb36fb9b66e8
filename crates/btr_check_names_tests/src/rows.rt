// What is wrong with the names of small trees of files.
use super::files::{HASH_G, tree_with};
use btr_check_names::{TreeNames, put_name_findings};
use btr_findings::{Finding, Found, Kind};
use std::alloc::Global;
use std::test::Fail;

/// The findings on the names of a tree.
pub(super) fn findings(alloc: Global, names: &TreeNames) -> Result<Vec<Finding>, Fail> {
    let mut found = Found::new(alloc);
    put_name_findings(alloc, &mut found, names)?;
    Ok(found.list(alloc)?.to_vec(alloc)?)
}

#[test]
fn one_broken_rule(rt: HostRuntime) -> Result<(), Fail> {
    let alloc = rt.alloc();
    for (kind, n) in [
        (Kind::EntryItem, [5, 256, 2, 0, 0, 0, 0]),
        (Kind::EntryIndex, [5, 256, HASH_G, 0, 0, 0, 0]),
        (Kind::EntryRef, [5, 256, 2, 0, 0, 0, 0]),
        (Kind::RefEntry, [5, 257, 256, 9, 0, 0, 0]),
        (Kind::EntryMode, [5, 256, 2, 0, 0, 0, 0]),
        (Kind::LinkCount, [5, 257, 2, 1, 0, 0, 0]),
        (Kind::DirSize, [5, 256, 4, 2, 0, 0, 0]),
        (Kind::Orphan, [5, 258, 0, 0, 0, 0, 0]),
    ] {
        let found = findings(alloc, &tree_with(alloc, Some(kind))?)?;
        assert_eq!(rt; found.len(), 1);
        for one in &found {
            assert_eq!(rt; *one, Finding { kind, n });
        }
    }
    Ok(())
}

#[test]
fn no_broken_rule(rt: HostRuntime) -> Result<(), Fail> {
    let alloc = rt.alloc();
    assert!(rt; findings(alloc, &tree_with(alloc, None)?)?.is_empty());
    assert!(rt; findings(alloc, &TreeNames::new(alloc, 5, 256))?.is_empty());
    Ok(())
}
