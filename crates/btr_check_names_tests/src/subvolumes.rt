// What is wrong with the name of a subvolume.
use super::trees::{entry, key, meet, root_ref};
use btr_check_names::{SubvolumeNames, TreeNames, put_subvolume_findings};
use btr_findings::{Finding, Found, Kind};
use btr_items::item;
use std::alloc::Global;
use std::test::Fail;

// The entry of tree 5 that leads to tree 256.
fn entry_of_subvolume(alloc: Global) -> Result<TreeNames, Fail> {
    let mut names = TreeNames::new(alloc, 5, 256);
    let location = key(256, item::ROOT_ITEM, u64::MAX);
    let body = entry(alloc, location, 2, b"sub")?;
    meet(&mut names, key(256, item::DIR_INDEX, 2), &body)?;
    Ok(names)
}

// The findings on the name of tree 256 in tree 5, where it stands in these places.
fn findings(
    alloc: Global,
    in_ref: bool,
    in_backref: bool,
    in_entry: bool,
) -> Result<Vec<Finding>, Fail> {
    let mut names = SubvolumeNames::new(alloc);
    let body = root_ref(alloc)?;
    if in_ref {
        meet(&mut names, key(5, item::ROOT_REF, 256), &body)?;
    }
    if in_backref {
        meet(&mut names, key(256, item::ROOT_BACKREF, 5), &body)?;
    }
    if in_entry {
        names.take_entries(&entry_of_subvolume(alloc)?)?;
    }
    let mut found = Found::new(alloc);
    put_subvolume_findings(alloc, &mut found, &names)?;
    Ok(found.list(alloc)?.to_vec(alloc)?)
}

#[test]
fn a_name_that_stands_everywhere_or_not(rt: HostRuntime) -> Result<(), Fail> {
    let alloc = rt.alloc();
    assert!(rt; findings(alloc, true, true, true)?.is_empty());
    assert!(rt; findings(alloc, false, false, true)?.is_empty());
    for (in_ref, in_backref, in_entry) in [
        (false, true, true),
        (true, false, true),
        (true, true, false),
    ] {
        let found = findings(alloc, in_ref, in_backref, in_entry)?;
        assert_eq!(rt; found.len(), 1);
        for one in &found {
            assert_eq!(rt;
                *one,
                Finding {
                    kind: Kind::RootRef,
                    n: [5, 256, 0, 0, 0, 0, 0]
                }
            );
        }
    }
    Ok(())
}
