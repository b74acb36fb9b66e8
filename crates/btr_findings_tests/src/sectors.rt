// Findings on sectors, which are kept as runs.
use btr_base::Memory;
use btr_findings::{Finding, Found, Kind, SectorRule, insert, put_sectors};
use std::alloc::Global;
use std::process::Abort;
use std::test::Fail;

const MISSING: SectorRule = SectorRule::Missing {
    tree: 5,
    inode: 257,
};

// Sectors of a rule: the address of the first, and how many there are.
type Sectors = (SectorRule, u128, u64);

fn found_on(alloc: Global, runs: &[Sectors]) -> Result<Found, Memory> {
    let mut found = Found::new(alloc);
    for (rule, start, count) in runs {
        put_sectors(&mut found, *rule, *start, *count)?;
    }
    Ok(found)
}

// The findings on some sectors are those on others, in this order.
fn comes_to(
    rt: &impl Abort,
    alloc: Global,
    runs: &[Sectors],
    wanted: &[(SectorRule, u64)],
) -> Result<(), Fail> {
    let list = found_on(alloc, runs)?.list(alloc)?.to_vec(alloc)?;
    assert_eq!(rt; list.len(), wanted.len());
    for (finding, (rule, addr)) in list.iter().zip(wanted) {
        assert_eq!(rt; *finding, rule.finding(*addr));
    }
    Ok(())
}

#[test]
fn sectors_of_two_runs_come_once(rt: HostRuntime) -> Result<(), Fail> {
    let alloc = rt.alloc();
    let three = [
        (SectorRule::Stray, 8192),
        (SectorRule::Stray, 12288),
        (SectorRule::Stray, 16384),
    ];
    for runs in [
        [(SectorRule::Stray, 8192, 2), (SectorRule::Stray, 16384, 1)],
        [(SectorRule::Stray, 12288, 2), (SectorRule::Stray, 8192, 3)],
        [(SectorRule::Stray, 8192, 3), (SectorRule::Stray, 12288, 1)],
        [(SectorRule::Stray, 8192, 3), (SectorRule::Stray, 8192, 3)],
        [(SectorRule::Stray, 8192, 3), (SectorRule::Stray, 4096, 0)],
    ] {
        comes_to(&rt, alloc, &runs, &three)?;
    }
    Ok(())
}

#[test]
fn rules_come_one_after_another(rt: HostRuntime) -> Result<(), Fail> {
    let alloc = rt.alloc();
    let other = SectorRule::Missing {
        tree: 5,
        inode: 256,
    };
    let runs = [
        (SectorRule::Lost, 4096, 1),
        (SectorRule::Overlap, 4096, 2),
        (MISSING, 12288, 1),
        (other, 8192, 1),
        (MISSING, 4096, 1),
    ];
    let wanted = [
        (other, 8192),
        (MISSING, 4096),
        (MISSING, 12288),
        (SectorRule::Overlap, 4096),
        (SectorRule::Overlap, 8192),
        (SectorRule::Lost, 4096),
    ];
    comes_to(&rt, alloc, &runs, &wanted)
}

// What no item says is kept too: a run that doesn't begin at a sector's start, and one that passes 2^64.
#[test]
fn runs_at_any_address(rt: HostRuntime) -> Result<(), Fail> {
    let alloc = rt.alloc();
    let runs = [(MISSING, 100, 2), (MISSING, 4096, 1)];
    comes_to(
        &rt,
        alloc,
        &runs,
        &[(MISSING, 100), (MISSING, 4096), (MISSING, 4196)],
    )?;
    let last = 0u64.wrapping_sub(4096);
    comes_to(
        &rt,
        alloc,
        &[(MISSING, u128::from(last), 3)],
        &[(MISSING, last), (MISSING, u64::MAX)],
    )
}

// A finding that stands alone and on a sector comes once, and others stand around it.
#[test]
fn single_findings_among_sectors(rt: HostRuntime) -> Result<(), Fail> {
    let alloc = rt.alloc();
    let mut found = found_on(alloc, &[(SectorRule::Stray, 4096, 3)])?;
    let one = |kind, n| Finding {
        kind,
        n: [n, 0, 0, 0, 0, 0, 0],
    };
    for (kind, n) in [
        (Kind::SumStray, 8192),
        (Kind::SumStray, 5000),
        (Kind::ChunkGroup, 1),
        (Kind::OutsideGroup, 9),
    ] {
        insert(&mut found, one(kind, n))?;
    }
    let list = found.list(alloc)?.to_vec(alloc)?;
    let wanted = [
        one(Kind::OutsideGroup, 9),
        one(Kind::SumStray, 4096),
        one(Kind::SumStray, 5000),
        one(Kind::SumStray, 8192),
        one(Kind::SumStray, 12288),
        one(Kind::ChunkGroup, 1),
    ];
    assert_eq!(rt; list.as_slice(), wanted.as_slice());
    Ok(())
}

// So many sectors that no memory has room for a finding on each.
#[test]
fn a_run_is_no_list(rt: HostRuntime) -> Result<(), Fail> {
    let alloc = rt.alloc();
    let mut all = found_on(alloc, &[(SectorRule::Lost, 0, 1 << 52)])?.list(alloc)?;
    assert_eq!(rt; all.next(), Some(SectorRule::Lost.finding(0)));
    assert_eq!(rt; all.next(), Some(SectorRule::Lost.finding(4096)));
    Ok(())
}
