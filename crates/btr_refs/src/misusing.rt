// Extents that are others than what uses them.
ghost use Rattle.std.specs.Prelude.{◌≡◌, OnOk, flat_map, option_to_list};
ghost use Rattle.btr_findings.specs.Findings.{unless};
ghost use Rattle.btr_items.specs.ExtentItem.{is_tree_block};
ghost use Rattle.btr_refs.specs.Misusing.{extent_level, is_kind, misused, misused_at, used_len, with_findings};

use crate::Used;
use crate::extent_list::ExtentList;
use btr_base::Memory;
use btr_findings::{Extent, Finding, Kind};
use btr_items::ExtentFlags;
use std::collections::BTreeSet;

// Keeps a finding, unless its rule is kept.
fn keep_unless(findings: &mut BTreeSet<Finding>, kept: bool, finding: Finding) -> Result<(), Memory>
    ensures { OnOk result (findings.new.keys ≡ with_findings findings.old.keys (option_to_list (unless kept finding))) }
{
    if kept {
        return Ok(());
    }
    match findings.insert(finding) {
        Ok(_) => Ok(()),
        Err(_) => Err(Memory),
    }
}

// Whether an extent is a tree block that is used as one, or data that is used as data.
fn is_kind(extent: &Extent, used: Used) -> bool
    ensures { result ≡ is_kind (is_tree_block extent.now.flags) used }
{
    let is_data = extent.flags & ExtentFlags::TREE_BLOCK.0 == 0;
    match used {
        Used::TreeBlock(_) => !is_data,
        Used::Data(_) => is_data,
    }
}

// How long a use says that an extent is.
fn used_len(nodesize: u64, used: Used) -> u64
    ensures { result ≡ used_len nodesize used }
{
    match used {
        Used::TreeBlock(_) => nodesize,
        Used::Data(len) => len,
    }
}

// Keeps that a tree block states another level than it is used at.
fn keep_level(findings: &mut BTreeSet<Finding>, extent: &Extent, used: Used) -> Result<(), Memory>
    ensures { OnOk result (findings.new.keys ≡ with_findings findings.old.keys (option_to_list (extent_level extent.now used))) }
{
    match (extent.level, used) {
        (Some(stated), Used::TreeBlock(level)) => {
            let levels = [extent.addr, u64::from(stated), u64::from(level)];
            let finding = Finding::new(Kind::ExtentLevel, levels);
            keep_unless(findings, stated == level, finding)
        }
        _ => Ok(()),
    }
}

// Keeps what is wrong with an extent that is used so.
fn keep_misused(
    findings: &mut BTreeSet<Finding>,
    nodesize: u64,
    extent: &Extent,
    used: Used,
) -> Result<(), Memory>
    ensures { OnOk result (findings.new.keys ≡ with_findings findings.old.keys (misused nodesize extent.now used)) }
{
    let kind = Finding::new(Kind::ExtentKind, [extent.addr, extent.flags]);
    keep_unless(findings, is_kind(extent, used), kind)?;
    let len = used_len(nodesize, used);
    let length = Finding::new(Kind::ExtentLength, [extent.addr, extent.len, len]);
    keep_unless(findings, extent.len == len, length)?;
    keep_level(findings, extent, used)
}

// Keeps what is wrong with those of some extents that are at an address, which is used so.
fn keep_each(
    findings: &mut BTreeSet<Finding>,
    nodesize: u64,
    extents: &[Extent],
    addr: u64,
    used: Used,
) -> Result<(), Memory>
    ensures { OnOk result (findings.new.keys ≡ with_findings findings.old.keys (flat_map (misused_at nodesize addr used) extents.now)) }
{
    for extent in extents {
        if extent.addr == addr {
            keep_misused(findings, nodesize, extent, used)?;
        }
    }
    Ok(())
}

/// The same of a list. `Memory`: there is no memory for it.
pub(crate) fn keep_all_misused(
    findings: &mut BTreeSet<Finding>,
    nodesize: u64,
    extents: &ExtentList,
    addr: u64,
    used: Used,
) -> Result<(), Memory>
    ensures { OnOk result (findings.new.keys ≡ with_findings findings.old.keys (flat_map (misused_at nodesize addr used) extents.now)) }
{
    keep_each(findings, nodesize, extents.at(addr), addr, used)
}
