//! Space: which logical addresses and which bytes of the devices are given to whom.
//!
//! Chunks map logical addresses to ranges of devices. Each chunk has a block group, whose item states how many of its bytes lie in extents, and
//! each of its stripes has a device extent; each device states how many of its bytes these are, and the superblock how many bytes lie
//! in extents in all. `Groups`, `DeviceExtents` and `Devices` collect what a visit of a tree meets of these, and
//! `put_group_findings` and `put_device_findings` put all that does not agree into a set of findings. It is promised to the layer above that
//! these are exactly the findings of the definitions, whatever the items say: also where groups overlap, or where sums pass 2^64.
//!
//! The definitions are in `specs/`: `Items` reads the items, `Groups` has the rules of extents, block groups and chunks, and `Devices` those of
//! devices. `Orders`, `AddressRanges`, `Bounds` and `Given` say what look-ups go by.
#![tactic(auto)]

mod address_ranges;
mod bounds;
mod chunks;
mod device_extent;
mod devices;
mod devices_met;
mod extents_met;
mod group;
mod groups;
mod groups_met;
mod growing;
mod items;
mod keys;
mod laws;
mod span;
mod stated_device;

pub use address_ranges::{AddressRange, AddressRanges, Reach};
pub use device_extent::DeviceExtent;
pub use devices::put_device_findings;
pub use devices_met::Devices;
pub use extents_met::DeviceExtents;
pub use group::Group;
pub use groups::put_group_findings;
pub use groups_met::Groups;
pub use laws::collects_law;
pub use stated_device::StatedDevice;
