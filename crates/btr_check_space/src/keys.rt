// Sets of what ranges are looked up by.
ghost use Rattle.std.specs.Prelude.{IfOk};
ghost use Rattle.btr_check_space.specs.declared.device_extent.DeviceExtent.{DeviceExtent};
ghost use Rattle.btr_check_space.specs.Orders.{KeysOf, span_cmp, range_cmp, place_cmp, extent_cmp, group_span, span_range, extent_place};

use crate::growing::put_key;
use crate::span::Span;
use crate::{AddressRange, DeviceExtent, Group};
use btr_base::Memory;
use btr_chunk::StripePlace;
use std::alloc::Global;
use std::collections::BTreeSet;

// What chunks of the block groups would be.
pub(crate) fn group_spans(alloc: Global, groups: &[Group]) -> Result<BTreeSet<Span>, Memory>
    ensures { IfOk result (KeysOf span_cmp group_span groups.now) }
{
    let mut set = BTreeSet::new(alloc);
    for group in groups {
        let span = Span {
            start: group.start,
            len: group.len,
            flags: group.flags,
        };
        put_key(&mut set, span)?;
    }
    Ok(set)
}

// The ranges of logical addresses that chunks have.
pub(crate) fn span_ranges(alloc: Global, spans: &[Span]) -> Result<BTreeSet<AddressRange>, Memory>
    ensures { IfOk result (KeysOf range_cmp span_range spans.now) }
{
    let mut set = BTreeSet::new(alloc);
    for span in spans {
        let range = AddressRange {
            start: span.start,
            len: span.len,
        };
        put_key(&mut set, range)?;
    }
    Ok(set)
}

// Ranges of devices.
pub(crate) fn extent_set(
    alloc: Global,
    extents: &[DeviceExtent],
) -> Result<BTreeSet<DeviceExtent>, Memory>
    ensures { IfOk result (KeysOf extent_cmp (λ (extent : DeviceExtent). extent) extents.now) }
{
    let mut set = BTreeSet::new(alloc);
    for extent in extents {
        put_key(&mut set, *extent)?;
    }
    Ok(set)
}

// Where ranges of devices begin.
pub(crate) fn extent_places(
    alloc: Global,
    ranges: &[DeviceExtent],
) -> Result<BTreeSet<StripePlace>, Memory>
    ensures { IfOk result (KeysOf place_cmp extent_place ranges.now) }
{
    let mut set = BTreeSet::new(alloc);
    for range in ranges {
        let place = StripePlace {
            devid: range.devid,
            offset: range.offset,
        };
        put_key(&mut set, place)?;
    }
    Ok(set)
}
