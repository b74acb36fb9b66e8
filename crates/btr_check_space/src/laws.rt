// What a visit of a tree collects.
ghost use Rattle.btr_check_space.specs.Items.{Collects, group_in, device_extent_in, device_in};

/// The block groups, device extents and devices that a visit collects, from none on, are those that the items of the tree describe.
/// This function is the law: its contract says it, and its body is empty.
pub fn collects_law()
    ensures groups { Collects group_in }
    ensures device_extents { Collects device_extent_in }
    ensures devices { Collects device_in }
{}
