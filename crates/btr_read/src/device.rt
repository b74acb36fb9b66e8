// The devices that are given.
ghost use Rattle.std.specs.Prelude.{◌≡◌};
ghost use Rattle.btr_read.specs.Layout.{device_in, is_older};
ghost use Rattle.std.specs.List.{list_any};

/// A device that is given.
#[derive(Clone, Copy, Debug, PartialEq, Eq)]
pub struct Device {
    /// The slot in which its image is open.
    pub slot: usize,
    /// The length of its image in bytes.
    pub len: u64,
    /// Whether its image's superblock has a smaller generation than the chosen one: then it missed writes.
    pub older: bool,
}

/// A device with its id.
#[derive(Clone, Copy, Debug, PartialEq, Eq)]
pub struct Member {
    /// The id, which the chunks' stripes name.
    pub devid: u64,
    /// The device.
    pub device: Device,
}

// Whether the image of some device is older.
pub(crate) fn any_older(members: &[Member]) -> bool
    ensures { result ≡ list_any is_older members.now }
{
    members.iter().any(|member| member.device.older)
}

// The device of this id, if it is given.
pub(crate) fn find_device(members: &[Member], devid: u64) -> Option<Device>
    ensures { result ≡ device_in members.now devid }
{
    for member in members {
        if member.devid == devid {
            return Some(member.device);
        }
    }
    None
}
