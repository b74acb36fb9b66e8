//! What opening comes to. Each function here is a law: its contract is the law, and its body is empty.
ghost use Rattle.btr_volume.specs.Opening.{OpenedIsAlike, OpenedIsOfImages};

/// A volume that was opened is the one of the images, where the rack tells them and no read failed, or all copies agree.
pub fn opened_is_of_images()
    ensures { OpenedIsOfImages }
{}

/// In a volume that was opened the candidates of the root tree's root block agree, where the rack tells the images and no read
/// failed.
pub fn opened_is_alike()
    ensures { OpenedIsAlike }
{}
