//! Laws about the image of an index. The functions do nothing: their contracts are the laws.
ghost use Rattle.key_images.specs.Laws.{HeldIsImaged, HeldIsWithin, ImageIsHeld, RelocatedIsHeld};

/// The index that is read of an image stands for the table of the image, and the file holds each of its
/// materials at its place.
pub fn images_hold_materials()
    ensures { ImageIsHeld }
{}

/// The image that is told of an index is that of the table that the index stands for, which has the same
/// materials after its places were moved into the image.
pub fn images_are_of_tables()
    ensures held { HeldIsImaged }
    ensures within { HeldIsWithin }
    ensures relocated { RelocatedIsHeld }
{}
