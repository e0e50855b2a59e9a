//! One image of a seed, as a theorem.

ghost use Rattle.made_image.specs.MadeExample.{MadeExample};

/// The image of one seed, byte for byte.
pub fn made_example()
    ensures { MadeExample }
{}
