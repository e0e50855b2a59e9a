//! What holds of every image of a test, as a theorem: there is nothing to run.

ghost use Rattle.litmus_image.specs.Accepted.{AssembledImagesLoad};

/// `load` accepts the image of every test that is read, for every tree.
#[tactic(auto, using(crate::proofs::Accepted::assembled_images_load))]
pub fn assembled_images_load()
    ensures { AssembledImagesLoad }
{}
