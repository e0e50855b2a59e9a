//! What holds of every made image, as a theorem: there is nothing to run.
ghost use Rattle.made_image.specs.Accepted.{MadeImagesLoad};

/// `load` accepts every made image of at most 50,000 rounds.
#[tactic(auto, using(crate::proofs::Accepted::made_images_load))]
pub fn made_images_load()
    ensures { MadeImagesLoad }
{}
