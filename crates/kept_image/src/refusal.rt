//! Why no image is given.

use plain_types::fault::{Limit, NoMemory};

/// The first limit of the image format that the kept rows of a file pass, or want of memory.
#[derive(Clone, Copy, Debug, PartialEq, Eq)]
pub enum ImageRefusal {
    /// The first limit of 0 to 16 that is passed, with what was counted, and the number of the assembly.
    Limit(Limit),
    /// The host has no memory left.
    NoMemory,
}

impl From<NoMemory> for ImageRefusal {
    ghost use Rattle.std.specs.Prelude.{◌≡◌};
    ghost use Rattle.kept_image.specs.declared.refusal.ImageRefusal.TheVariants as refusals;

    ghost from_gives = { λ _ e. e ≡ refusals.NoMemory };

    fn from(_error: NoMemory) -> ImageRefusal {
        ImageRefusal::NoMemory
    }
}
