//! Why no codes are given.

use plain_types::fault::NoMemory;

/// The first limit of distances and switches that the codes of an assembly pass, or want of memory.
#[derive(Clone, Copy, Debug, PartialEq, Eq)]
pub enum CodesRefusal {
    /// Limit 15: how far the first distance leads, by method and offset, that is outside -32,768 to 32,767 in the shortened code.
    Distance { size: u64 },
    /// Limit 16, where no distance is outside: the number of targets of the first switch, by method and offset, that has more than 255.
    Switch { targets: u32 },
    /// The host has no memory left.
    NoMemory,
}

impl From<NoMemory> for CodesRefusal {
    ghost use Rattle.std.specs.Prelude.{◌≡◌};
    ghost use Rattle.image_codes.specs.declared.refusal.CodesRefusal.TheVariants as refusals;

    ghost from_gives = { λ _ e. e ≡ refusals.NoMemory };

    fn from(_error: NoMemory) -> CodesRefusal {
        CodesRefusal::NoMemory
    }
}
