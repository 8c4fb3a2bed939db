//! Why kept rows aren't converted.

use plain_types::fault::{Limit, NoMemory};
use std::alloc::AllocError;

/// The first limit of the image format that the kept rows pass, or want of memory.
#[derive(Clone, Copy, Debug, PartialEq, Eq)]
pub enum ConvertRefusal {
    /// The first limit that is passed, with what was counted, and the number of the assembly.
    Limit(Limit),
    /// The host has no memory left.
    NoMemory,
}

impl From<NoMemory> for ConvertRefusal {
    ghost use Rattle.std.specs.Prelude.{◌≡◌};
    ghost use Rattle.convert_kept.specs.declared.refusal.ConvertRefusal.TheVariants as refusals;

    ghost from_gives = { λ _ e. e ≡ refusals.NoMemory };

    fn from(_error: NoMemory) -> ConvertRefusal {
        ConvertRefusal::NoMemory
    }
}

impl From<AllocError> for ConvertRefusal {
    ghost use Rattle.std.specs.Prelude.{◌≡◌};
    ghost use Rattle.convert_kept.specs.declared.refusal.ConvertRefusal.TheVariants as refusals;

    ghost from_gives = { λ _ e. e ≡ refusals.NoMemory };

    fn from(_error: AllocError) -> ConvertRefusal {
        ConvertRefusal::NoMemory
    }
}
