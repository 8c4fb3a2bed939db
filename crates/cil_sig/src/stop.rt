//! Why reading a part of a signature stopped.

ghost use Rattle.std.specs.Prelude.{◌≡◌};
ghost use Rattle.cil_sig.specs.declared.stop.Stop.TheVariants as stops;

use std::alloc::AllocFailed;

/// The grammar has no case where this many bytes are left.
#[derive(Clone, Copy)]
pub struct NoCase {
    pub left: usize,
}

pub enum Stop {
    NoMemory,
    NoCase(NoCase),
}

impl From<NoCase> for Stop {
    ghost from_gives = { λ no_case stop. stop ≡ stops.NoCase no_case };

    fn from(no_case: NoCase) -> Stop {
        Stop::NoCase(no_case)
    }
}

impl<T: Drop> From<AllocFailed<T>> for Stop {
    ghost from_gives = { λ _ stop. stop ≡ stops.NoMemory };

    fn from(_error: AllocFailed<T>) -> Stop {
        Stop::NoMemory
    }
}
