//! Why code isn't shortened.

use plain_types::fault::NoMemory;

/// The first limit that the shortened code passes, or want of memory.
#[derive(Clone, Copy, Debug, PartialEq, Eq)]
pub enum ShrinkRefusal {
    /// The first distance of a long branch or a switch, by offset and by target, that is outside -32,768 to 32,767. It
    /// counts in the shortened code, from the end of the instruction.
    Branch { distance: i64 },
    /// No distance is outside, and this is the number of targets of the first switch that has more than 255.
    Switch { targets: u32 },
    /// The host has no memory left.
    NoMemory,
}

impl From<NoMemory> for ShrinkRefusal {
    ghost use Rattle.std.specs.Prelude.{◌≡◌};
    ghost use Rattle.code_shrink.specs.declared.refusal.ShrinkRefusal.TheVariants as refusals;

    ghost from_gives = { λ _ e. e ≡ refusals.NoMemory };

    fn from(_error: NoMemory) -> ShrinkRefusal {
        ShrinkRefusal::NoMemory
    }
}
