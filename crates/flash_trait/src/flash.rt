//! The flash of a board: 32 sectors of 8,192 bytes.

ghost use Rattle.std.specs.Prelude.{◌≡◌, ◌≢◌, ◌≤◌, true, IsTrue, IsErr, OnOk, IsErrOf, Option, None, Some, length};
ghost use Rattle.plain_types.specs.Schedule.{MustFail, MustWork};
ghost use Rattle.std.specs.Option.{ForSome};
ghost use Rattle.flash_trait.specs.Flash.{Program, Erase, IsPossible, AreBytes};
ghost use Rattle.flash_trait.specs.FlashCalls.{FlashState, Completes, IsCut, IsFailed};

use plain_types::list::Items;
use thiserror::Error;

/// How many bytes a flash holds.
pub const FLASH_SIZE: usize = 262_144;

/// How many bytes a sector has.
pub const SECTOR_SIZE: usize = 8_192;

/// How many sectors a flash has.
pub const SECTORS: u32 = 32;

/// Why an operation was not done whole.
#[derive(Clone, Copy, Debug, PartialEq, Eq, Error)]
pub enum FlashErr {
    #[error("the flash failed")]
    Failed,
    #[error("the power stopped")]
    Cut,
}

/// A stop of the power inside an operation. The i-th byte of the operation takes the mask byte i modulo the mask's
/// length. In a program a one in it takes the new bit and a zero the old one. In an erase its lowest bit takes 0xFF
/// (1) or the old byte (0).
#[derive(Debug, Drop)]
pub struct Stop {
    /// Which operation is stopped, counted from 1 since the flash was armed.
    pub operation: u32,
    /// 1 to 8,192 bytes.
    pub mask: Items<u8>,
}

/// A block flash whose power may stop.
pub trait Flash {
    /// All that is known of it.
    ghost state: { Self → FlashState };

    /// The content.
    fn map(&self) -> &[u8]
        ensures { result.now ≡ (state self.now).content };

    /// Replaces each byte from `at` on by its AND with the given one. A program has 1 to 8,192 bytes, inside the
    /// flash. `Cut` comes exactly at the armed operation, where the flash doesn't fail at it. Where it is known
    /// beforehand which operations fail and for how many there is room, no other fails.
    fn program(&mut self, at: u32, bytes: &[u8]) -> Result<(), FlashErr>
        requires on { IsTrue (state self.old).on }
        requires possible { IsPossible (Program at bytes.now) }

        ensures ok { OnOk result (Completes (Program at bytes.now) (state self.old) (state self.new)) }
        ensures cut { IsErrOf result FlashErr.Cut → IsCut (Program at bytes.now) (state self.old) (state self.new) }
        ensures failed { IsErrOf result FlashErr.Failed → IsFailed (Program at bytes.now) (state self.old) (state self.new) }
        ensures fails { MustFail (state self.old).schedule 1 → IsErrOf result FlashErr.Failed }
        ensures works { MustWork (state self.old).schedule 1 → result ≢ Err FlashErr.Failed };

    /// Makes the 8,192 bytes of a sector 0xFF. `Cut` comes exactly at the armed operation, where the flash doesn't
    /// fail at it. Where it is known beforehand which operations fail and for how many there is room, no other fails.
    fn erase(&mut self, sector: u32) -> Result<(), FlashErr>
        requires on { IsTrue (state self.old).on }
        requires possible { IsPossible (Erase sector) }

        ensures ok { OnOk result (Completes (Erase sector) (state self.old) (state self.new)) }
        ensures cut { IsErrOf result FlashErr.Cut → IsCut (Erase sector) (state self.old) (state self.new) }
        ensures failed { IsErrOf result FlashErr.Failed → IsFailed (Erase sector) (state self.old) (state self.new) }
        ensures fails { MustFail (state self.old).schedule 1 → IsErrOf result FlashErr.Failed }
        ensures works { MustWork (state self.old).schedule 1 → result ≢ Err FlashErr.Failed };

    /// Arms a stop, or none. Operations are counted from 1 since this call.
    fn arm(&mut self, stop: Option<Stop>)
        requires operation { ForSome stop (λ s. 1 ≤ s.operation) }
        requires mask { ForSome stop (λ s. (1 ≤ length s.mask) × (length s.mask ≤ 8192)) }
        ensures { state self.new ≡ record (state self.old) { armed = stop } };

    /// Whether the flash is on.
    fn is_on(&self) -> bool
        ensures { result ≡ (state self.now).on };

    /// Turns the flash on and disarms it.
    fn power_on(&mut self)
        ensures { state self.new ≡ record (state self.old) { on = true; armed = None } };

    /// The size of the content.
    ghost sized: { (flash : Self) → length (state flash).content ≡ 262144 };

    /// The content is bytes.
    ghost bytes: { (flash : Self) → AreBytes (state flash).content };
}
