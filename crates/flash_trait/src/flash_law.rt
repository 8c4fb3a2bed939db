//! What a caller can conclude of a flash from the clauses of [`Flash`] alone.

ghost use Rattle.std.specs.Prelude.{◌≡◌, ◌⊎◌, ◌<◌, ◌≤◌, ◌++◌, ◌∷◌, [], ℕ, List, IsTrue, length};
ghost use Rattle.flash_trait.specs.Flash.{Operation, Program, Erase, IsPossible, AreBytes, IsStopped, after, cut};
ghost use Rattle.flash_trait.specs.FlashCalls.{FlashState, Completes, IsCut, IsFailed, AtEachMoment, Made};

use crate::flash::{Flash, FlashErr};

/// Programs some bytes and then erases a sector. At each moment of the call, however it ends, the content is one that
/// a stop of the program may leave of the old one, or one that a stop of the erase may leave of the programmed one.
pub fn program_then_erase<F: Flash>(
    flash: &mut F,
    at: u32,
    bytes: &[u8],
    sector: u32,
) -> Result<(), FlashErr>
    requires on { IsTrue (F.state flash.old).on }
    requires programs { IsPossible (Program at bytes.now) }
    requires erases { IsPossible (Erase sector) }
    ensures any_moment { AtEachMoment (F.state flash.old) (F.state flash.new) (λ content.
        IsStopped (Program at bytes.now) (F.state flash.old).content content
        ⊎ IsStopped (Erase sector) (after (Program at bytes.now) (F.state flash.old).content) content) }
{
    flash.program(at, bytes)?;
    flash.erase(sector)?;
    Ok(())
}

/// What masks spell: each content that a stop may leave, and no other.
pub fn masks()
    ensures spelt { (op : Operation) (old new : List ℕ) → IsPossible op → AreBytes old → AreBytes new → IsStopped op old new →
        (mask : List ℕ) × (0 < length mask) × (length mask ≤ 8192) × AreBytes mask × (cut op mask old ≡ new) }
    ensures no_other { (op : Operation) (mask old : List ℕ) → IsStopped op old (cut op mask old) }

    // Among them are the content after the whole operation and the one before it.
    ensures whole { (op : Operation) (old : List ℕ) → IsStopped op old (after op old) }
    ensures none { (op : Operation) (old : List ℕ) → IsStopped op old old }
{}

/// How the record of a flash that tells it grows. Users of `MadeFront` keep `Made` of the operations so far.
pub fn operations()
    ensures none { (s : FlashState) → Made [] s s }
    ensures whole { (ops : List Operation) (op : Operation) (first old new : FlashState) → Made ops first old → Completes op old new → Made (ops ++ op ∷ []) first new }
    ensures cut { (ops : List Operation) (op : Operation) (first old new : FlashState) → Made ops first old → IsCut op old new → Made (ops ++ op ∷ []) first new }

    // A failed operation that changed nothing may be missing in the record.
    ensures failed { (ops : List Operation) (op : Operation) (first old new : FlashState) → Made ops first old → IsFailed op old new
        → Made (ops ++ op ∷ []) first new ⊎ Made ops first new }

    // Arming and turning on leave the record.
    ensures stays { (ops : List Operation) (first old new : FlashState) → Made ops first old → new.tells ≡ old.tells → new.log ≡ old.log → Made ops first new }
    ensures join { (ops more : List Operation) (first middle last : FlashState) → Made ops first middle → Made more middle last → Made (ops ++ more) first last }
{}
