//! Laws of found sets. The function does nothing: its contract is the law.

ghost use Rattle.std.specs.Prelude.{◌≡◌, ℕ, List};
ghost use Rattle.deploy_model.specs.Banks.{Format, IsFormat, Image, WholeSet, found};
ghost use Rattle.board_model.specs.Standing.{Stand};

/// Each image of a set that is found stands by its own bytes.
pub fn found_images_stand()
    ensures { (f : Format) → IsFormat f → (content : List ℕ) (images : List Image) → found f content ≡ WholeSet images → Stand f images }
{}
