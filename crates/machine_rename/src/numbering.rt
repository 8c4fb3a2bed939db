//! Laws of the two numberings: places in code that is laid out in two lengths, and rows of which some are kept.
ghost use Rattle.std.specs.Prelude.{◌≡◌, ◌≢◌, ℕ, ◌<◌, ◌==◌, Bool, nat_lt, length, slice_index, List, Option};
ghost use Rattle.machine_rename.specs.Places.{Piece, to_long, starts_at, AreShorter, row_of};

/// At every place, an instruction's start or not, the two layouts have the same instruction, and the order of places is the same.
pub fn same_code()
    ensures code { (xs : List (Piece ℕ)) (at : ℕ) → AreShorter xs → starts_at (λ x. x.long) xs (to_long xs at) ≡ starts_at (λ x. x.short) xs at }
    ensures order { (xs : List (Piece ℕ)) (a b : ℕ) → AreShorter xs → nat_lt (to_long xs a) (to_long xs b) ≡ nat_lt a b }
{}

/// Two numbers stand for one row only where they are one.
pub fn same_rows()
    ensures { (kept : List ℕ) (count : ℕ) → ((i : ℕ) → i < length kept → slice_index kept i < count) → ((i j : ℕ) → i < j → j < length kept → slice_index kept i ≢ slice_index kept j) → (a b : ℕ) → (row_of kept count a == row_of kept count b) ≡ (a == b) }
{}
