//! The law of the generated assembly.

ghost use Rattle.std.specs.Prelude.{ℕ, ◌≤◌};
ghost use Rattle.cil_layout.specs.Askable.{IsAskable};
ghost use Rattle.made_assembly.specs.Made.{made_of};

/// The generated assembly may be asked for: its names are UTF-8 without the zero character, its numbers fit their columns,
/// each token names a row that is there (ECMA-335 II.24.2.6), and there is room for everything.
pub fn made_is_askable()
    ensures { (n : ℕ) → 1 ≤ n → n ≤ 2000 → IsAskable (made_of n) }
{}
