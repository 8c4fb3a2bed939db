//! Numbers of rows that fit their bytes.

ghost use Rattle.std.specs.Prelude.{◌≡◌, ℕ, List, Some, map, slice_get};
ghost use Rattle.assemblies.specs.Rows.{MethodRow, Assembly};
ghost use Rattle.assemblies.specs.Chosen.{Choice, chosen};
ghost use Rattle.kept_closure.specs.Kept.{HasNamed};
ghost use Rattle.image_form.specs.Form.{Manner};
ghost use Rattle.image_form.specs.Whole.{Methods};
ghost use Rattle.chosen_image.specs.Spells.{chosen_methods};
ghost use Rattle.msspot_write.specs.Spelt.{parts_for};
ghost use Rattle.converted.specs.Images.{NumbersFit};
ghost use Rattle.fitting_parts.specs.Small.{HasSmallNumbers};
ghost use Rattle.fitting_parts.specs.Kept.{AreThere, AreFew, FileNumbersSmall};

/// Where the tokens of rows have rows below 16,384 and all other numbers are below 65,536, each number of their parts has two bytes, and
/// each byte of a signature one.
pub fn small_numbers_fit()
    ensures { (p : Assembly) (ms : Methods) → HasSmallNumbers p ms → NumbersFit (parts_for p ms) }
{}

/// Where kept rows have what they name, and no table has too many of them, they have small numbers, but for what a file tells by numbers.
pub fn kept_rows_have_small_numbers()
    ensures { (ps : List Assembly) (keep : ℕ → Choice) (f : ℕ) (p : Assembly) (ms : Methods) → slice_get ps f ≡ Some p → HasNamed ps keep → map (λ (x : Manner × MethodRow). x.1) ms ≡ p.methods → AreThere (keep f) p → AreFew (keep f) p ms → FileNumbersSmall (keep f) p ms → HasSmallNumbers (chosen (keep f) p) (chosen_methods (keep f) ms) }
{}
