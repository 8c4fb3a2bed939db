//! A closed choice of rows has a spelling, and so its image is seen as it.
ghost use Rattle.std.specs.Prelude.{◌≡◌, ℕ, List, Some, slice_get};
ghost use Rattle.image_bytes.specs.Layout.{onto};
ghost use Rattle.assemblies.specs.Rows.{Assembly};
ghost use Rattle.assemblies.specs.Chosen.{Choice, chosen};
ghost use Rattle.image_form.specs.Whole.{Methods, laid, seen};
ghost use Rattle.image_form.specs.Limits.{IsSpelt};
ghost use Rattle.kept_closure.specs.Kept.{HasAll, IsClosed, Resolves};
ghost use Rattle.chosen_image.specs.Spells.{Spells, KeepsLimits, chosen_methods};

/// Of each assembly of a set whose names resolve, the kept rows have a spelling, within the limits; and their image, with anything behind it, is seen as them.
pub fn chosen_rows_are_spelt()
    ensures spelt { (size : ℕ) (ps : List Assembly) (all keep : ℕ → Choice) → HasAll ps all → Resolves size ps all → IsClosed size ps keep → (f : ℕ) (p : Assembly) (ms : Methods) → slice_get ps f ≡ Some p → Spells (keep f) p ms → KeepsLimits (keep f) p ms → IsSpelt (chosen (keep f) p) (chosen_methods (keep f) ms) }
    ensures seen { (size : ℕ) (ps : List Assembly) (all keep : ℕ → Choice) → HasAll ps all → Resolves size ps all → IsClosed size ps keep → (f : ℕ) (p : Assembly) (ms : Methods) → slice_get ps f ≡ Some p → Spells (keep f) p ms → KeepsLimits (keep f) p ms → (rest : List ℕ) → seen (onto (laid (chosen (keep f) p) (chosen_methods (keep f) ms)) rest) ≡ Some (laid (chosen (keep f) p) (chosen_methods (keep f) ms), chosen (keep f) p) }
{}
