//! What the parts and the codes of kept rows are an image of.
ghost use Rattle.std.specs.Prelude.{◌≡◌, ℕ, Bool, List, Some, None, length, map, slice_get};
ghost use Rattle.std.specs.List.{flat_map};
ghost use Rattle.file_tables.specs.File.{FilePart};
ghost use Rattle.assemblies.specs.Rows.{Assembly};
ghost use Rattle.world_rows.specs.World.{assemblies_of};
ghost use Rattle.image_form.specs.Form.{words};
ghost use Rattle.image_form.specs.Whole.{Methods, offsets};
ghost use Rattle.assemblies.specs.Chosen.{Choice, chosen};
ghost use Rattle.chosen_image.specs.Spells.{chosen_methods, KeepsLimits};
ghost use Rattle.image_bytes.specs.Layout.{counts_of};
ghost use Rattle.msspot_write.specs.declared.parts.Parts.{Parts};
ghost use Rattle.msspot_write.specs.Parts.{image_of_parts, over_of_parts};
ghost use Rattle.code_shrink.specs.Shrunk.{shrunk_bytes};
ghost use Rattle.converted.specs.Bodies.{methods_of};
ghost use Rattle.converted.specs.Choosing.{choice_of};
ghost use Rattle.converted.specs.Images.{codes_for_kept, parts_at, parts_cut, image_of, image_at, NumbersFit};
ghost use Rattle.converted.specs.Numbered.{AllGetNumbers};
ghost use Rattle.converted.specs.Over.{kept_codes, over_counts};

use msspot_write::law::spelt_is_laid;

/// The image of the parts of a file's kept rows, with the codes that are laid for them, is the file's image.
pub fn kept_parts_are_laid()
    ensures { (files : List FilePart) (marks : List Bool) (f : ℕ) (x : FilePart) (p : Assembly) → slice_get files f ≡ Some x → slice_get (assemblies_of files) f ≡ Some p → image_of_parts (parts_at files marks f x p) (codes_for_kept (choice_of files marks f) p (methods_of x p)) ≡ image_at files marks f (x, p) }
{
    spelt_is_laid();
}

/// The codes that are laid for a file's kept methods are their shortened codes, where each token gets the number that the image has for its row or
/// literal.
pub fn kept_codes_are_shrunk()
    ensures { (files : List FilePart) (marks : List Bool) (f : ℕ) (x : FilePart) (p : Assembly) (token : ℕ → ℕ) → slice_get files f ≡ Some x → slice_get (assemblies_of files) f ≡ Some p → AllGetNumbers (choice_of files marks f) x (words (offsets (chosen (choice_of files marks f) p) (chosen_methods (choice_of files marks f) (methods_of x p)))) token → codes_for_kept (choice_of files marks f) p (methods_of x p) ≡ map (shrunk_bytes token) (kept_codes files marks f x) }
{}

/// Parts whose numbers fit two bytes stay as they are where numbers are cut, and all parts have as many rows as before.
pub fn parts_that_fit_stay()
    ensures parts { (p : Parts) → NumbersFit p → parts_cut p ≡ p }
    ensures counts { (p : Parts) (codes : List (List ℕ)) → counts_of (image_of_parts (parts_cut p) codes) ≡ counts_of (image_of_parts p codes) }
{}

/// Where the image of a choice passes none of the limits 0 to 14, the choice keeps the limits on which its reading rests.
pub fn counts_within_are_limits()
    ensures { (f : ℕ) (k : Choice) (p : Assembly) (ms : Methods) → over_counts f (image_of k p ms) ≡ None → KeepsLimits k p ms }
{}

/// Of codes the limits count all bytes alone.
pub fn limits_go_by_bytes()
    ensures { (p : Parts) (codes others : List (List ℕ)) → length (flat_map (λ c. c) codes) ≡ length (flat_map (λ c. c) others) → over_of_parts p codes ≡ over_of_parts p others }
{}
