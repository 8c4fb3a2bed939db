//! What the limits and the image of a file's kept rows are by their parts.

ghost use Rattle.std.specs.Prelude.{◌≡◌, ℕ, Bool, List, None, length, map};
ghost use Rattle.std.specs.List.{flat_map};
ghost use Rattle.std.specs.Option.{option_or};
ghost use Rattle.file_tables.specs.File.{FilePart};
ghost use Rattle.assemblies.specs.Rows.{Assembly};
ghost use Rattle.kept_marks.specs.Masks.{InFile, masks_of};
ghost use Rattle.image_bytes.specs.Layout.{counts_of};
ghost use Rattle.msspot_write.specs.declared.parts.Parts.{Parts};
ghost use Rattle.msspot_write.specs.Parts.{first_over, image_of_parts, over_of_parts, pools_of};
ghost use Rattle.code_shrink.specs.Shrunk.{shrunk_bytes};
ghost use Rattle.converted.specs.Images.{image_at, parts_cut};
ghost use Rattle.converted.specs.Over.{over_at, over_distances, over_switches};
ghost use Rattle.image_numbers.specs.Numbers.{InImage, token_number};
ghost use Rattle.image_codes.specs.Codes.{codes_of_kept, short_lengths};
ghost use Rattle.kept_image.specs.Kept.{IsKeptFile, SignaturesFit, of_file};

use converted::law::{kept_parts_are_laid, limits_go_by_bytes, parts_that_fit_stay};
use image_codes::law::{
    codes_are_those_of_marks, lengths_are_those_of_codes, shrunk_codes_are_laid,
};

/// Where no table has too many rows, or else one of the limits 0 to 10 is passed anyhow, it is enough that the bytes of signatures are there
/// whole: numbers that are cut change none of the limits 0 to 14.
pub fn limits_stay_where_signatures_fit()
    ensures { (p : Parts) (codes : List (List ℕ)) → (first_over 0 (counts_of (image_of_parts p codes)) ≡ None → SignaturesFit p) → over_of_parts (parts_cut p) codes ≡ over_of_parts p codes }
{}

/// The first limit that a file's kept rows pass is that of their parts with codes of as many bytes, and then that of the codes.
pub fn limits_are_those_of_parts()
    ensures limits { (files : List FilePart) (marks : List Bool) (f : ℕ) (x : FilePart) (p : Assembly) (kept : InFile) (parts : Parts) → IsKeptFile files marks f x p kept parts → (codes : List (List ℕ)) → length (flat_map (λ c. c) codes) ≡ short_lengths (codes_of_kept (masks_of kept) x) → over_at files marks f (x, p) ≡ option_or (of_file f (over_of_parts parts codes)) (option_or (over_distances f (codes_of_kept (masks_of kept) x)) (over_switches f (codes_of_kept (masks_of kept) x))) }
    ensures lengths { (files : List FilePart) (marks : List Bool) (f : ℕ) (x : FilePart) (p : Assembly) (kept : InFile) (parts : Parts) → IsKeptFile files marks f x p kept parts → (token : ℕ → ℕ) → length (flat_map (λ c. c) (map (shrunk_bytes token) (codes_of_kept (masks_of kept) x))) ≡ short_lengths (codes_of_kept (masks_of kept) x) }
{
    kept_parts_are_laid();
    limits_go_by_bytes();
    codes_are_those_of_marks();
    lengths_are_those_of_codes();
    shrunk_codes_are_laid();
}

/// Where the parts of a file's kept rows pass none of the limits 0 to 14 with the shortened codes, their image is the file's.
pub fn images_are_those_of_parts()
    ensures { (files : List FilePart) (marks : List Bool) (f : ℕ) (x : FilePart) (p : Assembly) (kept : InFile) (parts : Parts) → IsKeptFile files marks f x p kept parts → (i : InImage) → i ≡ record { kept = kept; metadata = x.metadata; strings = (pools_of parts).strings } → over_of_parts parts (map (shrunk_bytes (token_number i)) (codes_of_kept (masks_of kept) x)) ≡ None → image_of_parts parts (map (shrunk_bytes (token_number i)) (codes_of_kept (masks_of kept) x)) ≡ image_at files marks f (x, p) }
{
    kept_parts_are_laid();
    limits_go_by_bytes();
    parts_that_fit_stay();
    codes_are_those_of_marks();
    lengths_are_those_of_codes();
    shrunk_codes_are_laid();
}
