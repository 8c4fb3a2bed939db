//! That the signatures of kept rows are whole where no table has too many of them, and so what numbers that are cut change.

ghost use Rattle.std.specs.Prelude.{◌≡◌, ℕ, Bool, List, Ok, Some, None, slice_get};
ghost use Rattle.file_tables.specs.File.{FilePart, file_of};
ghost use Rattle.assemblies.specs.Rows.{Assembly};
ghost use Rattle.kept_closure.specs.Kept.{HasNamed};
ghost use Rattle.world_rows.specs.World.{assemblies_of};
ghost use Rattle.rows_resolved.specs.Resolved.{IsAccepted};
ghost use Rattle.code_shrink.specs.Lines.{AreBytes};
ghost use Rattle.image_bytes.specs.Layout.{counts_of};
ghost use Rattle.msspot_write.specs.Parts.{first_over, image_of_parts};
ghost use Rattle.converted.specs.Choosing.{choice_of};
ghost use Rattle.converted.specs.Images.{parts_at};
ghost use Rattle.kept_image.specs.Kept.{CutsOnlyPastLimits, SignaturesFit};

use fitting_files::law::numbers_within_limits_fit;
use kept_image::law::limits_stay_where_signatures_fit;

/// Where the kept rows of a file pass none of the limits 0 to 10 and have what they name, each byte of their signatures is there whole:
/// types are named by rows of few, and parameters and locals are no more than 65,535 (II.23.2), whatever the codes are.
pub fn signatures_of_few_rows_fit()
    ensures { (files : List FilePart) (marks : List Bool) (f : ℕ) (x : FilePart) (p : Assembly) → slice_get files f ≡ Some x → slice_get (assemblies_of files) f ≡ Some p → HasNamed (assemblies_of files) (choice_of files marks) → (codes : List (List ℕ)) → first_over 0 (counts_of (image_of_parts (parts_at files marks f x p) codes)) ≡ None → SignaturesFit (parts_at files marks f x p) }
{}

/// In a file of an accepted world, read from bytes, whose kept rows have what they name, numbers are cut only past the limits of counts;
/// and where they are cut, each of the limits 0 to 14 is passed as without.
pub fn cut_numbers_pass_limits()
    ensures { (files : List FilePart) (marks : List Bool) (f : ℕ) (bytes : List ℕ) (x : FilePart) (p : Assembly) → IsAccepted files → slice_get files f ≡ Some x → slice_get (assemblies_of files) f ≡ Some p → AreBytes bytes → file_of bytes ≡ Ok x → HasNamed (assemblies_of files) (choice_of files marks) → CutsOnlyPastLimits files marks f x p }
{
    signatures_of_few_rows_fit();
    limits_stay_where_signatures_fit();
    numbers_within_limits_fit();
}
