//! What a file of an accepted world tells by numbers, and all numbers of its image within the limits of counts.

ghost use Rattle.std.specs.Prelude.{◌≡◌, ℕ, Bool, List, Ok, Some, None, slice_get};
ghost use Rattle.file_tables.specs.File.{FilePart, file_of};
ghost use Rattle.assemblies.specs.Rows.{Assembly};
ghost use Rattle.kept_closure.specs.Kept.{HasNamed};
ghost use Rattle.world_rows.specs.World.{assemblies_of};
ghost use Rattle.rows_resolved.specs.Resolved.{IsAccepted};
ghost use Rattle.code_shrink.specs.Lines.{AreBytes};
ghost use Rattle.converted.specs.Bodies.{methods_of};
ghost use Rattle.converted.specs.Choosing.{choice_of};
ghost use Rattle.converted.specs.Images.{NumbersFit, parts_at, image_at};
ghost use Rattle.converted.specs.Over.{over_counts};
ghost use Rattle.fitting_parts.specs.Kept.{AreThere, AreFew, FileNumbersSmall};

use image_codes::law::{
    accepted_codes_name_kept_rows, lengths_are_those_of_codes, opened_files_have_bytes,
    shrunk_codes_are_laid,
};

/// The rows of a file that marks keep are rows of its tables; and within the limits 0 to 10 there are few of them.
pub fn kept_rows_are_few()
    ensures there { (files : List FilePart) (marks : List Bool) (f : ℕ) (p : Assembly) → slice_get (assemblies_of files) f ≡ Some p → AreThere (choice_of files marks f) p }
    ensures few { (files : List FilePart) (marks : List Bool) (f : ℕ) (x : FilePart) (p : Assembly) → slice_get files f ≡ Some x → slice_get (assemblies_of files) f ≡ Some p → over_counts f (image_at files marks f (x, p)) ≡ None → AreFew (choice_of files marks f) p (methods_of x p) }
{}

/// What a file of an accepted world, read from bytes, tells by numbers is small within the limits of counts: versions stand in columns of
/// two bytes (II.22.2, II.22.5), and so does the room for the stack (II.25.4.3); signatures count no more than 65,535 parameters or locals
/// (II.23.2); and clauses lie within the shortened code (rule 44), which the pool of codes has room for. From there on all numbers of the
/// parts of its image have two bytes.
pub fn numbers_within_limits_fit()
    ensures file { (files : List FilePart) (marks : List Bool) (f : ℕ) (bytes : List ℕ) (x : FilePart) (p : Assembly) → IsAccepted files → slice_get files f ≡ Some x → slice_get (assemblies_of files) f ≡ Some p → AreBytes bytes → file_of bytes ≡ Ok x → HasNamed (assemblies_of files) (choice_of files marks) → over_counts f (image_at files marks f (x, p)) ≡ None → FileNumbersSmall (choice_of files marks f) p (methods_of x p) }
    ensures parts { (files : List FilePart) (marks : List Bool) (f : ℕ) (bytes : List ℕ) (x : FilePart) (p : Assembly) → IsAccepted files → slice_get files f ≡ Some x → slice_get (assemblies_of files) f ≡ Some p → AreBytes bytes → file_of bytes ≡ Ok x → HasNamed (assemblies_of files) (choice_of files marks) → over_counts f (image_at files marks f (x, p)) ≡ None → NumbersFit (parts_at files marks f x p) }
{
    opened_files_have_bytes();
    accepted_codes_name_kept_rows();
    lengths_are_those_of_codes();
    shrunk_codes_are_laid();
}
