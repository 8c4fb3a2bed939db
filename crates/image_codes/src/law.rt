//! What the codes of a file's kept methods are in an accepted world, and in the image that is laid for its kept rows.
ghost use Rattle.std.specs.Prelude.{◌≡◌, ℕ, Bool, List, Ok, Some, None, length, map, slice_get};
ghost use Rattle.std.specs.List.{flat_map};
ghost use Rattle.file_tables.specs.File.{FilePart, file_of};
ghost use Rattle.assemblies.specs.Rows.{Assembly};
ghost use Rattle.kept_closure.specs.Kept.{HasNamed};
ghost use Rattle.world_rows.specs.World.{assemblies_of};
ghost use Rattle.rows_resolved.specs.Resolved.{IsAccepted};
ghost use Rattle.row_numbers.specs.Tables.{AreCounts};
ghost use Rattle.kept_marks.specs.Masks.{Masks, InFile, masks_of};
ghost use Rattle.code_shrink.specs.Lines.{AreBytes};
ghost use Rattle.code_shrink.specs.Shrunk.{shrunk_bytes};
ghost use Rattle.converted.specs.Bodies.{methods_of};
ghost use Rattle.converted.specs.Choosing.{choice_of};
ghost use Rattle.converted.specs.Images.{codes_for_kept, image_at};
ghost use Rattle.converted.specs.Over.{kept_codes, over_counts};
ghost use Rattle.image_numbers.specs.Numbers.{InImage, token_number, token_word};
ghost use Rattle.image_numbers.specs.Named.{AllNameKept, AreNumbersOf};
ghost use Rattle.image_codes.specs.Bytes.{HasBytes};
ghost use Rattle.image_codes.specs.Codes.{codes_of_kept, AllCanShrink, short_lengths};

use msspot_write::law::literals_are_found;

/// A file that is read from bytes without a broken rule has bytes.
pub fn opened_files_have_bytes()
    ensures { (bytes : List ℕ) (x : FilePart) → AreBytes bytes → file_of bytes ≡ Ok x → HasBytes x }
{}

/// The code of files that the verdict accepts breaks no rule of opcodes and ends, and leads to instructions (rules 41 to 43).
pub fn accepted_codes_can_be_shrunk()
    ensures { (files : List FilePart) (f : ℕ) (x : FilePart) (kept : Masks) → IsAccepted files → slice_get files f ≡ Some x → HasBytes x → AllCanShrink kept x }
{}

/// Where the rows that marks keep of accepted files have what they name, the kept code of each file names kept rows and literals that are
/// there (rule 46).
pub fn accepted_codes_name_kept_rows()
    ensures { (files : List FilePart) (marks : List Bool) (f : ℕ) (x : FilePart) → IsAccepted files → slice_get files f ≡ Some x → HasBytes x → HasNamed (assemblies_of files) (choice_of files marks) → AllNameKept (choice_of files marks f) x }
{}

/// The codes of a file's kept rows are those of the rows that marks keep.
pub fn codes_are_those_of_marks()
    ensures { (files : List FilePart) (marks : List Bool) (f : ℕ) (x : FilePart) (c : InFile) → AreCounts (assemblies_of files) c.kept.counts → c.kept.marks ≡ marks → c.file ≡ f → codes_of_kept (masks_of c) x ≡ kept_codes files marks f x }
{}

/// The codes that are laid for the kept rows of accepted files are the shortened codes, where each token gets its word; and within the
/// limits 0 to 14 of the image two bytes hold it.
pub fn shrunk_codes_are_laid()
    ensures words { (files : List FilePart) (marks : List Bool) (f : ℕ) (x : FilePart) (p : Assembly) (i : InImage) → IsAccepted files → slice_get files f ≡ Some x → slice_get (assemblies_of files) f ≡ Some p → HasBytes x → HasNamed (assemblies_of files) (choice_of files marks) → AreNumbersOf files marks f x p i → codes_for_kept (choice_of files marks f) p (methods_of x p) ≡ map (shrunk_bytes (token_word i)) (kept_codes files marks f x) }
    ensures numbers { (files : List FilePart) (marks : List Bool) (f : ℕ) (x : FilePart) (p : Assembly) (i : InImage) → IsAccepted files → slice_get files f ≡ Some x → slice_get (assemblies_of files) f ≡ Some p → HasBytes x → HasNamed (assemblies_of files) (choice_of files marks) → AreNumbersOf files marks f x p i → over_counts f (image_at files marks f (x, p)) ≡ None → codes_for_kept (choice_of files marks f) p (methods_of x p) ≡ map (shrunk_bytes (token_number i)) (kept_codes files marks f x) }
{
    literals_are_found();
}

/// Whatever numbers their tokens get, the codes of the kept rows of accepted files have so many bytes.
pub fn lengths_are_those_of_codes()
    ensures { (files : List FilePart) (marks : List Bool) (f : ℕ) (x : FilePart) (token : ℕ → ℕ) → IsAccepted files → slice_get files f ≡ Some x → HasBytes x → length (flat_map (λ c. c) (map (shrunk_bytes token) (kept_codes files marks f x))) ≡ short_lengths (kept_codes files marks f x) }
{}
