//! What the numbers of tokens are in the image of a file's kept rows.
ghost use Rattle.std.specs.Prelude.{◌≡◌, ℕ, Bool, List, Some, None, slice_get};
ghost use Rattle.file_tables.specs.File.{FilePart};
ghost use Rattle.assemblies.specs.Rows.{Assembly};
ghost use Rattle.assemblies.specs.Chosen.{chosen};
ghost use Rattle.world_rows.specs.World.{assemblies_of};
ghost use Rattle.image_form.specs.Form.{words};
ghost use Rattle.image_form.specs.Whole.{offsets};
ghost use Rattle.chosen_image.specs.Spells.{chosen_methods};
ghost use Rattle.code_shrink.specs.Lines.{AreBytes};
ghost use Rattle.converted.specs.Bodies.{methods_of};
ghost use Rattle.converted.specs.Choosing.{choice_of};
ghost use Rattle.converted.specs.Images.{image_at};
ghost use Rattle.converted.specs.Numbered.{AllGetNumbers};
ghost use Rattle.converted.specs.Over.{over_counts};
ghost use Rattle.image_numbers.specs.Numbers.{InImage, token_number, token_word};
ghost use Rattle.image_numbers.specs.Named.{AllNameKept, AreNumbersOf};

use msspot_write::law::literals_are_found;

/// Where the kept code of a file names only rows that are kept and literals that are there, each of its tokens gets the word that the
/// image has for the row or the literal; and where the image passes none of the limits 0 to 14, two bytes hold the word.
pub fn kept_tokens_get_their_words()
    ensures words { (files : List FilePart) (marks : List Bool) (f : ℕ) (x : FilePart) (p : Assembly) (i : InImage) → slice_get files f ≡ Some x → slice_get (assemblies_of files) f ≡ Some p → AreNumbersOf files marks f x p i → AreBytes x.metadata.user_strings → AllNameKept (choice_of files marks f) x → AllGetNumbers (choice_of files marks f) x (words (offsets (chosen (choice_of files marks f) p) (chosen_methods (choice_of files marks f) (methods_of x p)))) (token_word i) }
    ensures fits { (files : List FilePart) (marks : List Bool) (f : ℕ) (x : FilePart) (p : Assembly) (i : InImage) → slice_get files f ≡ Some x → slice_get (assemblies_of files) f ≡ Some p → AreNumbersOf files marks f x p i → over_counts f (image_at files marks f (x, p)) ≡ None → (token : ℕ) → token_number i token ≡ token_word i token }
    ensures numbers { (files : List FilePart) (marks : List Bool) (f : ℕ) (x : FilePart) (p : Assembly) (i : InImage) → slice_get files f ≡ Some x → slice_get (assemblies_of files) f ≡ Some p → AreNumbersOf files marks f x p i → AreBytes x.metadata.user_strings → AllNameKept (choice_of files marks f) x → over_counts f (image_at files marks f (x, p)) ≡ None → AllGetNumbers (choice_of files marks f) x (words (offsets (chosen (choice_of files marks f) p) (chosen_methods (choice_of files marks f) (methods_of x p)))) (token_number i) }
{
    literals_are_found();
}
