//! Where the places of a file's code lead.

ghost use Rattle.std.specs.Prelude.{◌≡◌, ℕ, ◌≤◌, Bool, true, List, Some, slice_get};
ghost use Rattle.cil_code.specs.Bodies.{BodyPart};
ghost use Rattle.file_tables.specs.File.{FilePart};
ghost use Rattle.file_tables.specs.Metadata.{rows_of};
ghost use Rattle.machine.specs.Trace.{trace};
ghost use Rattle.machine_rename.specs.Runs.{RunsOn};
ghost use Rattle.classes.specs.Listed.{program_of};
ghost use Rattle.assemblies.specs.Binding.{sources_of};
ghost use Rattle.assemblies.specs.Chosen.{chosen_set};
ghost use Rattle.assemblies.specs.Closed.{Each};
ghost use Rattle.image_form.specs.Form.{clauses_nest};
ghost use Rattle.short_code.specs.Short.{long_end};
ghost use Rattle.kept_closure.specs.Kept.{HasNamed, IsClosed, PlacesLead};
ghost use Rattle.kept_joined.specs.Judged.{PlacesRise};
ghost use Rattle.chosen_image.specs.Spells.{ClauseSpells};
ghost use Rattle.world_rows.specs.Tokens.{methods};
ghost use Rattle.world_rows.specs.Lines.{raw_code};
ghost use Rattle.world_rows.specs.World.{size_of, rows_alone, assemblies_of, ecma_program};
ghost use Rattle.base_rows.specs.Facts.{base};
ghost use Rattle.rows_resolved.specs.Resolved.{IsAccepted};
ghost use Rattle.code_shrink.specs.Shrunk.{pieces_of};
ghost use Rattle.converted.specs.Bodies.{body_of};
ghost use Rattle.converted.specs.Choosing.{choice_of};
ghost use Rattle.image_codes.specs.Bytes.{HasBytes};

use image_codes::law::accepted_codes_name_kept_rows;
use kept_joined::law::kept_rows_are_joined;
use rows_resolved::law::{
    accepted_classes_are_judged, accepted_files_have_all, accepted_names_resolve,
};

/// The clauses of each kept body of accepted files are of a known kind, their regions begin and end with instructions, and they nest (rule 44).
pub fn kept_clauses_lie_well()
    ensures spell { (files : List FilePart) (marks : List Bool) (f n : ℕ) (x : FilePart) (row : List ℕ) (b : BodyPart) → IsAccepted files → slice_get files f ≡ Some x → HasBytes x → HasNamed (assemblies_of files) (choice_of files marks) → slice_get (rows_of x.metadata methods) n ≡ Some row → (choice_of files marks f).methods n ≡ true → body_of x row ≡ Some b → Each (ClauseSpells (pieces_of b.code)) (raw_code x.metadata b).clauses }
    ensures nest { (files : List FilePart) (marks : List Bool) (f n : ℕ) (x : FilePart) (row : List ℕ) (b : BodyPart) → IsAccepted files → slice_get files f ≡ Some x → HasBytes x → HasNamed (assemblies_of files) (choice_of files marks) → slice_get (rows_of x.metadata methods) n ≡ Some row → (choice_of files marks f).methods n ≡ true → body_of x row ≡ Some b → clauses_nest (long_end (pieces_of b.code)) (raw_code x.metadata b).clauses ≡ true }
{
    accepted_codes_name_kept_rows();
}

/// The way from the image's places to the file's begins at the start and keeps their order, of any code; and in the kept code of accepted
/// files it leads back to each place of an instruction or a clause.
pub fn places_lead_back()
    ensures rise { (files : List FilePart) (marks : List Bool) → PlacesRise (choice_of files marks) }
    ensures lead { (files : List FilePart) (marks : List Bool) → IsAccepted files → ((f : ℕ) (x : FilePart) → slice_get files f ≡ Some x → HasBytes x) → HasNamed (assemblies_of files) (choice_of files marks) → PlacesLead (assemblies_of files) (choice_of files marks) }
{
    accepted_codes_name_kept_rows();
}

/// Behind the base library a closed set of an accepted world's rows runs as all rows do.
pub fn kept_rows_run()
    ensures { (xs : List FilePart) (marks : List Bool) (more : ℕ) → IsAccepted (base xs) → ((f : ℕ) (x : FilePart) → slice_get (base xs) f ≡ Some x → HasBytes x) → IsClosed (size_of (rows_alone (base xs))) (assemblies_of (base xs)) (choice_of (base xs) marks) → size_of (rows_alone (base xs)) ≤ more →
        (n most : ℕ) → RunsOn (ecma_program (base xs)) n most → trace (program_of (sources_of more (chosen_set (choice_of (base xs) marks) (assemblies_of (base xs))))) n most ≡ trace (ecma_program (base xs)) n most }
{
    accepted_files_have_all();
    accepted_names_resolve();
    accepted_classes_are_judged();
    places_lead_back();
    kept_rows_are_joined();
}
