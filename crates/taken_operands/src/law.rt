//! Laws of operands. Each function does nothing: its contract is the law.

ghost use Rattle.std.specs.Prelude.{◌≡◌, ℕ, ◌≤◌, List, Some};
ghost use Rattle.file_tables.specs.File.{FilePart};
ghost use Rattle.machine.specs.Data.{Id};
ghost use Rattle.classes.specs.Queries.{array};
ghost use Rattle.assemblies.specs.Rows.{Assembly};
ghost use Rattle.assemblies.specs.Binding.{classes_of, sources_of};
ghost use Rattle.assemblies.specs.Chosen.{Choice, chosen_set};
ghost use Rattle.assemblies.specs.Joined.{Joined};
ghost use Rattle.world_rows.specs.World.{size_of, rows_alone, assemblies_of, ecma_sources};
ghost use Rattle.base_rows.specs.Facts.{base};
ghost use Rattle.kept_closure.specs.Kept.{IsClosed, PlacesLead};
ghost use Rattle.kept_joined.specs.Judged.{PlacesRise};
ghost use Rattle.rows_resolved.specs.Resolved.{IsAccepted};
ghost use Rattle.board_program.specs.Listed.{AreTaken};
ghost use Rattle.taken_operands.specs.Fit.{OperandsFit};

/// In accepted files the operand of each instruction of each method is of the kind that the instruction takes (rule 46), whether a run
/// comes to it or not.
pub fn accepted_operands_fit()
    ensures { (files : List FilePart) → IsAccepted files → OperandsFit (ecma_sources files) }
{}

/// Where the operands of all code of a set are of these kinds, those of a closed choice of its rows are, under their new numbers.
pub fn kept_operands_fit()
    ensures { (size more : ℕ) (keep : ℕ → Choice) (ps : List Assembly) → Joined size more keep ps → OperandsFit (sources_of size ps) → OperandsFit (sources_of more (chosen_set keep ps)) }
{}

/// So a board takes the operands of such a choice, which it binds by itself: in as many steps as the choice has rows.
pub fn kept_operands_are_taken()
    ensures { (size more : ℕ) (keep : ℕ → Choice) (ps : List Assembly) → Joined size more keep ps → (arrays : Id) → array (classes_of size ps) ≡ Some arrays → size_of (chosen_set keep ps) ≤ more → OperandsFit (sources_of size ps) → AreTaken (chosen_set keep ps) }
{}

/// It takes those of each closed choice of the rows of files that are accepted behind the base library.
pub fn accepted_choices_are_taken()
    ensures { (xs : List FilePart) (keep : ℕ → Choice) → IsAccepted (base xs) → IsClosed (size_of (rows_alone (base xs))) (assemblies_of (base xs)) keep → PlacesLead (assemblies_of (base xs)) keep → PlacesRise keep → AreTaken (chosen_set keep (assemblies_of (base xs))) }
{}
