//! The law of chosen rows: a closed choice of the rows of a set, bound by names, answers the machine as the whole set does.
ghost use Rattle.std.specs.Prelude.{◌≡◌, ℕ, List, Some, slice_get};
ghost use Rattle.machine.specs.Data.{Id};
ghost use Rattle.machine.specs.Trace.{trace};
ghost use Rattle.machine_rename.specs.Rename.{Renaming, Answers};
ghost use Rattle.machine_rename.specs.Runs.{RunsOn};
ghost use Rattle.classes.specs.Classes.{OwnMethod};
ghost use Rattle.classes.specs.Queries.{methods_of, method_at};
ghost use Rattle.classes.specs.Listed.{program_of};
ghost use Rattle.assemblies.specs.Rows.{Assembly};
ghost use Rattle.assemblies.specs.Binding.{method_owner, classes_of, sources_of};
ghost use Rattle.assemblies.specs.Chosen.{Choice, chosen_set, renaming};
ghost use Rattle.assemblies.specs.Joined.{Joined};
ghost use Rattle.assemblies.specs.Ranges.{MethodsRise};

/// The two programs answer alike, and so they run alike.
pub fn chosen_rows_run_alike()
    ensures answers { (size more : ℕ) (keep : ℕ → Choice) (ps : List Assembly) → Joined size more keep ps → Answers (renaming keep ps) (program_of (sources_of more (chosen_set keep ps))) (program_of (sources_of size ps)) }
    ensures traces { (size more : ℕ) (keep : ℕ → Choice) (ps : List Assembly) → Joined size more keep ps → (n most : ℕ) → RunsOn (program_of (sources_of size ps)) n most → trace (program_of (sources_of more (chosen_set keep ps))) n most ≡ trace (program_of (sources_of size ps)) n most }
{}

/// Where the ranges of methods follow one another, each method belongs to the class that lists it, and is found there by its number.
pub fn methods_belong()
    ensures owner { (size : ℕ) (ps : List Assembly) → ((f : ℕ) (p : Assembly) → slice_get ps f ≡ Some p → MethodsRise p) → (c : Id) (i : ℕ) (m : OwnMethod) → slice_get (methods_of (classes_of size ps) c) i ≡ Some m → method_owner ps m.id ≡ Some c }
    ensures entry { (size : ℕ) (ps : List Assembly) → ((f : ℕ) (p : Assembly) → slice_get ps f ≡ Some p → MethodsRise p) → (c : Id) (i : ℕ) (m : OwnMethod) → slice_get (methods_of (classes_of size ps) c) i ≡ Some m → method_at (classes_of size ps) m.id ≡ Some m }
{}
