//! Laws of the steps that searches in a set take. Each function does nothing: its contract is the law.

ghost use Rattle.std.specs.Prelude.{◌≡◌, ℕ, ◌<◌, ◌≤◌, List, Some};
ghost use Rattle.machine.specs.Data.{Id};
ghost use Rattle.classes.specs.Listed.{program_of};
ghost use Rattle.classes.specs.Queries.{array};
ghost use Rattle.assemblies.specs.Rows.{Assembly};
ghost use Rattle.assemblies.specs.Binding.{resolve_ref, classes_of, sources_of};
ghost use Rattle.assemblies.specs.Chosen.{Choice, chosen_set};
ghost use Rattle.assemblies.specs.Joined.{Joined};
ghost use Rattle.world_rows.specs.World.{type_count, reference_count, size_of};
ghost use Rattle.enough_steps.specs.Ended.{WaysEnd};

/// A reference names the same in any number of steps above that of all references.
pub fn references_name_the_same()
    ensures { (ps : List Assembly) (k m : ℕ) → reference_count ps < k → k ≤ m → (f n : ℕ) → resolve_ref k ps f n ≡ resolve_ref m ps f n }
{}

/// A set of which the ways of superclasses, interfaces and enclosing types end has one program, whether it is read in as many steps as
/// the set has rows or in more.
pub fn own_size_is_enough()
    ensures { (more : ℕ) (ps : List Assembly) → 0 < type_count ps → size_of ps ≤ more → WaysEnd more ps → program_of (sources_of (size_of ps) ps) ≡ program_of (sources_of more ps) }
{}

/// In a closed choice of the rows of a set these ways end, as they do in the whole set.
pub fn chosen_ways_end()
    ensures { (size more : ℕ) (keep : ℕ → Choice) (ps : List Assembly) → Joined size more keep ps → WaysEnd more (chosen_set keep ps) }
{}

/// So its program is the same in its own size, where there is a class of arrays.
pub fn chosen_rows_need_their_own_size()
    ensures { (size more : ℕ) (keep : ℕ → Choice) (ps : List Assembly) → Joined size more keep ps → (arrays : Id) → array (classes_of size ps) ≡ Some arrays → size_of (chosen_set keep ps) ≤ more → program_of (sources_of (size_of (chosen_set keep ps)) (chosen_set keep ps)) ≡ program_of (sources_of more (chosen_set keep ps)) }
{}
