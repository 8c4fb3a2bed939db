//! Kept rows run as all rows do.
ghost use Rattle.std.specs.Prelude.{◌≡◌, ℕ, ◌≤◌, List};
ghost use Rattle.machine.specs.Trace.{trace};
ghost use Rattle.machine_rename.specs.Runs.{RunsOn};
ghost use Rattle.classes.specs.Listed.{program_of};
ghost use Rattle.assemblies.specs.Rows.{Assembly};
ghost use Rattle.assemblies.specs.Binding.{sources_of};
ghost use Rattle.assemblies.specs.Chosen.{Choice, chosen_set};
ghost use Rattle.assemblies.specs.Joined.{Joined};
ghost use Rattle.kept_closure.specs.Kept.{HasAll, IsClosed, Resolves, PlacesLead};
ghost use Rattle.kept_joined.specs.Judged.{Judged, PlacesRise};

/// Over a set whose names resolve and that is judged well, a closed set of rows has all that a choice of rows must hold together; and its run is the run of the whole set.
pub fn kept_rows_are_joined()
    ensures joined { (size more : ℕ) (ps : List Assembly) (all keep : ℕ → Choice) → size ≤ more → HasAll ps all → Resolves size ps all → Judged size ps → IsClosed size ps keep → PlacesLead ps keep → PlacesRise keep → Joined size more keep ps }
    ensures traces { (size more : ℕ) (ps : List Assembly) (all keep : ℕ → Choice) → size ≤ more → HasAll ps all → Resolves size ps all → Judged size ps → IsClosed size ps keep → PlacesLead ps keep → PlacesRise keep → (n most : ℕ) → RunsOn (program_of (sources_of size ps)) n most → trace (program_of (sources_of more (chosen_set keep ps))) n most ≡ trace (program_of (sources_of size ps)) n most }
{}
