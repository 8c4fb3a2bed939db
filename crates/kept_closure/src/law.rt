//! A closed set of rows, over assemblies whose names resolve, holds together.
ghost use Rattle.std.specs.Prelude.{◌≡◌, ℕ, List};
ghost use Rattle.assemblies.specs.Rows.{Assembly};
ghost use Rattle.assemblies.specs.Chosen.{Choice};
ghost use Rattle.assemblies.specs.Closed.{Closed};
ghost use Rattle.kept_closure.specs.Kept.{HasAll, IsClosed, Resolves, PlacesLead};

/// What a kept row names is kept, and is there.
pub fn kept_rows_are_closed()
    ensures { (size : ℕ) (ps : List Assembly) (all keep : ℕ → Choice) → HasAll ps all → Resolves size ps all → IsClosed size ps keep → PlacesLead ps keep → Closed size keep ps }
{}
