//! The rows that are marked by the closure of the rules are those that are needed.

ghost use Rattle.std.specs.Prelude.{◌≡◌, ℕ, Bool, List};
ghost use Rattle.row_closure.specs.declared.rule.Rule.{Rule};
ghost use Rattle.row_closure.specs.Closure.{holds, IsClosure};
ghost use Rattle.assemblies.specs.Rows.{Assembly};
ghost use Rattle.assemblies.specs.Chosen.{Choice};
ghost use Rattle.kept_closure.specs.Kept.{HasAll, IsNeeded};
ghost use Rattle.kept_rules.specs.Row.{marks};
ghost use Rattle.kept_rules.specs.Rules.{MembersStand};
ghost use Rattle.kept_numbers.specs.Made.{AreMade};
ghost use Rattle.row_numbers.specs.declared.table.Table.{Table};
ghost use Rattle.row_numbers.specs.Tables.{row_in, AreCounts};
ghost use Rattle.kept_marks.specs.Kept.{Marked, is_kept, marked};

/// Where the marks are the closure of the roots under the rules of the rows that may be kept, the choice of the rows that are
/// kept is the one that is needed.
pub fn the_marked_rows_are_needed()
    ensures { (size : ℕ) (ps : List Assembly) (base keep : ℕ → Choice) (rules : List Rule) (roots : ℕ → Bool) (bits : List Bool) → HasAll ps base → MembersStand size ps base → AreMade size ps base roots rules → IsClosure rules roots (holds bits) → ((t : Table) (f n : ℕ) → marks keep (row_in t f n) ≡ is_kept ps bits t f n) → IsNeeded size ps keep }
{}

/// By the counts of assemblies, the rows that are marked are those that are kept.
pub fn marked_rows_are_kept()
    ensures { (ps : List Assembly) (k : Marked) (t : Table) (f n : ℕ) → AreCounts ps k.counts → marked k t f n ≡ is_kept ps k.marks t f n }
{}
