//! The closure of rules over numbers of rows is what is needed.
ghost use Rattle.std.specs.Prelude.{◌≡◌, ◌&&◌, ℕ, Bool, List, Some, slice_get};
ghost use Rattle.row_closure.specs.declared.rule.Rule.{Rule};
ghost use Rattle.row_closure.specs.Closure.{IsClosure};
ghost use Rattle.assemblies.specs.Rows.{Assembly};
ghost use Rattle.assemblies.specs.Chosen.{Choice};
ghost use Rattle.kept_closure.specs.Kept.{HasAll, IsNeeded};
ghost use Rattle.kept_rules.specs.Row.{Row, marks};
ghost use Rattle.kept_rules.specs.Rules.{MembersStand};
ghost use Rattle.kept_numbers.specs.Numbers.{IsThere, all_rows, number_of};
ghost use Rattle.kept_numbers.specs.Made.{AreMade};

/// A row that is there stands at its number.
pub fn rows_stand_at_their_numbers()
    ensures { (ps : List Assembly) (r : Row) → IsThere ps r → slice_get (all_rows ps) (number_of ps r) ≡ Some r }
{}

/// Where the marks and rules over numbers are those of the rows that may be kept, the closure has the rows that are needed.
pub fn the_closure_is_needed()
    ensures { (size : ℕ) (ps : List Assembly) (base keep : ℕ → Choice) (rules : List Rule) (roots closure : ℕ → Bool) → HasAll ps base → MembersStand size ps base → AreMade size ps base roots rules → IsClosure rules roots closure → ((r : Row) → marks keep r ≡ (marks base r && closure (number_of ps r))) → IsNeeded size ps keep }
{}
