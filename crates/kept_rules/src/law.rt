//! The rows that are kept are the least set of rows that has the roots and is closed under the rules.
ghost use Rattle.std.specs.Prelude.{ℕ, List};
ghost use Rattle.assemblies.specs.Rows.{Assembly};
ghost use Rattle.assemblies.specs.Chosen.{Choice};
ghost use Rattle.kept_closure.specs.Kept.{HasAll, Keeps, IsNeeded};
ghost use Rattle.kept_rules.specs.Row.{marks};
ghost use Rattle.kept_rules.specs.Rules.{IsRuled, IsLeast, MembersStand};

/// A choice of rows keeps what its rows ask for exactly where it has the roots and is closed under the rules.
pub fn kept_rows_are_ruled()
    ensures ruled { (size : ℕ) (ps : List Assembly) (keep : ℕ → Choice) → Keeps size ps keep → IsRuled size ps (marks keep) }
    ensures kept { (size : ℕ) (ps : List Assembly) (keep : ℕ → Choice) → IsRuled size ps (marks keep) → Keeps size ps keep }
{}

/// The least choice that has the roots and is closed under the rules is the one that is needed, where the set has for its rows
/// a choice of all that may be kept in which no reference to a field names a literal one (rule 46).
pub fn the_least_rows_are_needed()
    ensures { (size : ℕ) (ps : List Assembly) (base keep : ℕ → Choice) → HasAll ps base → MembersStand size ps base → IsLeast size ps (marks keep) → IsNeeded size ps keep }
{}
