//! What the rules of classes give their types.

ghost use Rattle.std.specs.Prelude.{ℕ};
ghost use Rattle.classes.specs.Classes.{Classes};
ghost use Rattle.classes.specs.Reading.{IsRead};
ghost use Rattle.class_rules.specs.Rules.{Keeps};
ghost use Rattle.cil_types.specs.Spelt.{AreSpelt};

/// The kinds of classes that break no rule have spellings.
pub fn rules_give_spellings()
    ensures { (n : ℕ) (cs : Classes) → IsRead n cs → Keeps n cs → AreSpelt cs }
{}
