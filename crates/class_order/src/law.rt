//! What the rules of classes give their order.

ghost use Rattle.std.specs.Prelude.{ℕ};
ghost use Rattle.classes.specs.Classes.{Classes};
ghost use Rattle.classes.specs.Reading.{IsRead};
ghost use Rattle.class_rules.specs.Base.{IsBase};
ghost use Rattle.class_rules.specs.Rules.{Keeps};
ghost use Rattle.class_order.specs.Order.{InOrder};

/// Classes over the base library that break no rule are in order.
pub fn rules_give_order()
    ensures { (n : ℕ) (cs : Classes) → IsRead n cs → IsBase cs → Keeps n cs → InOrder cs }
{}
