//! The links of slots are those of the rules over rows.

ghost use Rattle.std.specs.Prelude.{ℕ, List};
ghost use Rattle.machine.specs.Data.{Id};
ghost use Rattle.assemblies.specs.Rows.{Assembly};
ghost use Rattle.assemblies.specs.Binding.{classes_of};
ghost use Rattle.class_order.specs.Order.{ChainsEnd};
ghost use Rattle.slot_links.specs.Slots.{AreReached, slot_links};
ghost use Rattle.slot_links.specs.Rules.{AreSlotRules};

/// Where superclasses don't go in a circle (rule 24), the links of a file's classes, each with what it reaches, are those of the rules by
/// which their methods take slots and fill the methods of interfaces.
pub fn slot_links_are_rules()
    ensures { (size : ℕ) (ps : List Assembly) (f : ℕ) (reached : List (List Id)) → ChainsEnd (classes_of size ps) → AreReached (classes_of size ps) f reached → AreSlotRules size ps f (slot_links (classes_of size ps) f 0 reached) }
{}
