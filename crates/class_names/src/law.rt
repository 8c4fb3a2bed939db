//! Laws of full names as units. The function does nothing: its contract is the law.

ghost use Rattle.std.specs.Prelude.{◌≡◌};
ghost use Rattle.machine.specs.Data.{Id};
ghost use Rattle.machine.specs.Texts.{units_of_name};
ghost use Rattle.classes.specs.Classes.{Classes};
ghost use Rattle.classes.specs.Queries.{full_name};
ghost use Rattle.class_names.specs.Units.{full_units};
ghost use Rattle.class_names.specs.Texts.{AreTexts};

/// The units of the text that is a class's full name are those that are told of it.
pub fn units_are_of_full_names()
    ensures { (cs : Classes) → AreTexts cs → (c : Id) → units_of_name (full_name cs c) ≡ full_units cs c }
{}
