//! What the rows of members tell is what the effect of an instruction asks of its operand and its method.

ghost use Rattle.std.specs.Prelude.{◌≡◌, ◌++◌, true, List, map};
ghost use Rattle.std.specs.Option.{option_map};
ghost use Rattle.ecma_types.specs.declared.stack.PlaceType.{PlaceType as WorldPlace};
ghost use Rattle.machine.specs.Data.{Id, Plain};
ghost use Rattle.place_types.specs.Types.{place_of, place_up};
ghost use Rattle.classes.specs.Classes.{Classes, Signature};
ghost use Rattle.classes.specs.Listed.{this_before};
ghost use Rattle.classes.specs.Queries.{array, type_of};
ghost use Rattle.classes.specs.Queries.{place_of as place_in};
ghost use Rattle.class_rules.specs.Rules.{field_signature_fits, method_signature_fits, signature_fits};
ghost use Rattle.cil_types.specs.Spelt.{AreSpelt};
ghost use Rattle.verify_ops.specs.declared.facts.FieldOperand.{FieldOperand};
ghost use Rattle.verify_ops.specs.declared.facts.MethodOperand.{MethodOperand};
ghost use Rattle.verify_ops.specs.Facts.{result_of};
ghost use Rattle.ecma_effects.specs.Told.{TellsField, TellsMethod};
ghost use Rattle.method_facts.specs.Members.{IsField, IsMethod};
ghost use Rattle.method_facts.specs.Places.{place_to, result_to};

/// Where classes have spellings and the signature of a field or a method fits (26, 27), what is known of it is what its row tells; of a
/// method where the class of arrays is the one that is told.
pub fn rows_tell()
    ensures field { (cs : Classes) → AreSpelt cs → (id : Id) (f : FieldOperand) → (t : IsField cs id f) → field_signature_fits cs t.own ≡ true → TellsField cs id f }
    ensures method { (cs : Classes) → AreSpelt cs → (id : Id) (m : MethodOperand) → (t : IsMethod cs (array cs) id m) → method_signature_fits cs t.owner t.own ≡ true → TellsMethod cs id m }
{}

/// So are the places of a method those that the machine has.
pub fn places_tell()
    ensures arguments { (cs : Classes) → AreSpelt cs → (owner : Id) (s : Signature) (places : List WorldPlace) → places ≡ map place_to (this_before cs owner s ++ map (place_in cs) s.parameters) → signature_fits cs owner s ≡ true → map place_of places ≡ map place_up (this_before cs owner s ++ map (place_in cs) s.parameters) }
    ensures result { (cs : Classes) → AreSpelt cs → (owner : Id) (s : Signature) (place : WorldPlace) → place ≡ result_to (option_map (type_of cs) s.returns) → signature_fits cs owner s ≡ true → result_of place ≡ option_map place_up (option_map (λ r. Plain (type_of cs r)) s.returns) }
{}
