//! What links the order of a world's types to the pass.

ghost use Rattle.std.specs.Prelude.{◌≡◌};
ghost use Rattle.ecma_types.specs.declared.stack.PlaceType.{PlaceType};
ghost use Rattle.machine_typed.specs.Typing.{loaded};
ghost use Rattle.classes.specs.Code.{Sources};
ghost use Rattle.code_rules.specs.Judgement.{lattice_of};
ghost use Rattle.place_types.specs.Types.{place_of, stack_or_never, Agrees as OrderAgrees};
ghost use Rattle.cil_types.specs.Spelt.{AreSpelt};
ghost use Rattle.forward_pass.specs.Seen.{Agrees};
ghost use Rattle.pass_steps.specs.Seen.{fits_seen, stack_seen};
ghost use Rattle.world_lattice.specs.Order.{Merges, is_assignable, loaded_as};

/// The order of the types of some classes is what the pass over the code of any program of these classes asks for, where their kinds
/// have spellings, and what the effects of instructions ask for (ECMA-335 I.8.7, III.1.8.1.3); and a value loaded from a place has the
/// type that the machine has it have, where it has one.
pub fn lattice_agrees()
    ensures pass { (x : Sources) → AreSpelt x.classes → Agrees stack_seen (is_assignable x.classes) (Merges x.classes) (lattice_of x) }
    ensures effects { (x : Sources) → OrderAgrees (is_assignable x.classes) (fits_seen x) }
    ensures loads { (of : PlaceType) → stack_or_never (loaded_as of) ≡ loaded (place_of of) }
{}
