//! What links the types of a world to the machine's.

ghost use Rattle.std.specs.Prelude.{◌≡◌, Bool, List, map};
ghost use Rattle.ecma_types.specs.declared.stack.PlaceType.{PlaceType as WorldPlace};
ghost use Rattle.ecma_types.specs.declared.stack.StackType.{StackType as WorldType};
ghost use Rattle.machine.specs.Data.{Id, CliType, PlaceType};
ghost use Rattle.machine_typed.specs.Typing.{StackType};
ghost use Rattle.place_types.specs.Types.{Agrees, fits_by, spelt, type_of};
ghost use Rattle.place_types.specs.Types.{id_up, id_down, type_up, type_down, place_up, place_down, stack_up, stack_down};

/// Each order of a world's references is that of some machine's types, so the effect of an instruction is told for every lattice; and
/// a type is as it is spelt.
pub fn each_lattice_agrees()
    ensures agrees { (is_assignable : WorldType → WorldType → Bool) → Agrees is_assignable (fits_by is_assignable) }
    ensures spelling { (t : WorldPlace) → type_of (spelt t) ≡ type_of t }
{}

/// What has rows from 1 instead of rows from 0 tells what it was.
pub fn rows_come_back()
    ensures ids { (c : Id) → id_down (id_up c) ≡ c }
    ensures types { (t : CliType) → type_down (type_up t) ≡ t }
    ensures places { (t : PlaceType) → place_down (place_up t) ≡ t }
    ensures stack { (t : StackType) → stack_down (stack_up t) ≡ t }
    ensures stacks { (ts : List StackType) → map stack_down (map stack_up ts) ≡ ts }
{}
