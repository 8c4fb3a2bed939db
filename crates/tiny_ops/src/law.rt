//! What a memory's places keep of a value is what the machine's places keep.

ghost use Rattle.std.specs.Prelude.{◌≡◌, Option, Some, None};
ghost use Rattle.board_types.specs.declared.value.Value.{Value};
ghost use Rattle.machine.specs.Data.{Cell};
ghost use Rattle.machine.specs.Numbers.{kept_in, zero_in};
ghost use Rattle.ram_words.specs.Elements.{HasKind, cut_by, zero_by};
ghost use Rattle.tiny_ops.specs.Operators.{Leads, stack_value};

/// A place keeps every value of its kind cut as the machine cuts it, and no other; a new place holds the machine's zero.
pub fn places_keep_alike()
    ensures kept { (l : Leads) (cell : Cell) (v : Value) → HasKind cell v → kept_in cell (stack_value l v) ≡ Some (stack_value l (cut_by (Some cell) v)) }
    ensures other { (l : Leads) (cell : Cell) (v : Value) → (HasKind cell v → ⊥) → kept_in cell (stack_value l v) ≡ None }
    ensures zero { (l : Leads) (cell : Option Cell) → stack_value l (zero_by cell) ≡ zero_in cell }
{}
