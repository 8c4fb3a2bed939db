//! Natives of `System.Enum` (ECMA-335 II.14.3).

ghost use Rattle.std.specs.Prelude.{◌≡◌, ◌∷◌, ◌<◌, List, length};
ghost use Rattle.std.specs.Option.{option_map};
ghost use Rattle.machine.specs.Data.{Value as Seen};
ghost use Rattle.machine.specs.Numbers.{int_meant, long_meant};
ghost use Rattle.machine.specs.Texts.{decimal_text};
ghost use Rattle.machine.specs.Natives.{same_number_value, is_box_of as box_of, equals_box as box_equals, enum_to_string, enum_equals};
ghost use Rattle.tiny_ram.specs.Things.{Entry};
ghost use Rattle.tiny_ram.specs.Memory.{Memory, IsEntry, shown, entry_value};
ghost use Rattle.tiny_ram.specs.Region.{Keeps};
ghost use Rattle.tiny_native.specs.Texts.{MadeText};
ghost use Rattle.ram_words.specs.Elements.{cell_in};
ghost use Rattle.tiny_ops.specs.Operators.{Leads, stack_value};
ghost use Rattle.board_ids.specs.Ids.{cli_type};
ghost use Rattle.tiny_native.specs.Types.{is_enum_type};
ghost use Rattle.tiny_native.specs.Seen.{Scene, Named, ValueNamed, Shows};
ghost use Rattle.tiny_native.specs.Copies.{number_in_text};
ghost use Rattle.tiny_native.specs.Ends.{Meets};

use crate::ending::NativeEnd;
use crate::find::{BOX, Found, find, same_type};
use crate::numbers::{signed_text, unsigned_text};
use board_ids::is_no_row;
use board_types::board::{BoardType, Known};
use board_types::value::{RamPlace, Value};
use cil_opcodes::shape::IntegerType;
use plain_types::elem::Elem;
use ram_words::elements::{ElementKind, kind_of};
use tiny_ram::Ram;

/// Whether it is the type of an enum: of a number, and with a row of its own.
fn is_enum(of: BoardType) -> bool
    ensures { result ≡ is_enum_type (cli_type of) }
{
    if of.ranks != 0 {
        return false;
    }
    match of.elem {
        Elem::Class | Elem::Value => false,
        _ => !is_no_row(of.of),
    }
}

/// The decimal text of an int32 of an integer type.
fn int_text(ram: &mut Ram, integer: IntegerType, n: i32) -> NativeEnd
    ensures { (m : Memory) → Keeps ram.old m → MadeText ram.new m (decimal_text (int_meant integer n)) result }
{
    match integer {
        IntegerType::U4 => unsigned_text(ram, n.cast_unsigned() as u64),
        _ => signed_text(ram, n as i64),
    }
}

/// The decimal text of an int64 of an integer type.
fn long_text(ram: &mut Ram, integer: IntegerType, n: i64) -> NativeEnd
    ensures { (m : Memory) → Keeps ram.old m → MadeText ram.new m (decimal_text (long_meant integer n)) result }
{
    match integer {
        IntegerType::U8 => unsigned_text(ram, n.cast_unsigned()),
        _ => signed_text(ram, n),
    }
}

/// The decimal text of a number that a place keeps in this way.
fn number_text(ram: &mut Ram, kind: Option<ElementKind>, value: Value) -> NativeEnd
    ensures { (c : Scene) → Shows c ram.old → Meets c ram.new (number_in_text c (option_map cell_in kind) (stack_value c.leads value)) result }
{
    let Some(kind) = kind else {
        return NativeEnd::NoCase;
    };
    let ElementKind::Number(integer) = kind else {
        return NativeEnd::NoCase;
    };
    match value {
        Value::Int(n) => int_text(ram, integer, n),
        Value::Long(n) => long_text(ram, integer, n),
        _ => NativeEnd::NoCase,
    }
}

/// What a box holds.
fn unboxed(ram: &Ram, thing: u32, of: BoardType) -> Value
    ensures { (m : Memory) (e : Entry) → Keeps ram.now m → IsEntry m thing e → 0 < length e.places → result ≡ shown of.elem (entry_value e 0) }
{
    ram.get(RamPlace {
        thing,
        index: 0,
        elem: of.elem,
    })
}

/// The decimal text of an enum's number.
pub(crate) fn enum_to_string(ram: &mut Ram, this: Value) -> NativeEnd
    ensures { (c : Scene) (more : List Seen) → Shows c ram.old → ValueNamed c this → Meets c ram.new (enum_to_string c.program c.state c.frame c.callers c.next c.rest (stack_value c.leads this ∷ more)) result }
{
    match find(ram, this, BOX) {
        Found::Null => NativeEnd::Throws(Known::NullReference),
        Found::Thing(thing, shape) => {
            if is_enum(shape.of) {
                let value = unboxed(ram, thing, shape.of);
                number_text(ram, kind_of(shape.of), value)
            } else {
                NativeEnd::NoCase
            }
        }
        Found::Other => NativeEnd::NoCase,
    }
}

/// Whether two values are the same number.
fn same_number(x: Value, y: Value) -> bool
    ensures { (l : Leads) → result ≡ same_number_value (stack_value l x) (stack_value l y) }
{
    match x {
        Value::Int(a) => match y {
            Value::Int(b) => a.cast_unsigned() == b.cast_unsigned(),
            _ => false,
        },
        Value::Long(a) => match y {
            Value::Long(b) => a.cast_unsigned() == b.cast_unsigned(),
            _ => false,
        },
        _ => false,
    }
}

/// Whether a thing is a box of a type with this number.
fn is_box_of(ram: &Ram, thing: u32, of: BoardType, value: Value) -> bool
    ensures { (c : Scene) (n : Named c thing) → Keeps ram.now c.memory → result ≡ box_of (cli_type of) (stack_value c.leads value) n.object }
{
    let shape = ram.shape(thing);
    if shape.what == BOX {
        same_type(shape.of, of) && same_number(unboxed(ram, thing, shape.of), value)
    } else {
        false
    }
}

/// Whether a reference names a box of a type with this number; none where it is no reference.
fn equals_box(ram: &Ram, of: BoardType, value: Value, other: Value) -> Option<bool>
    ensures { (c : Scene) → Keeps ram.now c.memory → ValueNamed c other → result ≡ box_equals c.state.heap (cli_type of) (stack_value c.leads value) (stack_value c.leads other) }
{
    let Value::Ref(thing) = other else {
        return None;
    };
    if thing == 0 {
        return Some(false);
    }
    Some(is_box_of(ram, thing, of, value))
}

/// Whether an enum's box and what a value names are boxes of the same enum with the same number.
pub(crate) fn enum_equals(ram: &Ram, this: Value, other: Value) -> NativeEnd
    ensures { (c : Scene) (more : List Seen) → Shows c ram.now → ValueNamed c this → ValueNamed c other → Meets c ram.now (enum_equals c.program c.state c.frame c.callers c.next c.rest (stack_value c.leads this ∷ stack_value c.leads other ∷ more)) result }
{
    match find(ram, this, BOX) {
        Found::Null => NativeEnd::Throws(Known::NullReference),
        Found::Thing(thing, shape) => {
            if is_enum(shape.of) {
                let value = unboxed(ram, thing, shape.of);
                match equals_box(ram, shape.of, value, other) {
                    Some(true) => NativeEnd::Gives(Some(Value::Int(1))),
                    Some(false) => NativeEnd::Gives(Some(Value::Int(0))),
                    None => NativeEnd::NoCase,
                }
            } else {
                NativeEnd::NoCase
            }
        }
        Found::Other => NativeEnd::NoCase,
    }
}
