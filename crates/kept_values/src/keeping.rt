//! How places keep values.

ghost use Rattle.std.specs.Prelude.{◌≡◌, ℕ, List};
ghost use Rattle.machine.specs.Data.{PlaceType, Value as StackValue};
ghost use Rattle.machine.specs.Numbers.{kind_of, kept, is_long};
ghost use Rattle.ram_words.specs.Elements.{elem_held, cell_in};
ghost use Rattle.tiny_ram.specs.Memory.{RamFrame};
ghost use Rattle.memory_states.specs.Values.{IsValue};
ghost use Rattle.kept_values.specs.Keeping.{kind_seen, is_as_wide, kept_in_cell, kept_as, KeptAlike};

use board_types::value::Value;
use cil_opcodes::shape::IntegerType;
use plain_types::elem::Elem;
use ram_words::elements::{ElementKind, kind_of_elem, narrow, width};

/// What a place holds (ECMA-335 I.12.1.6).
#[derive(Clone, Copy)]
pub enum PlaceKind {
    /// A number or a reference.
    Holds(ElementKind),
    /// A managed pointer to places of this kind.
    HoldsPointer(ElementKind),
    /// A field handle.
    HoldsHandle,
    /// No value at all.
    Nothing,
}

/// Whether numbers of the type are int64s on the stack (III.1.1.1).
fn is_wide(integer: IntegerType) -> bool
    ensures { result ≡ is_long integer }
{
    match integer {
        IntegerType::I8 | IntegerType::U8 => true,
        IntegerType::I1
        | IntegerType::U1
        | IntegerType::I2
        | IntegerType::U2
        | IntegerType::I4
        | IntegerType::U4 => false,
    }
}

/// An int32 as a place of numbers keeps it.
fn keep_int(integer: IntegerType, n: i32) -> Option<Value>
    ensures { result ≡ kept_in_cell (cell_in (ElementKind.Number integer)) (Value.Int n) }
{
    if is_wide(integer) {
        return None;
    }
    Some(Value::Int(narrow(ElementKind::Number(integer), n)))
}

/// A value as a place of numbers or of references keeps it.
fn keep_in(kind: ElementKind, value: Value) -> Option<Value>
    ensures { result ≡ kept_in_cell (cell_in kind) value }
{
    match (kind, value) {
        (ElementKind::Number(integer), Value::Int(n)) => keep_int(integer, n),
        (ElementKind::Number(integer), Value::Long(_)) => is_wide(integer).then_some(value),
        (ElementKind::Reference, Value::Ref(_)) => Some(value),
        _ => None,
    }
}

/// Whether places of the element type are as wide as those of the kind.
fn is_like(kind: ElementKind, elem: Elem) -> bool
    ensures { result ≡ is_as_wide (cell_in kind) (elem_held elem) }
{
    match (kind, kind_of_elem(elem)) {
        (ElementKind::Number(_), Some(own @ ElementKind::Number(_))) => width(own) == width(kind),
        (ElementKind::Reference, Some(ElementKind::Reference)) => true,
        _ => false,
    }
}

/// A pointer as a place of pointers keeps it.
fn keep_pointer(kind: ElementKind, value: Value) -> Option<Value>
    ensures { result ≡ kept_as (PlaceKind.HoldsPointer kind) value }
{
    match value {
        Value::Pointer(at) => is_like(kind, at.elem).then_some(value),
        Value::Int(_) | Value::Long(_) | Value::Ref(_) | Value::Handle(_) => None,
    }
}

/// A field handle as a place of handles keeps it.
fn keep_handle(value: Value) -> Option<Value>
    ensures { result ≡ kept_as PlaceKind.HoldsHandle value }
{
    match value {
        Value::Handle(_) => Some(value),
        Value::Int(_) | Value::Long(_) | Value::Ref(_) | Value::Pointer(_) => None,
    }
}

/// A value of no kind.
fn keep_nothing(value: Value) -> Option<Value>
    ensures { result ≡ kept_as PlaceKind.Nothing value }
{
    match value {
        Value::Int(_) | Value::Long(_) | Value::Ref(_) | Value::Pointer(_) | Value::Handle(_) => {
            None
        }
    }
}

/// A value as a place of the kind keeps it.
fn keep_by(kind: PlaceKind, value: Value) -> Option<Value>
    ensures { result ≡ kept_as kind value }
{
    match kind {
        PlaceKind::Holds(kind) => keep_in(kind, value),
        PlaceKind::HoldsPointer(kind) => keep_pointer(kind, value),
        PlaceKind::HoldsHandle => keep_handle(value),
        PlaceKind::Nothing => keep_nothing(value),
    }
}

/// A value as a place of the kind keeps it: a number cut to the place's width (III.1.1.1). None where it isn't of the kind.
pub fn keep(kind: PlaceKind, value: Value) -> Option<Value>
    ensures value { result ≡ kept_as kind value }
    ensures alike { (room : ℕ) (fs : List RamFrame) (type : PlaceType) (v : StackValue) → kind_seen kind ≡ kind_of type → IsValue room fs value v → KeptAlike room fs result (kept type v) }
{
    keep_by(kind, value)
}
