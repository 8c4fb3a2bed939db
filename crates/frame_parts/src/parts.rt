//! Frames by their numbers.

ghost use Rattle.std.specs.Int.{w32, cast_unsigned};
ghost use Rattle.std.specs.Prelude.{◌≡◌, ◌<◌, ◌≤◌, ◌+◌, true, Some, sum, slice_index, slice_set, unwrap_or};
ghost use Rattle.plain_types.specs.declared.elem.Elem.TheVariants.{Class, I4};
ghost use Rattle.board_types.specs.declared.value.Value.TheVariants.{Ref};
ghost use Rattle.tiny_ram.specs.Memory.{Memory, RamFrame, IsFrame, put_in_frame, frame_value, shown};
ghost use Rattle.tiny_ram.specs.Region.{Keeps};
ghost use Rattle.memory_states.specs.States.{place_held};
ghost use Rattle.tiny_except.specs.Unwinding.{number_in};

use board_types::board::TypeAt;
use board_types::value::{RamPlace, Value};
use plain_types::elem::Elem;
use tiny_ram::Ram;

/// The method of a frame.
pub fn method_of(ram: &Ram, frame: u32) -> TypeAt
    ensures { (m : Memory) (f : RamFrame) → Keeps ram.now m → IsFrame m frame f → result ≡ f.method }
{
    ram.shape(frame).of.of
}

/// How many places a frame has.
pub fn sum_of(ram: &Ram, frame: u32) -> u32
    ensures { (m : Memory) (f : RamFrame) → Keeps ram.now m → IsFrame m frame f → result ≡ sum f.sizes }
{
    ram.shape(frame).count
}

/// A part behind a frame's places: 0 its place in the code, 1 the depth of its stack, 2 whether it initialises a class.
fn part(ram: &Ram, frame: u32, n: u32) -> RamPlace
    ensures index { (m : Memory) (f : RamFrame) → Keeps ram.now m → IsFrame m frame f → n < 3 → result.index ≡ sum f.sizes + n }
    ensures thing { result.thing ≡ frame }
    ensures elem { result.elem ≡ I4 }
{
    RamPlace {
        thing: frame,
        index: sum_of(ram, frame).wrapping_add(n),
        elem: Elem::I4,
    }
}

/// What such a part holds.
fn held(ram: &Ram, frame: u32, n: u32) -> Value
    ensures { (m : Memory) (f : RamFrame) → Keeps ram.now m → IsFrame m frame f → n < 3 → result ≡ shown I4 (frame_value f (sum f.sizes + n)) }
{
    ram.get(part(ram, frame, n))
}

/// The bits of an int32; 0 of any other value.
fn bits_of(value: Value) -> u32
    ensures { result ≡ cast_unsigned w32 (number_in value) }
{
    match value {
        Value::Int(n) => n.cast_unsigned(),
        _ => 0,
    }
}

/// How many values the stack of a frame has.
pub fn depth(ram: &Ram, frame: u32) -> u32
    ensures { (m : Memory) (f : RamFrame) → Keeps ram.now m → IsFrame m frame f → result ≡ f.depth }
{
    bits_of(held(ram, frame, 1))
}

/// Whether a frame initialises a class.
pub fn is_initialiser(ram: &Ram, frame: u32) -> bool
    ensures { (m : Memory) (f : RamFrame) → Keeps ram.now m → IsFrame m frame f → result ≡ f.initialiser }
{
    bits_of(held(ram, frame, 2)) == 1
}

/// A value is on a frame's stack no more, or is there: the stack has so many values.
pub fn put_depth(ram: &mut Ram, frame: u32, n: u32)
    ensures { (m : Memory) (f : RamFrame) → Keeps ram.old m → IsFrame m frame f → n ≤ slice_index f.sizes 2 → Keeps ram.new (put_in_frame m frame (record f { depth = n })) }
{
    let at = part(ram, frame, 1);
    ram.put(at, Value::Int(n.cast_signed()));
}

/// Tells that a frame initialises a class.
pub fn mark_initialiser(ram: &mut Ram, frame: u32)
    ensures { (m : Memory) (f : RamFrame) → Keeps ram.old m → IsFrame m frame f → Keeps ram.new (put_in_frame m frame (record f { initialiser = true })) }
{
    let at = part(ram, frame, 2);
    ram.put(at, Value::Int(1));
}

/// What the place of an index holds; a null reference where nothing was put.
pub fn place(ram: &Ram, frame: u32, index: u32) -> Value
    ensures { (m : Memory) (f : RamFrame) → Keeps ram.now m → IsFrame m frame f → index < sum f.sizes → result ≡ unwrap_or (place_held f index) (Ref 0) }
{
    ram.get(RamPlace {
        thing: frame,
        index,
        elem: Elem::Class,
    })
}

/// Puts a value into the place of an index, as it is.
pub fn put_place(ram: &mut Ram, frame: u32, index: u32, value: Value)
    ensures { (m : Memory) (f : RamFrame) → Keeps ram.old m → IsFrame m frame f → index < sum f.sizes → Keeps ram.new (put_in_frame m frame (record f { places = slice_set f.places index (Some value) })) }
{
    let at = RamPlace {
        thing: frame,
        index,
        elem: Elem::Class,
    };
    ram.put(at, value);
}
