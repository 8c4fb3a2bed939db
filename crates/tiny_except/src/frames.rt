//! The parts of a frame that a search reads, and that a handler starts with.

ghost use Rattle.std.specs.Int.{w32, cast_signed, cast_unsigned};
ghost use Rattle.std.specs.Prelude.{◌≡◌, ◌<◌, ◌+◌, ℕ, sum, ◌∷◌, List, slice_index, slice_set, unwrap_or, drop, Some};
ghost use Rattle.plain_types.specs.declared.elem.Elem.TheVariants.{Class, I4};
ghost use Rattle.board_types.specs.declared.value.Value.TheVariants.{Ref};
ghost use Rattle.tiny_ram.specs.Memory.{Memory, RamFrame, IsFrame, with_frames, frame_value, shown};
ghost use Rattle.tiny_ram.specs.Region.{Keeps};
ghost use Rattle.memory_states.specs.Told.{told};
ghost use Rattle.tiny_except.specs.Unwinding.{number_in, code_place, slot_index, slot_held, entered, stopped, stop_in, ended_in};

use crate::clauses::{Found, Goal, Regions, Sought, first};
use board_types::board::TypeAt;
use board_types::subclass::Subclass;
use board_types::value::{RamPlace, Value};
use plain_types::elem::Elem;
use tiny_ram::Ram;

/// The method of a frame.
pub(crate) fn method_of(ram: &Ram, frame: u32) -> TypeAt
    ensures { (m : Memory) (f : RamFrame) → Keeps ram.now m → IsFrame m frame f → result ≡ f.method }
{
    ram.shape(frame).of.of
}

/// The bits of an int32; 0 of any other value.
fn bits_of(value: Value) -> u32
    ensures { result ≡ cast_unsigned w32 (number_in value) }
{
    match value {
        Value::Int(n) => n.cast_unsigned(),
        _ => 0,
    }
}

/// What lies behind a frame's places: 0 its place in the code, 1 the depth of its stack, 2 whether it initialises a class.
fn behind(ram: &Ram, frame: u32, n: u32) -> Value
    ensures { (m : Memory) (f : RamFrame) → Keeps ram.now m → IsFrame m frame f → n < 3 → result ≡ shown I4 (frame_value f (sum f.sizes + n)) }
{
    ram.get(RamPlace {
        thing: frame,
        index: ram.shape(frame).count.wrapping_add(n),
        elem: Elem::I4,
    })
}

/// Where a frame is in its code.
pub(crate) fn place_of(ram: &Ram, frame: u32) -> u32
    ensures { (m : Memory) (f : RamFrame) → Keeps ram.now m → IsFrame m frame f → result ≡ code_place f }
{
    bits_of(behind(ram, frame, 0))
}

/// Whether a frame initialises a class.
pub(crate) fn is_initialiser(ram: &Ram, frame: u32) -> bool
    ensures { (m : Memory) (f : RamFrame) → Keeps ram.now m → IsFrame m frame f → result ≡ f.initialiser }
{
    bits_of(behind(ram, frame, 2)) == 1
}

/// The place of a clause's slot in a frame.
fn slot_place(ram: &Ram, frame: u32, number: u16) -> RamPlace
    ensures index { (m : Memory) (f : RamFrame) → Keeps ram.now m → IsFrame m frame f → number < slice_index f.sizes 3 → result.index ≡ slot_index f number }
    ensures thing { result.thing ≡ frame }
    ensures elem { result.elem ≡ Class }
{
    let [arguments, locals, stack, _] = ram.sizes(frame);
    RamPlace {
        thing: frame,
        index: arguments
            .wrapping_add(locals)
            .wrapping_add(stack)
            .wrapping_add(number as u32),
        elem: Elem::Class,
    }
}

/// What a clause's slot holds: a null reference where nothing was put.
pub(crate) fn slot(ram: &Ram, frame: u32, number: u16) -> Value
    ensures { (m : Memory) (f : RamFrame) → Keeps ram.now m → IsFrame m frame f → number < slice_index f.sizes 3 → result ≡ unwrap_or (slot_held f number) (Ref 0) }
{
    ram.get(slot_place(ram, frame, number))
}

/// Puts a value into a clause's slot of the innermost frame.
fn put_slot(ram: &mut Ram, number: u16, held: Value)
    ensures { (m : Memory) (f : RamFrame) (fs : List RamFrame) → Keeps ram.old m → m.frames ≡ f ∷ fs → number < slice_index f.sizes 3 → Keeps ram.new (with_frames m (record f { places = slice_set f.places (slot_index f number) (Some held) } ∷ fs)) }
{
    let at = slot_place(ram, ram.top(), number);
    ram.put(at, held);
}

/// Empties the stack of the innermost frame.
pub(crate) fn clear_stack(ram: &mut Ram)
    ensures { (m : Memory) (f : RamFrame) (fs : List RamFrame) → Keeps ram.old m → m.frames ≡ f ∷ fs → Keeps ram.new (with_frames m (record f { depth = 0 } ∷ fs)) }
{
    let frame = ram.top();
    let at = RamPlace {
        thing: frame,
        index: ram.shape(frame).count.wrapping_add(1),
        elem: Elem::I4,
    };
    ram.put(at, Value::Int(0));
}

/// Starts a clause's handler in the innermost frame, with a value in its slot and nothing on the stack.
pub(crate) fn enter(ram: &mut Ram, stop: Found, held: Value)
    ensures { (m : Memory) (f : RamFrame) (fs : List RamFrame) → Keeps ram.old m → m.frames ≡ f ∷ fs → stop.number < slice_index f.sizes 3 → Keeps ram.new (with_frames m (entered f stop held ∷ fs)) }
{
    put_slot(ram, stop.number, held);
    clear_stack(ram);
    ram.go_to(stop.clause.start as i32);
}

/// Starts the handler of a clause on the way of an exception, which a catch has on its stack.
pub(crate) fn take(ram: &mut Ram, stop: Found, object: u32)
    ensures { (m : Memory) (f : RamFrame) (fs : List RamFrame) → Keeps ram.old m → m.frames ≡ f ∷ fs → stop.number < slice_index f.sizes 3 → (stop.clause.kind ≡ 0 → 0 < slice_index f.sizes 2) → Keeps ram.new (with_frames m (stopped f stop object ∷ fs)) }
{
    enter(ram, stop, Value::Ref(object));
    if stop.clause.kind == 0 {
        ram.push(Value::Ref(object));
    }
}

/// The first clause of a frame that is looked for: from the frame's place in the code, or on from a finally that has ended.
pub(crate) fn stop<S: Subclass>(
    ram: &Ram,
    types: &S,
    frame: u32,
    ended: Option<Found>,
    goal: Goal,
) -> Option<Found>
    ensures { (m : Memory) (f : RamFrame) → Keeps ram.now m → IsFrame m frame f → result ≡ stop_in (told (S.sub types.now) (S.clauses types.now)) goal ended f }
{
    let method = method_of(ram, frame);
    match ended {
        None => {
            let regions = Regions::Try(place_of(ram, frame));
            first(types, method, 0, Sought { regions, goal })
        }
        Some(ended) => {
            let regions = Regions::Round(ended.clause);
            let from = ended.number as u32 + 1;
            first(types, method, from, Sought { regions, goal })
        }
    }
}

/// The finally whose handler holds the frame's place in the code.
pub(crate) fn ended<S: Subclass>(ram: &Ram, types: &S, frame: u32) -> Option<Found>
    ensures { (m : Memory) (f : RamFrame) → Keeps ram.now m → IsFrame m frame f → result ≡ ended_in (told (S.sub types.now) (S.clauses types.now)) f }
{
    let sought = Sought {
        regions: Regions::Handler(place_of(ram, frame)),
        goal: Goal::Finally,
    };
    first(types, method_of(ram, frame), 0, sought)
}
