//! The arguments of a call: on the stack of the frame that calls, the last on top, and in the places of the frame that starts.

ghost use Rattle.std.specs.Prelude.{◌≡◌, ◌+◌, ◌<◌, ◌≤◌, ℕ, List, ◌∷◌, length, sum};
ghost use Rattle.kept_values.specs.declared.keeping.PlaceKind.{PlaceKind as Kind};
ghost use Rattle.tiny_ram.specs.Memory.{Memory, RamFrame, IsFrame, innermost};
ghost use Rattle.tiny_ram.specs.Region.{Keeps};
ghost use Rattle.step_calls.specs.Arguments.{AreGiven, AreBeside, AreInside, held_at, value_of, KeepsOne, HandsOne, KeepsAll, HandsOver};

use board_types::value::Value;
use frame_parts::{depth, place, put_place};
use kept_values::{PlaceKind, keep};
use tiny_ram::Ram;

/// The places of a method's arguments.
pub trait Places {
    /// How the place of an argument keeps values, `this` first.
    ghost place: { Self → ℕ → Kind };

    /// That.
    fn place(&self, n: u32) -> PlaceKind
        ensures { result ≡ place self.now n };
}

/// Where a call's arguments lie: in this frame, from a place on, above so many values of its stack.
#[derive(Clone, Copy, Debug, PartialEq, Eq)]
pub struct Given {
    pub frame: u32,
    pub first: u32,
    pub below: u32,
    /// The first argument, where it doesn't lie there.
    pub this: Option<Value>,
}

/// Where the n topmost values of the innermost frame lie; none where there are fewer.
pub fn topmost(ram: &Ram, n: u32) -> Option<Given>
    ensures { (m : Memory) (f : RamFrame) (fs : List RamFrame) → Keeps ram.now m → m.frames ≡ f ∷ fs → AreGiven m f n result }
{
    let frame = ram.top();
    let [arguments, locals, _, _] = ram.sizes(frame);
    let deep = depth(ram, frame);
    if deep < n {
        return None;
    }
    let below = deep - n;
    Some(Given {
        frame,
        first: arguments.wrapping_add(locals).wrapping_add(below),
        below,
        this: None,
    })
}

/// The i-th of the values that lie on the stack.
fn on_stack(ram: &Ram, from: Given, i: u32) -> Value
    ensures { (m : Memory) (f : RamFrame) → Keeps ram.now m → IsFrame m from.frame f → from.first + i < sum f.sizes → result ≡ held_at f (from.first + i) }
{
    place(ram, from.frame, from.first.wrapping_add(i))
}

/// The i-th argument.
fn argument(ram: &Ram, from: Given, i: u32) -> Value
    ensures { (m : Memory) (f : RamFrame) (n : ℕ) → Keeps ram.now m → IsFrame m from.frame f → AreInside f from n → i < n → result ≡ value_of f from i }
{
    let Some(this) = from.this else {
        let whole = on_stack(ram, from, i);
        return whole;
    };
    if i == 0 {
        return this;
    }
    let other = on_stack(ram, from, i - 1);
    other
}

/// Whether a place keeps the value.
fn keeps_one(kind: PlaceKind, value: Value) -> bool
    ensures { KeepsOne kind value result }
{
    match keep(kind, value) {
        None => false,
        Some(_) => true,
    }
}

/// Whether the places keep the first n arguments.
pub(crate) fn keeps_all<P: Places>(ram: &Ram, places: &P, from: Given, n: u32) -> bool
    ensures { (m : Memory) (f : RamFrame) → Keeps ram.now m → IsFrame m from.frame f → AreInside f from n → KeepsAll f (P.place places.now) from n result }
{
    for i in 0..n {
        let value = argument(ram, from, i);
        if !keeps_one(places.place(i), value) {
            return false;
        }
    }
    true
}

/// Hands a value over as the i-th argument of the frame that starts. False where its place doesn't keep it.
fn hand_one(ram: &mut Ram, kind: PlaceKind, value: Value, to: u32, i: u32) -> bool
    ensures { (m : Memory) (y : RamFrame) (ys : List RamFrame) → Keeps ram.old m → m.frames ≡ y ∷ ys → to ≡ innermost m.room m.frames → i < sum y.sizes → HandsOne ram.new m y ys kind value i result }
{
    match keep(kind, value) {
        None => false,
        Some(kept) => {
            put_place(ram, to, i, kept);
            true
        }
    }
}

/// Hands the first n arguments over to the frame that starts. False where a place doesn't keep its one.
pub(crate) fn hand_over<P: Places>(ram: &mut Ram, places: &P, from: Given, to: u32, n: u32) -> bool
    ensures { (m : Memory) (y f : RamFrame) (fs : List RamFrame) → Keeps ram.old m → m.frames ≡ y ∷ f ∷ fs → AreBeside m.room y f fs from.frame to → AreInside f from n → n ≤ sum y.sizes → length y.places ≡ sum y.sizes → HandsOver ram.new m y f fs (P.place places.now) from n result }
{
    for i in 0..n {
        let value = argument(ram, from, i);
        if !hand_one(ram, places.place(i), value, to, i) {
            return false;
        }
    }
    true
}
