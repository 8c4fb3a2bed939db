//! Throws, `leave` and `endfinally`.

ghost use Rattle.std.specs.Prelude.{◌≡◌, Some, None};
ghost use Rattle.board_types.specs.declared.board.TypeAt.{TypeAt};
ghost use Rattle.tiny_ram.specs.Memory.{Memory};
ghost use Rattle.tiny_ram.specs.Region.{Keeps};
ghost use Rattle.memory_states.specs.Told.{told};
ghost use Rattle.tiny_except.specs.Unwinding.{fits, landing, thrown_class, thrown_object, with_thrown, caught, uncaught, thrown_after, class_in, at_stop, plan_by, on_top, left_in, left_after, plan_at, taken_up};
ghost use Rattle.tiny_except.specs.Searches.{AllHaveSlots, Threw, TookUp, IsThere, Landed, Placed};

use crate::clauses::{Found, Goal};
use crate::frames::{clear_stack, ended, enter, is_initialiser, slot, stop, take};
use board_types::board::TypeAt;
use board_types::subclass::Subclass;
use board_types::value::Value;
use tiny_ram::{Ram, Spent};

/// More than a memory has frames.
const MOST_FRAMES: u32 = 4_194_304;

/// What is thrown.
#[derive(Clone, Copy, Debug, PartialEq, Eq)]
pub enum Thrown {
    /// An object of a class that is made for it, with all its fields zero.
    Made { class: TypeAt, fields: u32 },
    /// An object that is there.
    Object(u32),
}

impl Thrown {
    /// The class of what is thrown.
    fn class(self, ram: &Ram) -> TypeAt
        ensures { (m : Memory) (class : TypeAt) → Keeps ram.now m → thrown_class m self ≡ Some class → result ≡ class }
    {
        match self {
            Thrown::Made { class, .. } => class,
            Thrown::Object(object) => ram.shape(object).of.of,
        }
    }

    /// Makes the object that is to be made, and answers its number.
    fn place(self, ram: &mut Ram) -> Result<u32, Spent>
        ensures { (m : Memory) → Keeps ram.old m → Placed ram.new result (thrown_object m self) (with_thrown m self) }
    {
        match self {
            Thrown::Made { class, fields } => ram.object(class, fields),
            Thrown::Object(object) => Ok(object),
        }
    }
}

/// Whether a catch takes exceptions of the class: in the innermost frame by its place, and then in its callers by their calls,
/// up to and with an initialiser.
fn is_caught<S: Subclass>(ram: &Ram, types: &S, class: TypeAt) -> bool
    ensures { (m : Memory) → Keeps ram.now m → result ≡ fits (told (S.sub types.now) (S.clauses types.now)) class m.frames }
{
    let mut frame = ram.top();
    for passed in 0..MOST_FRAMES {
        if frame == 0 {
            return false;
        }
        if stop(ram, types, frame, None, Goal::Catch(class)).is_some() {
            return true;
        }
        if is_initialiser(ram, frame) {
            return false;
        }
        frame = ram.caller(frame);
    }
    false
}

/// Ends frames up to the first that has a finally to run, or a catch that takes the class, and answers that clause. The innermost
/// frame may be searched on from a finally that has ended.
fn land<S: Subclass>(ram: &mut Ram, types: &S, class: TypeAt, ended: Option<Found>) -> Option<Found>
    ensures { (m : Memory) → Keeps ram.old m → Landed ram.new result m (landing (told (S.sub types.now) (S.clauses types.now)) class ended m.frames) }
{
    let mut ended = ended;
    for passed in 0..MOST_FRAMES {
        let frame = ram.top();
        if frame == 0 {
            return None;
        }
        let found = stop(ram, types, frame, ended, Goal::Stop(class));
        if found.is_some() {
            return found;
        }
        ram.end_frame();
        ended = None;
    }
    None
}

/// Makes the object that no catch takes, and answers its class. No frame ends.
fn pass(ram: &mut Ram, class: TypeAt, thrown: Thrown) -> Result<Option<TypeAt>, Spent>
    ensures { (m : Memory) → Keeps ram.old m → Threw ram.new result (uncaught m class thrown) }
{
    thrown.place(ram)?;
    Ok(Some(class))
}

/// Ends frames up to the stop, makes the object that is to be made, and starts the stop's handler.
fn catch<S: Subclass>(
    ram: &mut Ram,
    types: &S,
    class: TypeAt,
    thrown: Thrown,
) -> Result<Option<TypeAt>, Spent>
    ensures { (m : Memory) → Keeps ram.old m → AllHaveSlots (told (S.sub types.now) (S.clauses types.now)) m.frames → Threw ram.new result (caught m (landing (told (S.sub types.now) (S.clauses types.now)) class None m.frames) thrown) }
{
    let stop = land(ram, types, class, None);
    let object = thrown.place(ram)?;
    if let Some(stop) = stop {
        take(ram, stop, object);
    }
    Ok(None)
}

/// Throws an object (ECMA-335 I.12.4.2). Where a catch takes it, frames end up to the first finally on the way, or the catch, whose
/// handler then starts, and the answer is `None`. Else no frame ends, and the answer is the object's class. An object that is to be
/// made is made when the frames have ended; `Spent` where its cells don't do, and then nothing is said of the memory.
pub fn throw<S: Subclass>(ram: &mut Ram, types: &S, thrown: Thrown) -> Result<Option<TypeAt>, Spent>
    ensures { (m : Memory) (class : TypeAt) → Keeps ram.old m → AllHaveSlots (told (S.sub types.now) (S.clauses types.now)) m.frames → thrown_class m thrown ≡ Some class → Threw ram.new result (thrown_after (told (S.sub types.now) (S.clauses types.now)) m class thrown) }
{
    let class = thrown.class(ram);
    if is_caught(ram, types, class) {
        catch(ram, types, class, thrown)
    } else {
        pass(ram, class, thrown)
    }
}

/// Goes to a place in the innermost frame's code, by the first finally that is left on the way.
fn go_on<S: Subclass>(ram: &mut Ram, types: &S, target: u32, ended: Option<Found>)
    ensures { (m : Memory) → Keeps ram.old m → AllHaveSlots (told (S.sub types.now) (S.clauses types.now)) m.frames → Keeps ram.new (on_top m (left_in (told (S.sub types.now) (S.clauses types.now)) target ended)) }
{
    let frame = ram.top();
    if frame == 0 {
        return;
    }
    match stop(ram, types, frame, ended, Goal::Leaving(target)) {
        Some(found) => enter(ram, found, Value::Int(target.cast_signed())),
        None => {
            clear_stack(ram);
            ram.go_to(target.cast_signed());
        }
    }
}

/// Leaves for a place in the innermost frame's code (III.3.46): the stack is emptied, and the first finally that holds the place in
/// its try, and not the target, starts; where there is none, the frame goes to the target.
pub fn leave<S: Subclass>(ram: &mut Ram, types: &S, target: u32)
    ensures { (m : Memory) → Keeps ram.old m → AllHaveSlots (told (S.sub types.now) (S.clauses types.now)) m.frames → Keeps ram.new (left_after (told (S.sub types.now) (S.clauses types.now)) target m) }
{
    go_on(ram, types, target, None);
}

/// What a finally's slot tells of the plan that started it.
#[derive(Clone, Copy, Debug, PartialEq, Eq)]
pub enum Plan {
    NoPlan,
    /// An exception is on its way.
    Throwing(u32),
    /// A `leave` goes to a place.
    GoingTo(u32),
}

/// The plan that a slot's value tells.
fn plan_told(held: Value) -> Plan
    ensures { result ≡ plan_by held }
{
    match held {
        Value::Int(target) => Plan::GoingTo(target.cast_unsigned()),
        Value::Ref(0) => Plan::NoPlan,
        Value::Ref(object) => Plan::Throwing(object),
        _ => Plan::NoPlan,
    }
}

/// Goes on with an exception behind a finally that has ended.
fn throw_on<S: Subclass>(ram: &mut Ram, types: &S, ended: Found, object: u32)
    ensures { (m : Memory) (class : TypeAt) → Keeps ram.old m → AllHaveSlots (told (S.sub types.now) (S.clauses types.now)) m.frames → class_in m.heap object ≡ Some class → Keeps ram.new (at_stop m (landing (told (S.sub types.now) (S.clauses types.now)) class (Some ended) m.frames) object) }
{
    let class = ram.shape(object).of.of;
    if let Some(stop) = land(ram, types, class, Some(ended)) {
        take(ram, stop, object);
    }
}

/// Takes up the rest of the plan that started the finally (III.3.35). False where no finally holds the innermost frame's place, or
/// its slot holds no plan; then nothing has changed.
pub fn end_finally<S: Subclass>(ram: &mut Ram, types: &S) -> bool
    ensures { (m : Memory) → Keeps ram.old m → AllHaveSlots (told (S.sub types.now) (S.clauses types.now)) m.frames → IsThere m (plan_at (told (S.sub types.now) (S.clauses types.now)) m.frames) → TookUp ram.old ram.new result (taken_up (told (S.sub types.now) (S.clauses types.now)) m (plan_at (told (S.sub types.now) (S.clauses types.now)) m.frames)) }
{
    let frame = ram.top();
    if frame == 0 {
        return false;
    }
    let Some(ended) = ended(ram, types, frame) else {
        return false;
    };
    match plan_told(slot(ram, frame, ended.number)) {
        Plan::NoPlan => return false,
        Plan::GoingTo(target) => go_on(ram, types, target, Some(ended)),
        Plan::Throwing(object) => throw_on(ram, types, ended, object),
    }
    true
}
