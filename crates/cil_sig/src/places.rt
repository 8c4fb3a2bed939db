//! Where in a blob the types of a signature stand.

ghost use Rattle.std.specs.Prelude.{◌≡◌, ◌≤◌, ◌<◌, length, IfSome};
ghost use Rattle.cil_sig.specs.Places.{behind_slots, result_front, parameter_front, local_front, front_of, element_front, offset_of, place_of};
ghost use Rattle.cil_sig.specs.Seen.{Gives};

use crate::elements::{FIELD, LOCALS, POINTER};
use crate::reading::{Slot, bracket_count, count, marked, result_type, slot_type, this_mark};
use crate::stop::NoCase;

/// A type of a signature. Parameters and locals are counted from 0.
#[derive(Clone, Copy, Debug, PartialEq, Eq)]
pub enum Position {
    /// The type of a field.
    Field,
    /// The type of a TypeSpec.
    Spec,
    /// The result of a method.
    Returned,
    /// A parameter of a method.
    Parameter(u32),
    /// A local.
    Local(u32),
}

fn behind_types(slot: Slot, count: u32, bytes: &[u8]) -> Result<&[u8], NoCase>
    ensures { Gives (λ rest. rest.now) result (behind_slots slot count bytes.now) }
{
    let mut rest = bytes;
    for _ in 0..count {
        let read = slot_type(slot, rest)?;
        rest = read.1;
    }
    Ok(rest)
}

#[tactic(auto, unfolding(crate::specs::Places::result_front))]
fn from_result(blob: &[u8]) -> Result<&[u8], NoCase>
    ensures { Gives (λ rest. rest.now) result (result_front blob.now) }
{
    let (_, rest) = this_mark(blob)?;
    let (_, rest) = count(rest)?;
    Ok(rest)
}

#[tactic(auto, unfolding(crate::specs::Places::parameter_front))]
fn from_parameter(k: u32, blob: &[u8]) -> Result<&[u8], NoCase>
    ensures { Gives (λ rest. rest.now) result (parameter_front k blob.now) }
{
    let front = from_result(blob)?;
    let (_, rest) = result_type(front)?;
    behind_types(Slot::Parameter, k, rest)
}

#[tactic(auto, unfolding(crate::specs::Places::local_front))]
fn from_local(k: u32, blob: &[u8]) -> Result<&[u8], NoCase>
    ensures { Gives (λ rest. rest.now) result (local_front k blob.now) }
{
    let rest = marked(LOCALS, blob)?;
    let (_, rest) = count(rest)?;
    behind_types(Slot::Local, k, rest)
}

fn from_position(position: Position, blob: &[u8]) -> Result<&[u8], NoCase>
    ensures { Gives (λ rest. rest.now) result (front_of position blob.now) }
{
    match position {
        Position::Field => marked(FIELD, blob),
        Position::Spec => Ok(blob),
        Position::Returned => from_result(blob),
        Position::Parameter(k) => from_parameter(k, blob),
        Position::Local(k) => from_local(k, blob),
    }
}

#[tactic(auto, using(crate::proofs::Fronts::brackets_fit), unfolding(crate::specs::Places::element_front))]
fn from_element(bytes: &[u8]) -> &[u8]
    ensures { result.now ≡ element_front bytes.now }
{
    let inner = match bytes {
        [POINTER, rest @ ..] => rest,
        _ => bytes,
    };
    let (_, element) = inner.split_at(bracket_count(inner));
    element
}

/// The offset in a blob of the code of the element at a position, where a refusal of the type that it names is told.
/// None where the signature has no such type, or breaks the grammar before it.
#[tactic(auto, unfolding(crate::specs::Places::place_of))]
pub fn element_place(position: Position, blob: &[u8]) -> Option<usize>
    ensures place { result ≡ place_of position blob.now }
    ensures inside { IfSome result (λ place. place < length blob.now) }
{
    let Ok(front) = from_position(position, blob) else {
        return None;
    };
    let element = from_element(front);
    if element.is_empty() {
        return None;
    }
    Some(blob.len() - element.len())
}
