//! The parts of a signature, each read from the front of the bytes.

ghost use Rattle.std.specs.Prelude.{◌≡◌, List, Result, Ok, Err, length};
ghost use Rattle.cil_sig.specs.Reading.{number_at, count_at, token_at, name_at, element_at, brackets, type_at, parameter_at, result_at, slot_at, slots_at, behind, this_at, alone};
ghost use Rattle.cil_sig.specs.Seen.{Gives, Reaches};

use crate::elements::{
    ARRAY, INSTANCE_METHOD, MAX_COUNT, MAX_RANKS, POINTER, STATIC_METHOD, VOID, element, is_named,
};
use crate::sig::SigType;
use crate::stop::{NoCase, Stop};
use file_tables::compressed::compressed;
use plain_types::elem::Elem;
use std::alloc::Global;

/// What is listed behind a count.
#[derive(Clone, Copy)]
pub enum Slot {
    /// A type, or a pointer to one.
    Parameter,
    /// A type alone.
    Local,
}

fn no_case(bytes: &[u8]) -> NoCase
    ensures { result.left ≡ length bytes.now }
{
    NoCase { left: bytes.len() }
}

#[tactic(auto, unfolding(crate::specs::Reading::number_at))]
fn number(bytes: &[u8]) -> Result<(u32, &[u8]), NoCase>
    ensures { Gives (λ x. (x.0, x.1.now)) result (number_at bytes.now) }
{
    compressed(bytes).ok_or(no_case(bytes))
}

#[tactic(auto, unfolding(crate::specs::Reading::count_at))]
pub fn count(bytes: &[u8]) -> Result<(u32, &[u8]), NoCase>
    ensures { Gives (λ x. (x.0, x.1.now)) result (count_at bytes.now) }
{
    let (count, rest) = number(bytes)?;
    if count > MAX_COUNT {
        return Err(no_case(bytes));
    }
    Ok((count, rest))
}

#[tactic(auto, unfolding(crate::specs::Reading::token_at))]
fn token(bytes: &[u8]) -> Result<(u32, &[u8]), NoCase>
    ensures { Gives (λ x. (x.0, x.1.now)) result (token_at bytes.now) }
{
    let (token, rest) = number(bytes)?;
    if token % 4 >= 2 {
        return Err(no_case(bytes));
    }
    Ok((token, rest))
}

#[tactic(auto, unfolding(crate::specs::Reading::name_at))]
fn name(elem: Elem, bytes: &[u8]) -> Result<(u32, &[u8]), NoCase>
    ensures { Gives (λ x. (x.0, x.1.now)) result (name_at elem bytes.now) }
{
    if is_named(elem) {
        token(bytes)
    } else {
        Ok((0, bytes))
    }
}

#[tactic(auto, unfolding(crate::specs::Reading::element_at))]
fn named_element(bytes: &[u8]) -> Result<((Elem, u32), &[u8]), NoCase>
    ensures { Gives (λ x. (x.0, x.1.now)) result (element_at bytes.now) }
{
    let [code, rest @ ..] = bytes else {
        return Err(no_case(bytes));
    };
    let elem = element(*code).ok_or(no_case(bytes))?;
    let (token, rest) = name(elem, rest)?;
    Ok(((elem, token), rest))
}

pub fn bracket_count(bytes: &[u8]) -> usize
    ensures { result ≡ brackets bytes.now }
{
    bytes.iter().take_while(|code| **code == ARRAY).count()
}

#[tactic(auto, using(std::proofs::lemmas::Grind::common_steps, crate::proofs::Fronts::brackets_fit), unfolding(crate::specs::Reading::type_at, crate::specs::Reading::bracketed_at))]
pub fn plain_type(bytes: &[u8]) -> Result<(SigType, &[u8]), NoCase>
    ensures { Gives (λ x. (x.0, x.1.now)) result (type_at bytes.now) }
{
    let ranks = bracket_count(bytes);
    if ranks > MAX_RANKS {
        return Err(no_case(&bytes[MAX_RANKS..]));
    }
    let ((elem, token), rest) = named_element(&bytes[ranks..])?;
    let of = SigType {
        pointer: false,
        ranks: ranks as u16,
        elem,
        token,
    };
    Ok((of, rest))
}

#[tactic(auto, unfolding(crate::specs::Reading::parameter_at, crate::specs::Reading::pointer_at))]
fn parameter(bytes: &[u8]) -> Result<(SigType, &[u8]), NoCase>
    ensures { Gives (λ x. (x.0, x.1.now)) result (parameter_at bytes.now) }
{
    match bytes {
        [POINTER, rest @ ..] => {
            let (to, rest) = plain_type(rest)?;
            Ok((
                SigType {
                    pointer: true,
                    ..to
                },
                rest,
            ))
        }
        _ => plain_type(bytes),
    }
}

#[tactic(auto, unfolding(crate::specs::Reading::result_at))]
pub fn result_type(bytes: &[u8]) -> Result<(SigType, &[u8]), NoCase>
    ensures { Gives (λ x. (x.0, x.1.now)) result (result_at bytes.now) }
{
    match bytes {
        [VOID, rest @ ..] => {
            let no_value = SigType {
                pointer: false,
                ranks: 0,
                elem: Elem::Void,
                token: 0,
            };
            Ok((no_value, rest))
        }
        _ => plain_type(bytes),
    }
}

pub fn slot_type(slot: Slot, bytes: &[u8]) -> Result<(SigType, &[u8]), NoCase>
    ensures { Gives (λ x. (x.0, x.1.now)) result (slot_at slot bytes.now) }
{
    match slot {
        Slot::Parameter => parameter(bytes),
        Slot::Local => plain_type(bytes),
    }
}

pub fn slot_types(
    alloc: Global,
    slot: Slot,
    count: u32,
    bytes: &[u8],
) -> Result<(Vec<SigType>, &[u8]), Stop>
    ensures { Reaches (λ x. (x.0.items, x.1.now)) result (slots_at slot count bytes.now) }
{
    let mut types = Vec::new(alloc);
    let mut rest = bytes;
    for _ in 0..count {
        let (of, after) = slot_type(slot, rest)?;
        types.push(of)?;
        rest = after;
    }
    Ok((types, rest))
}

pub fn marked(mark: u8, bytes: &[u8]) -> Result<&[u8], NoCase>
    ensures { Gives (λ rest. rest.now) result (behind mark bytes.now) }
{
    match bytes {
        [first, rest @ ..] if *first == mark => Ok(rest),
        _ => Err(no_case(bytes)),
    }
}

pub fn this_mark(bytes: &[u8]) -> Result<(bool, &[u8]), NoCase>
    ensures { Gives (λ x. (x.0, x.1.now)) result (this_at bytes.now) }
{
    match bytes {
        [INSTANCE_METHOD, rest @ ..] => Ok((true, rest)),
        [STATIC_METHOD, rest @ ..] => Ok((false, rest)),
        _ => Err(no_case(bytes)),
    }
}

/// Nothing may follow.
pub fn ended(bytes: &[u8]) -> Result<(), NoCase>
    ensures { Gives (λ nothing. nothing) result (alone (tt {0}) bytes.now) }
{
    if bytes.is_empty() {
        Ok(())
    } else {
        Err(no_case(bytes))
    }
}
