//! Types of signatures (ECMA-335 II.23.2.12).

ghost use Rattle.std.specs.Prelude.{◌≡◌, ◌++◌, OnOk, replicate};
ghost use Rattle.image_form.specs.Signatures.{elem_byte};
ghost use Rattle.image_signatures.specs.Spelt.{element_spelt, type_spelt, place_spelt, result_spelt, types_spelt, places_spelt};
ghost use Rattle.kept_marks.specs.Masks.{masks_of};

use crate::tokens::type_word;
use crate::words::push_word;
use cil_sig::SigType;
use cil_sig::elements::{ARRAY, POINTER, VOID, is_named};
use cil_tables::Tables;
use file_tables::schema::Coded;
use kept_marks::FileChoice;
use plain_types::elem::Elem;
use plain_types::fault::NoMemory;
use type_names::split;

/// The byte of an element (ECMA-335 II.23.1.16).
pub fn element_byte(elem: Elem) -> u8
    ensures { result ≡ elem_byte elem }
{
    match elem {
        Elem::Void => VOID,
        Elem::Bool => 0x02,
        Elem::Char => 0x03,
        Elem::I1 => 0x04,
        Elem::U1 => 0x05,
        Elem::I2 => 0x06,
        Elem::U2 => 0x07,
        Elem::I4 => 0x08,
        Elem::U4 => 0x09,
        Elem::I8 => 0x0A,
        Elem::U8 => 0x0B,
        Elem::String => 0x0E,
        Elem::Value => 0x11,
        Elem::Class => 0x12,
        Elem::Object => 0x1C,
    }
}

/// Adds an element, and behind a class or a value type its token.
#[tactic(auto, using(crate::proofs::SpellLaws::named, crate::proofs::SpellLaws::unnamed))]
fn push_element(
    out: &mut Vec<u8>,
    choice: &FileChoice<'_>,
    tables: &Tables<'_>,
    of: &SigType,
) -> Result<(), NoMemory>
    ensures { OnOk result (out.new.items ≡ out.old.items ++ element_spelt (masks_of choice.now) tables.now of.now.elem of.now.token) }
{
    out.push(element_byte(of.elem))?;
    if is_named(of.elem) {
        let token = split(Coded::TypeDefOrRef, of.token);
        push_word(out, type_word(choice, tables, token))
    } else {
        Ok(())
    }
}

/// Adds so many array brackets.
#[tactic(auto, using(crate::proofs::CutLaws::ranks_more))]
fn push_ranks(out: &mut Vec<u8>, ranks: u16) -> Result<(), NoMemory>
    ensures { OnOk result (out.new.items ≡ out.old.items ++ replicate ranks 29) }
{
    for _ in 0..ranks {
        out.push(ARRAY)?;
    }
    Ok(())
}

/// Adds a type.
pub fn push_type(
    out: &mut Vec<u8>,
    choice: &FileChoice<'_>,
    tables: &Tables<'_>,
    of: &SigType,
) -> Result<(), NoMemory>
    ensures { OnOk result (out.new.items ≡ out.old.items ++ type_spelt (masks_of choice.now) tables.now of.now) }
{
    push_ranks(out, of.ranks)?;
    push_element(out, choice, tables, of)
}

/// Adds the type of a parameter, with its pointer.
#[tactic(auto, using(crate::proofs::SpellLaws::pointer_place, crate::proofs::SpellLaws::direct_place))]
fn push_place(
    out: &mut Vec<u8>,
    choice: &FileChoice<'_>,
    tables: &Tables<'_>,
    of: &SigType,
) -> Result<(), NoMemory>
    ensures { OnOk result (out.new.items ≡ out.old.items ++ place_spelt (masks_of choice.now) tables.now of.now) }
{
    if of.pointer {
        out.push(POINTER)?;
    }
    push_type(out, choice, tables, of)
}

/// Adds the type of a result.
#[tactic(auto, using(crate::proofs::SpellLaws::void_result, crate::proofs::SpellLaws::other_result))]
pub fn push_result(
    out: &mut Vec<u8>,
    choice: &FileChoice<'_>,
    tables: &Tables<'_>,
    of: &SigType,
) -> Result<(), NoMemory>
    ensures { OnOk result (out.new.items ≡ out.old.items ++ result_spelt (masks_of choice.now) tables.now of.now) }
{
    if matches!(of.elem, Elem::Void) {
        out.push(VOID)?;
        return Ok(());
    }
    push_type(out, choice, tables, of)
}

/// Adds the types of locals.
pub fn push_types(
    out: &mut Vec<u8>,
    choice: &FileChoice<'_>,
    tables: &Tables<'_>,
    types: &[SigType],
) -> Result<(), NoMemory>
    ensures { OnOk result (out.new.items ≡ out.old.items ++ types_spelt (masks_of choice.now) tables.now types.now) }
{
    for of in types {
        push_type(out, choice, tables, of)?;
    }
    Ok(())
}

/// Adds the types of parameters.
pub fn push_places(
    out: &mut Vec<u8>,
    choice: &FileChoice<'_>,
    tables: &Tables<'_>,
    types: &[SigType],
) -> Result<(), NoMemory>
    ensures { OnOk result (out.new.items ≡ out.old.items ++ places_spelt (masks_of choice.now) tables.now types.now) }
{
    for of in types {
        push_place(out, choice, tables, of)?;
    }
    Ok(())
}
