//! Signatures (ECMA-335 II.23.2). Counts and tokens have two bytes each.

ghost use Rattle.std.specs.Prelude.{◌≡◌, [], ◌++◌, IfOk, OnOk};
ghost use Rattle.image_signatures.specs.Spelt.{none_spelt, field_spelt, method_spelt, spec_spelt, locals_spelt, read_spelt, unread_spelt, locals_read_spelt};
ghost use Rattle.kept_marks.specs.Masks.{masks_of};

use crate::types::{push_places, push_result, push_type, push_types};
use crate::words::push_word;
use cil_sig::elements::{INSTANCE_METHOD, STATIC_METHOD};
use cil_sig::{MethodSig, SigFault, SigType, field_sig, locals_sig, method_sig, spec_sig};
use cil_tables::Tables;
use file_tables::numbers::TYPE_DEF;
use kept_marks::FileChoice;
use plain_types::fault::NoMemory;
use plain_types::list::Items;
use row_numbers::Table;
use std::alloc::Global;

/// The byte of a class, which its token follows.
const CLASS: u8 = 0x12;

/// Adds a type that names nothing: a class past the last.
fn push_none(
    out: &mut Vec<u8>,
    choice: &FileChoice<'_>,
    tables: &Tables<'_>,
) -> Result<(), NoMemory>
    ensures { OnOk result (out.new.items ≡ out.old.items ++ none_spelt (masks_of choice.now) tables.now) }
{
    out.push(CLASS)?;
    let row = u64::from(tables.rows(TYPE_DEF));
    push_word(out, u64::from(choice.below(Table::TypeDef, row)))
}

/// Adds the signature of a field; one without a form is a type that names nothing.
fn push_field(
    out: &mut Vec<u8>,
    choice: &FileChoice<'_>,
    tables: &Tables<'_>,
    blob: &[u8],
) -> Result<(), NoMemory>
    ensures { OnOk result (out.new.items ≡ out.old.items ++ field_spelt (masks_of choice.now) tables.now blob.now) }
{
    match field_sig(blob) {
        Ok(of) => push_type(out, choice, tables, &of),
        Err(_) => push_none(out, choice, tables),
    }
}

/// Adds the signature of a specification; one without a form is a type that names nothing.
fn push_spec(
    out: &mut Vec<u8>,
    choice: &FileChoice<'_>,
    tables: &Tables<'_>,
    blob: &[u8],
) -> Result<(), NoMemory>
    ensures { OnOk result (out.new.items ≡ out.old.items ++ spec_spelt (masks_of choice.now) tables.now blob.now) }
{
    match spec_sig(blob) {
        Ok(of) => push_type(out, choice, tables, &of),
        Err(_) => push_none(out, choice, tables),
    }
}

/// Adds the signature of a method that was read.
fn push_read(
    out: &mut Vec<u8>,
    choice: &FileChoice<'_>,
    tables: &Tables<'_>,
    of: &MethodSig,
) -> Result<(), NoMemory>
    ensures { OnOk result (out.new.items ≡ out.old.items ++ read_spelt (masks_of choice.now) tables.now of.now) }
{
    out.push(if of.this {
        INSTANCE_METHOD
    } else {
        STATIC_METHOD
    })?;
    let params = of.params.as_slice();
    push_word(out, params.len() as u64)?;
    push_result(out, choice, tables, &of.returns)?;
    push_places(out, choice, tables, params)
}

/// Adds the signature of a method without a form: no parameters, and a result that names nothing.
fn push_unread(
    out: &mut Vec<u8>,
    choice: &FileChoice<'_>,
    tables: &Tables<'_>,
) -> Result<(), NoMemory>
    ensures { OnOk result (out.new.items ≡ out.old.items ++ unread_spelt (masks_of choice.now) tables.now) }
{
    out.push(STATIC_METHOD)?;
    push_word(out, 0)?;
    push_none(out, choice, tables)
}

/// Adds the signature of a method.
fn push_method(
    alloc: Global,
    out: &mut Vec<u8>,
    choice: &FileChoice<'_>,
    tables: &Tables<'_>,
    blob: &[u8],
) -> Result<(), NoMemory>
    ensures { OnOk result (out.new.items ≡ out.old.items ++ method_spelt (masks_of choice.now) tables.now blob.now) }
{
    match method_sig(alloc, blob) {
        Ok(of) => push_read(out, choice, tables, &of),
        Err(SigFault::NoMemory) => Err(NoMemory),
        Err(SigFault::Bad { .. }) => push_unread(out, choice, tables),
    }
}

/// Adds the types of locals that were read, behind their count.
fn push_locals_read(
    out: &mut Vec<u8>,
    choice: &FileChoice<'_>,
    tables: &Tables<'_>,
    types: &[SigType],
) -> Result<(), NoMemory>
    ensures { OnOk result (out.new.items ≡ out.old.items ++ locals_read_spelt (masks_of choice.now) tables.now types.now) }
{
    push_word(out, types.len() as u64)?;
    push_types(out, choice, tables, types)
}

/// Adds the signature of locals; one without a form has none.
fn push_locals(
    alloc: Global,
    out: &mut Vec<u8>,
    choice: &FileChoice<'_>,
    tables: &Tables<'_>,
    blob: &[u8],
) -> Result<(), NoMemory>
    ensures { OnOk result (out.new.items ≡ out.old.items ++ locals_spelt (masks_of choice.now) tables.now blob.now) }
{
    match locals_sig(alloc, blob) {
        Ok(types) => push_locals_read(out, choice, tables, types.as_slice()),
        Err(SigFault::NoMemory) => Err(NoMemory),
        Err(SigFault::Bad { .. }) => push_word(out, 0),
    }
}

/// The signature of a field (ECMA-335 II.23.2.4) in the image of a file's kept rows.
pub fn field_bytes(
    alloc: Global,
    choice: &FileChoice<'_>,
    tables: &Tables<'_>,
    blob: &[u8],
) -> Result<Items<u8>, NoMemory>
    ensures { IfOk result (λ bytes. bytes ≡ field_spelt (masks_of choice.now) tables.now blob.now) }
{
    let mut out = Vec::new(alloc);
    push_field(&mut out, choice, tables, blob)?;
    Ok(Items::from_vec(out))
}

/// The type that a specification says (ECMA-335 II.23.2.14) in the image of a file's kept rows.
pub fn spec_bytes(
    alloc: Global,
    choice: &FileChoice<'_>,
    tables: &Tables<'_>,
    blob: &[u8],
) -> Result<Items<u8>, NoMemory>
    ensures { IfOk result (λ bytes. bytes ≡ spec_spelt (masks_of choice.now) tables.now blob.now) }
{
    let mut out = Vec::new(alloc);
    push_spec(&mut out, choice, tables, blob)?;
    Ok(Items::from_vec(out))
}

/// The signature of a method (ECMA-335 II.23.2.1) in the image of a file's kept rows.
pub fn method_bytes(
    alloc: Global,
    choice: &FileChoice<'_>,
    tables: &Tables<'_>,
    blob: &[u8],
) -> Result<Items<u8>, NoMemory>
    ensures { IfOk result (λ bytes. bytes ≡ method_spelt (masks_of choice.now) tables.now blob.now) }
{
    let mut out = Vec::new(alloc);
    push_method(alloc, &mut out, choice, tables, blob)?;
    Ok(Items::from_vec(out))
}

/// The signature of locals (ECMA-335 II.23.2.6) in the image of a file's kept rows.
pub fn locals_bytes(
    alloc: Global,
    choice: &FileChoice<'_>,
    tables: &Tables<'_>,
    blob: &[u8],
) -> Result<Items<u8>, NoMemory>
    ensures { IfOk result (λ bytes. bytes ≡ locals_spelt (masks_of choice.now) tables.now blob.now) }
{
    let mut out = Vec::new(alloc);
    push_locals(alloc, &mut out, choice, tables, blob)?;
    Ok(Items::from_vec(out))
}
