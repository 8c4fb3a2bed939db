//! The tokens that signatures name (ECMA-335 II.23.2).

ghost use Rattle.std.specs.Prelude.{◌≡◌, [], ◌∷◌, OnOk};
ghost use Rattle.file_tables.specs.declared.schema.Coded.TheVariants.{TypeDefOrRef};
ghost use Rattle.file_tables.specs.Metadata.{token_table};
ghost use Rattle.cil_sig.specs.Reading.{whole_field, whole_method, whole_locals};
ghost use Rattle.world_rows.specs.Looked.{token_from, named_by_type, named_by_types, named_by_field, named_by_method, named_by_locals};
ghost use Rattle.looked_rows.specs.Looked.{Looks};

use crate::looked::Looked;
use cil_sig::elements::is_named;
use cil_sig::{SigFault, SigType, field_sig, locals_sig, method_sig};
use file_tables::numbers::NO_TABLE;
use file_tables::schema::Coded;
use plain_types::fault::NoMemory;
use std::alloc::Global;

/// The table of a TypeDefOrRef (ECMA-335 II.24.2.6).
fn table_of(index: u32) -> u8
    ensures { result ≡ token_table TypeDefOrRef index }
{
    let tables = Coded::TypeDefOrRef.tables();
    let tag = (index % 4) as usize;
    if tag < tables.len() {
        tables[tag]
    } else {
        NO_TABLE
    }
}

/// Marks the row that a TypeDefOrRef names (ECMA-335 II.24.2.6).
#[tactic(auto, using(crate::proofs::TokenLaws::row_is))]
pub fn mark_coded(looked: &mut Looked, index: u32)
    ensures { Looks (token_from TypeDefOrRef index ∷ []) looked.old looked.new }
{
    let table = u64::from(table_of(index));
    looked.mark(table * 0x100_0000 + u64::from(index / 4));
}

/// Marks the row that a type names, if it names one.
fn mark_type(looked: &mut Looked, of: &SigType)
    ensures { Looks (named_by_type of.now) looked.old looked.new }
{
    if is_named(of.elem) {
        mark_coded(looked, of.token);
    }
}

/// Marks the rows that types name.
fn mark_types(looked: &mut Looked, types: &[SigType])
    ensures { Looks (named_by_types types.now) looked.old looked.new }
{
    for of in types {
        mark_type(looked, of);
    }
}

/// Marks the row that the blob of a field names.
pub fn mark_field(looked: &mut Looked, blob: &[u8])
    ensures { Looks (named_by_field (whole_field blob.now)) looked.old looked.new }
{
    match field_sig(blob) {
        Ok(of) => mark_type(looked, &of),
        Err(_) => {}
    }
}

/// Marks the rows that the blob of a method names.
pub fn mark_method(alloc: Global, looked: &mut Looked, blob: &[u8]) -> Result<(), NoMemory>
    ensures { OnOk result (Looks (named_by_method (whole_method blob.now)) looked.old looked.new) }
{
    match method_sig(alloc, blob) {
        Ok(of) => {
            mark_type(looked, &of.returns);
            mark_types(looked, of.params.as_slice());
            Ok(())
        }
        Err(SigFault::NoMemory) => Err(NoMemory),
        Err(SigFault::Bad { .. }) => Ok(()),
    }
}

/// Marks the rows that the blob of locals names.
pub fn mark_locals(alloc: Global, looked: &mut Looked, blob: &[u8]) -> Result<(), NoMemory>
    ensures { OnOk result (Looks (named_by_locals (whole_locals blob.now)) looked.old looked.new) }
{
    match locals_sig(alloc, blob) {
        Ok(types) => {
            mark_types(looked, types.as_slice());
            Ok(())
        }
        Err(SigFault::NoMemory) => Err(NoMemory),
        Err(SigFault::Bad { .. }) => Ok(()),
    }
}
