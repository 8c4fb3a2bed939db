//! The tables of an image, in their order.

ghost use Rattle.std.specs.Prelude.{◌≡◌, ◌++◌, IfOk, OnOk};
ghost use Rattle.looked_rows.specs.Looked.{file_with};
ghost use Rattle.kept_marks.specs.Masks.{masks_of};
ghost use Rattle.kept_parts.specs.Made.{AreAsMany, references_made, types_made, methods_made, values_made, tables_made};

use crate::source::Source;
use image_methods::{clause_parts, method_parts};
use image_rows::{
    assembly_parts, data_parts, field_parts, field_reference_parts, interface_parts,
    method_reference_parts, reference_parts, spec_parts, type_parts,
};
use msspot_write::PartRow;
use plain_types::fault::NoMemory;
use plain_types::list::Items;
use std::alloc::Global;

/// Adds the tables 0 to 3, of what a file refers to (ECMA-335 II.22.5, II.22.38, II.22.25).
fn push_references(
    alloc: Global,
    out: &mut Vec<Items<PartRow>>,
    source: &Source<'_, '_, '_>,
) -> Result<(), NoMemory>
    ensures { OnOk result (out.new.items ≡ out.old.items ++ references_made (masks_of source.now.choice.now) (file_with source.now.pe.now source.now.tables.now) source.now.rows.now) }
{
    out.push(assembly_parts(alloc, source.choice, source.tables)?)?;
    out.push(reference_parts(alloc, source.choice, source.tables)?)?;
    out.push(field_reference_parts(alloc, source.choice, source.tables)?)?;
    out.push(method_reference_parts(alloc, source.choice, source.tables)?)?;
    Ok(())
}

/// Adds the tables 4 to 6, of types, their interfaces and their fields (ECMA-335 II.22.37, II.22.23, II.22.15).
fn push_types(
    alloc: Global,
    out: &mut Vec<Items<PartRow>>,
    source: &Source<'_, '_, '_>,
) -> Result<(), NoMemory>
    requires { AreAsMany source.now.tables.now source.now.rows.now }
    ensures { OnOk result (out.new.items ≡ out.old.items ++ types_made (masks_of source.now.choice.now) (file_with source.now.pe.now source.now.tables.now) source.now.rows.now) }
{
    let classes = source.rows.classes.as_slice();
    let fields = source.rows.fields.as_slice();
    out.push(type_parts(alloc, source.choice, source.tables, classes)?)?;
    out.push(interface_parts(alloc, source.choice, source.tables)?)?;
    out.push(field_parts(alloc, source.choice, source.tables, fields)?)?;
    Ok(())
}

/// Adds the tables 7 and 8, of methods and their exception clauses (ECMA-335 II.22.26, II.25.4.6).
fn push_methods(
    alloc: Global,
    out: &mut Vec<Items<PartRow>>,
    source: &Source<'_, '_, '_>,
) -> Result<(), NoMemory>
    requires { AreAsMany source.now.tables.now source.now.rows.now }
    ensures { OnOk result (out.new.items ≡ out.old.items ++ methods_made (masks_of source.now.choice.now) (file_with source.now.pe.now source.now.tables.now) source.now.rows.now) }
{
    let methods = source.rows.methods.as_slice();
    let made = method_parts(alloc, source.choice, source.pe, source.tables, methods)?;
    out.push(made)?;
    out.push(clause_parts(alloc, source.choice, source.pe, source.tables)?)?;
    Ok(())
}

/// Adds the tables 9 and 10, of specifications and of the data of fields (ECMA-335 II.22.39, II.22.18).
fn push_values(
    alloc: Global,
    out: &mut Vec<Items<PartRow>>,
    source: &Source<'_, '_, '_>,
) -> Result<(), NoMemory>
    requires { AreAsMany source.now.tables.now source.now.rows.now }
    ensures { OnOk result (out.new.items ≡ out.old.items ++ values_made (masks_of source.now.choice.now) (file_with source.now.pe.now source.now.tables.now) source.now.rows.now) }
{
    let fields = source.rows.fields.as_slice();
    out.push(spec_parts(alloc, source.choice, source.tables)?)?;
    out.push(data_parts(alloc, source.choice, source.tables, fields)?)?;
    Ok(())
}

/// The tables of a file's kept rows, in the order of their numbers.
pub fn all_tables(
    alloc: Global,
    source: &Source<'_, '_, '_>,
) -> Result<Items<Items<PartRow>>, NoMemory>
    requires { AreAsMany source.now.tables.now source.now.rows.now }
    ensures { IfOk result (λ tables. tables ≡ tables_made (masks_of source.now.choice.now) (file_with source.now.pe.now source.now.tables.now) source.now.rows.now) }
{
    let mut tables = Vec::new(alloc);
    push_references(alloc, &mut tables, source)?;
    push_types(alloc, &mut tables, source)?;
    push_methods(alloc, &mut tables, source)?;
    push_values(alloc, &mut tables, source)?;
    Ok(Items::from_vec(tables))
}
