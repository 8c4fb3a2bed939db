//! The fields that each instance of a class has.

ghost use Rattle.std.specs.Prelude.{◌≡◌, ◌∷◌, [], ◌++◌, IfOk, OnOk, map, slice_get};
ghost use Rattle.std.specs.List.{filter};
ghost use Rattle.std.specs.Option.{option_copied};
ghost use Rattle.classes.specs.Queries.{instance_fields, is_instance, is_instance_kind, own_instance_fields};
ghost use Rattle.assemblies.specs.Binding.{numbered, range};
ghost use Rattle.member_keys.specs.Seen.{class_seen};
ghost use Rattle.class_table.specs.Seen.{classes_seen, field_kind_seen, field_seen};
ghost use Rattle.class_fields.specs.Fields.{instance_seen};

use crate::chain::superclass_chain;
use class_queries::find_class;
use class_table::{ClassTable, FieldKind, FieldRow, FileRows};
use member_keys::ClassId;
use plain_types::fault::NoMemory;
use std::alloc::Global;

/// A field that each instance of a class has, be it declared by the class or by a superclass.
#[derive(Clone, Copy, Debug)]
pub struct InstanceField<'a> {
    /// Its file, and its Field row from 0.
    pub id: ClassId,
    pub row: FieldRow<'a>,
}

/// Whether a field is one of each instance (ECMA-335 II.23.1.5).
fn is_instance(field: &FieldRow<'_>) -> bool
    ensures { result ≡ is_instance_kind (field_kind_seen field.now.kind) }
{
    matches!(field.kind, FieldKind::Instance)
}

/// Adds a field, where it is one of each instance. There is no room for those of 2^32 rows and more.
fn add_field<'a>(
    fields: &mut Vec<InstanceField<'a>>,
    file: u32,
    place: usize,
    row: &FieldRow<'a>,
) -> Result<(), NoMemory>
    ensures { OnOk result (map instance_seen fields.new.items ≡ map instance_seen fields.old.items ++ filter is_instance (field_seen file place row.now ∷ [])) }
{
    if !is_instance(row) {
        return Ok(());
    }
    if place > u32::MAX as usize {
        return Err(NoMemory);
    }
    let id = ClassId {
        file,
        row: place as u32,
    };
    fields.push(InstanceField { id, row: *row })?;
    Ok(())
}

/// Adds the instance fields among so many rows from the first on, as far as they are there.
fn add_range<'a>(
    fields: &mut Vec<InstanceField<'a>>,
    file: u32,
    rows: &[FieldRow<'a>],
    first: u32,
    count: u32,
) -> Result<(), NoMemory>
    ensures { OnOk result (map instance_seen fields.new.items ≡ map instance_seen fields.old.items ++ filter is_instance (numbered (field_seen file) first (range first count rows.now))) }
{
    let start = first as usize;
    let end = rows.len().min(start + count as usize);
    for place in start..end {
        add_field(fields, file, place, &rows[place])?;
    }
    Ok(())
}

/// What a file says; `None` where the table has no such file.
fn find_file<'t, 'a>(table: &'t ClassTable<'a>, file: u32) -> Option<&'t FileRows<'a>>
    ensures { option_copied result ≡ slice_get table.now.files.items file }
{
    table.files.get(file as usize)
}

/// Adds the instance fields that a class itself declares (ECMA-335 II.22.37).
fn add_own<'a>(
    fields: &mut Vec<InstanceField<'a>>,
    table: &ClassTable<'a>,
    class: ClassId,
) -> Result<(), NoMemory>
    ensures { OnOk result (map instance_seen fields.new.items ≡ map instance_seen fields.old.items ++ own_instance_fields (classes_seen table.now) (class_seen class)) }
{
    let found = find_class(table, class);
    match find_file(table, class.file) {
        Some(file) => match found {
            Some(row) => add_range(
                fields,
                class.file,
                &file.fields,
                row.first_field,
                row.field_count,
            ),
            None => Ok(()),
        },
        None => Ok(()),
    }
}

/// The instance fields of a class in their order: those of its superclasses first, from the topmost one down, then its own. In the
/// time of the chain of superclasses and of the fields that they declare.
///
/// # Errors
///
/// [`NoMemory`] also where a row of a field is 2^32 or more; no file has so many.
pub fn field_list<'a>(
    alloc: Global,
    table: &ClassTable<'a>,
    class: ClassId,
) -> Result<Vec<InstanceField<'a>>, NoMemory>
    ensures { IfOk result (λ list. map instance_seen list.items ≡ instance_fields (classes_seen table.now) (class_seen class)) }
{
    let classes = superclass_chain(alloc, table, class)?;
    let mut fields = Vec::new(alloc);
    for place in (0..classes.len()).rev() {
        add_own(&mut fields, table, classes[place])?;
    }
    Ok(fields)
}
