//! Fields that tokens name.

ghost use Rattle.std.specs.Prelude.{◌≡◌, IfOk};
ghost use Rattle.std.specs.Option.{option_copied};
ghost use Rattle.assemblies.specs.Binding.{holds};
ghost use Rattle.member_keys.specs.Seen.{class_seen};
ghost use Rattle.class_table.specs.Seen.{classes_seen};
ghost use Rattle.method_facts.specs.Found.{field_found};
ghost use Rattle.method_facts.specs.Members.{FieldTold, OwnsField};

use crate::flags::field_flags;
use crate::places::{class_place, place_type};
use class_queries::find_class;
use class_table::{ClassRow, ClassTable, FieldRow};
use member_keys::ClassId;
use plain_types::fault::NoMemory;
use verify_ops::facts::FieldOperand;

/// A field that its owner has, with that owner.
#[derive(Clone, Copy)]
pub struct OwnedField<'a> {
    pub owner: ClassId,
    pub row: FieldRow<'a>,
}

/// The row of a field, whether a class has it or not.
fn find_field<'a>(table: &ClassTable<'a>, field: ClassId) -> Option<FieldRow<'a>>
    ensures { result ≡ field_found table.now (class_seen field) }
{
    let file = table.files.get(field.file as usize)?;
    file.fields.get(field.row as usize).copied()
}

/// Whether the row of a field is one of a class.
fn has_field(class: &ClassRow<'_>, row: u32) -> bool
    ensures { result ≡ holds class.now.first_field class.now.field_count row }
{
    class.first_field <= row
        && u64::from(row) < u64::from(class.first_field) + u64::from(class.field_count)
}

/// A field that a class has among its own, with that class (ECMA-335 II.22.37).
fn owned_field<'a>(table: &ClassTable<'a>, field: ClassId) -> Option<OwnedField<'a>>
    ensures { OwnsField table.now (class_seen field) result }
{
    let row = find_field(table, field)?;
    let owner = ClassId {
        file: field.file,
        row: row.owner?,
    };
    let class = find_class(table, owner)?;
    if has_field(class, field.row) {
        Some(OwnedField { owner, row })
    } else {
        None
    }
}

/// What an instruction that takes a field needs to know of it: `None` exactly where no class has such a field, or its signature has no
/// form or names a type that isn't there (ECMA-335 II.22.15). Of its flags those that say whether it is static, literal or has data.
///
/// # Errors
///
/// [`NoMemory`] where a type id has no room for a class; a world has none such.
pub fn field_operand(
    table: &ClassTable<'_>,
    field: ClassId,
) -> Result<Option<FieldOperand>, NoMemory>
    ensures { IfOk result (FieldTold (classes_seen table.now) (class_seen field)) }
{
    let Some(owned) = owned_field(table, field) else {
        return Ok(None);
    };
    let Some(key) = owned.row.signature else {
        return Ok(None);
    };
    let class = class_place(table, owned.owner)?;
    let of = place_type(table, key)?;
    let flags = field_flags(owned.row.kind);
    Ok(Some(FieldOperand { class, of, flags }))
}
