//! The row of a method, and the class that has it.

ghost use Rattle.std.specs.Prelude.{◌≡◌};
ghost use Rattle.std.specs.Option.{option_copied};
ghost use Rattle.assemblies.specs.Binding.{holds};
ghost use Rattle.member_keys.specs.Seen.{class_seen};
ghost use Rattle.class_targets.specs.Owned.{method_found, Owns};

use class_queries::find_class;
use class_table::{ClassRow, ClassTable, MethodRow};
use member_keys::ClassId;

/// A method that its owner has, with that owner.
#[derive(Clone, Copy)]
pub struct OwnedMethod<'t, 'a> {
    pub owner: ClassId,
    pub row: &'t MethodRow<'a>,
}

/// The row of a method, whether a class has it or not; `None` where the table has no such method.
pub fn find_method<'t, 'a>(table: &'t ClassTable<'a>, method: ClassId) -> Option<&'t MethodRow<'a>>
    ensures { option_copied result ≡ method_found table.now (class_seen method) }
{
    let file = table.files.get(method.file as usize)?;
    file.methods.get(method.row as usize)
}

/// Whether the row of a method is one of a class.
fn has_method(class: &ClassRow<'_>, row: u32) -> bool
    ensures { result ≡ holds class.now.first_method class.now.method_count row }
{
    class.first_method <= row
        && u64::from(row) < u64::from(class.first_method) + u64::from(class.method_count)
}

/// A method that a class has among its own, with that class (ECMA-335 II.22.37); `None` where there is no such method,
/// and where no class has it.
pub fn owned_method<'t, 'a>(
    table: &'t ClassTable<'a>,
    method: ClassId,
) -> Option<OwnedMethod<'t, 'a>>
    ensures { Owns table.now (class_seen method) result }
{
    let row = find_method(table, method)?;
    let owner = ClassId {
        file: method.file,
        row: row.owner?,
    };
    let class = find_class(table, owner)?;
    if has_method(class, method.row) {
        Some(OwnedMethod { owner, row })
    } else {
        None
    }
}
