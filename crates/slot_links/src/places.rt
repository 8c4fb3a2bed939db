//! The rows of types and methods.

ghost use Rattle.std.specs.Prelude.{◌≡◌, IfOk};
ghost use Rattle.member_keys.specs.Seen.{class_seen};
ghost use Rattle.kept_rules.specs.Rules.{type_at, method_at};
ghost use Rattle.row_rules.specs.Links.{row_at};

use member_keys::ClassId;
use plain_types::fault::NoMemory;
use row_numbers::Table;
use row_rules::RowPlace;

/// The number behind the last file that a [`RowPlace`] has room for.
const FILES: u32 = 65536;

/// The row of a type. There is no room for those of more than 65,536 files.
pub fn type_place(class: ClassId) -> Result<RowPlace, NoMemory>
    ensures { IfOk result (λ place. row_at place ≡ type_at (class_seen class)) }
{
    if class.file >= FILES {
        return Err(NoMemory);
    }
    Ok(RowPlace {
        file: class.file as u16,
        table: Table::TypeDef,
        row: class.row,
    })
}

/// The row of a method. There is no room for those of more than 65,536 files.
pub fn method_place(method: ClassId) -> Result<RowPlace, NoMemory>
    ensures { IfOk result (λ place. row_at place ≡ method_at (class_seen method)) }
{
    if method.file >= FILES {
        return Err(NoMemory);
    }
    Ok(RowPlace {
        file: method.file as u16,
        table: Table::MethodDef,
        row: method.row,
    })
}
