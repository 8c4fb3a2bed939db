//! A class's own part of its full name.

ghost use Rattle.std.specs.Prelude.{◌≡◌, ◌+◌, ◌<◌, ◌^◌, IfOk, IfErr, Some, length, slice_get};
ghost use Rattle.member_keys.specs.Seen.{class_seen};
ghost use Rattle.class_table.specs.Seen.{classes_seen};
ghost use Rattle.class_names.specs.Units.{own_units, row_units};

use crate::text::{count_units, text_unit};
use class_queries::find_class;
use class_table::{ClassRow, ClassTable};
use member_keys::ClassId;

/// The unit between a namespace and a name.
const DOT: u16 = 0x2E;

/// The unit of a number of the own part that a row tells; past the last one how many units further it is.
fn row_unit(row: &ClassRow<'_>, k: u64) -> Result<u16, u64>
    ensures unit { IfOk result (λ unit. slice_get (row_units row.now) k ≡ Some unit) }
    ensures past { IfErr result (λ left. k ≡ length (row_units row.now) + left) }
{
    if row.namespace.is_empty() {
        return text_unit(row.name, k);
    }
    match text_unit(row.namespace, k) {
        Ok(unit) => Ok(unit),
        Err(0) => Ok(DOT),
        Err(left) => text_unit(row.name, left - 1),
    }
}

/// How many units the own part has that a row tells.
fn count_row(row: &ClassRow<'_>) -> u64
    ensures { result ≡ length (row_units row.now) }
{
    if row.namespace.is_empty() {
        count_units(row.name)
    } else {
        count_units(row.namespace) + 1 + count_units(row.name)
    }
}

/// The unit of a number of a class's own part of its full name; past the last one how many units further it is.
pub fn own_unit(table: &ClassTable<'_>, class: ClassId, k: u64) -> Result<u16, u64>
    ensures unit { IfOk result (λ unit. slice_get (own_units (classes_seen table.now) (class_seen class)) k ≡ Some unit) }
    ensures past { IfErr result (λ left. k ≡ length (own_units (classes_seen table.now) (class_seen class)) + left) }
{
    match find_class(table, class) {
        Some(row) => row_unit(row, k),
        None => Err(k),
    }
}

/// How many units a class's own part of its full name has; none where there is no such class.
pub fn count_own(table: &ClassTable<'_>, class: ClassId) -> u64
    ensures { result ≡ length (own_units (classes_seen table.now) (class_seen class)) }
{
    match find_class(table, class) {
        Some(row) => count_row(row),
        None => 0,
    }
}
