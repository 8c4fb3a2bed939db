//! How many types and references the files have.

ghost use Rattle.std.specs.Prelude.{◌≡◌};
ghost use Rattle.world_rows.specs.World.{rows_alone, size_of};

use file_tables::numbers::{TYPE_DEF, TYPE_REF};
use type_names::TypeNames;

/// More than any chain of superclasses, interfaces or scopes has that goes in no circle.
pub fn count_types(names: &TypeNames<'_>) -> u64
    ensures { result ≡ size_of (rows_alone names.now) }
{
    let mut size = 0;
    for file in 0..names.files() {
        let tables = names.tables(file);
        size += 2 * u64::from(tables.rows(TYPE_DEF)) + u64::from(tables.rows(TYPE_REF));
    }
    size
}
