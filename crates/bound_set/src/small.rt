//! Whether the rows that references name have numbers of 16 bits, as all rows of images have, and whether the classes are few.

ghost use Rattle.std.specs.Prelude.{◌<◌, ◌^◌, OnOk};
ghost use Rattle.class_queries.specs.Numbers.{total_of};
ghost use Rattle.bound_set.specs.Small.{ColumnIsSmall, FilesAreSmall};

use class_table::ClassTable;
use member_keys::ClassId;
use plain_types::fault::NoMemory;
use set_binding::Bindings;

/// The greatest number of 16 bits.
const MOST: u32 = 65535;

/// Tells that the rows of a column have such numbers.
fn check_column(column: &[Option<ClassId>]) -> Result<(), NoMemory>
    ensures { OnOk result (ColumnIsSmall column.now) }
{
    for class in column {
        if let Some(class) = class {
            if class.file > MOST || class.row > MOST {
                return Err(NoMemory);
            }
        }
    }
    Ok(())
}

/// Tells that all rows that are named have such numbers: there is no room for others, and no image has them.
pub fn check_small(bindings: &Bindings) -> Result<(), NoMemory>
    ensures { OnOk result (FilesAreSmall bindings.now.files.items) }
{
    for file in &bindings.files {
        check_column(&file.assemblies)?;
        check_column(&file.types)?;
        check_column(&file.fields)?;
        check_column(&file.methods)?;
    }
    Ok(())
}

/// Tells that a table has fewer than 2^32 classes: there is no room for more.
pub fn check_few(table: &ClassTable<'_>) -> Result<(), NoMemory>
    ensures { OnOk result (total_of table.now < 2 ^ 32) }
{
    let mut total = 0;
    for file in &table.files {
        let count = file.classes.len();
        if count >= (u32::MAX - total) as usize {
            return Err(NoMemory);
        }
        total += count as u32;
    }
    Ok(())
}
