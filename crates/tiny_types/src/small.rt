//! Whether the rows of a table have numbers of 16 bits.

ghost use Rattle.std.specs.Prelude.{OnOk};
ghost use Rattle.tiny_types.specs.Small.{IsSmall, IsSmallFile};

use class_table::{ClassTable, FileRows};
use plain_types::fault::NoMemory;

/// The most rows of a kind, and the most files.
const MOST: usize = 65535;

/// Tells that a file has at most 65,535 types and methods.
fn check_file(file: &FileRows<'_>) -> Result<(), NoMemory>
    ensures { OnOk result (IsSmallFile file.now) }
{
    if file.classes.len() > MOST || file.methods.len() > MOST {
        return Err(NoMemory);
    }
    Ok(())
}

/// Tells that a table has at most 65,535 files, and each of them as many types and methods: there is no room for more, and no
/// image has more.
pub fn check_small(table: &ClassTable<'_>) -> Result<(), NoMemory>
    ensures { OnOk result (IsSmall table.now) }
{
    if table.files.len() > MOST {
        return Err(NoMemory);
    }
    for file in &table.files {
        check_file(file)?;
    }
    Ok(())
}
