//! The classes of a table as numbers: one file's behind the other's, and behind all one number that stands for no class.

ghost use Rattle.std.specs.Prelude.{◌≡◌, IfOk};
ghost use Rattle.member_keys.specs.Seen.{class_seen};
ghost use Rattle.class_queries.specs.Numbers.{number_of, AreNumbers};

use crate::rows::find_class;
use class_table::ClassTable;
use member_keys::ClassId;
use plain_types::fault::NoMemory;
use std::alloc::Global;

/// The number of each file's first class, and the number behind all classes.
#[derive(Debug, Drop)]
pub struct Numbers {
    pub starts: Vec<u32>,
    pub total: u32,
}

/// Numbers the classes of a table. There is no room for 2^32 of them.
pub fn number_classes(alloc: Global, table: &ClassTable<'_>) -> Result<Numbers, NoMemory>
    ensures { IfOk result (λ numbers. AreNumbers table.now numbers) }
{
    if table.files.len() > u32::MAX as usize {
        return Err(NoMemory);
    }
    let mut starts = Vec::new(alloc);
    let mut total = 0;
    for file in &table.files {
        starts.push(total)?;
        let count = file.classes.len();
        if count >= (u32::MAX - total) as usize {
            return Err(NoMemory);
        }
        total += count as u32;
    }
    Ok(Numbers { starts, total })
}

/// The number of a class.
pub fn number(numbers: &Numbers, table: &ClassTable<'_>, class: ClassId) -> u32
    requires { AreNumbers table.now numbers.now }
    ensures { result ≡ number_of table.now (class_seen class) }
{
    match find_class(table, class) {
        Some(_) => numbers.starts[class.file as usize] + class.row,
        None => numbers.total,
    }
}
