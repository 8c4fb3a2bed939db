//! The types of each file.

ghost use Rattle.std.specs.Prelude.{◌≡◌, ◌<◌, IfOk, length, map};
ghost use Rattle.class_table.specs.Outlines.{outline_seen, outlines_at, AreRead};

use crate::interfaces::read_interfaces;
use crate::kinds::Kinds;
use crate::types::read_class;
use class_table::ClassRow;
use file_tables::numbers::TYPE_DEF;
use plain_types::fault::NoMemory;
use std::alloc::Global;
use type_names::{TypeNames, type_keys};

/// The types of a file.
fn read_file<'a>(
    alloc: Global,
    kinds: &Kinds<'_, 'a>,
    file: u16,
) -> Result<Vec<ClassRow<'a>>, NoMemory>
    requires { file < length kinds.now }
    ensures { IfOk result (λ rows. map outline_seen rows.items ≡ outlines_at kinds.now file) }
{
    let names = kinds.names();
    let tables = names.tables(file);
    let keys = type_keys(alloc, tables)?;
    let lists = read_interfaces(alloc, names, file, tables, tables.rows(TYPE_DEF))?;
    let mut rows = Vec::new(alloc);
    for interfaces in lists {
        let n = rows.len();
        rows.push(read_class(kinds, file, tables, n as u32, keys[n], interfaces))?;
    }
    Ok(rows)
}

/// For each file of a world its types, in the order of their rows (ECMA-335 II.22.37): their names, what they are nested
/// in (II.22.32), the class that they extend and the interfaces that they name (II.22.23), each where it is found, their
/// kinds (II.13, II.14.3), their flags (II.23.1.15), and where their fields and methods stand.
pub fn read_classes<'a>(
    alloc: Global,
    names: &TypeNames<'a>,
) -> Result<Vec<Vec<ClassRow<'a>>>, NoMemory>
    ensures count { IfOk result (λ all. length all.items ≡ length names.now) }
    ensures read { IfOk result (λ all. AreRead names.now (map (λ rows. rows.items) all.items)) }
{
    let kinds = Kinds::new(alloc, names)?;
    let mut all = Vec::new(alloc);
    for file in 0..names.files() {
        all.push(read_file(alloc, &kinds, file)?)?;
    }
    Ok(all)
}
