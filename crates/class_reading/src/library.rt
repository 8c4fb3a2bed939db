//! The base library among the files of a world (ECMA-335 II.22.2).

ghost use Rattle.std.specs.Prelude.{◌≡◌, codes};
ghost use Rattle.machine.specs.Texts.{same_text};
ghost use Rattle.type_names.specs.Names.{assembly_name};
ghost use Rattle.class_table.specs.Whole.{library_number};

use cil_tables::Tables;
use type_names::{TypeNames, assembly_key};

/// The file's assembly has the base library's name.
fn is_library(tables: &Tables<'_>) -> bool
    ensures { result ≡ same_text (assembly_name tables.now).name (codes "mscorlib") }
{
    assembly_key(tables).name == "mscorlib"
}

/// The number of the first file whose assembly has the base library's name, from 0; `None` where none has it.
pub fn find_library(names: &TypeNames<'_>) -> Option<u32>
    ensures { result ≡ library_number names.now }
{
    for file in 0..names.files() {
        if is_library(names.tables(file)) {
            return Some(u32::from(file));
        }
    }
    None
}
