//! The rules of references to types (ECMA-335 II.22.38).

ghost use Rattle.std.specs.Prelude.{◌≡◌, ◌<◌, OnOk, Some, length, slice_get};
ghost use Rattle.file_tables.specs.File.{FilePart};
ghost use Rattle.definition_rules.specs.Definitions.{type_definitions, type_ref_count};
ghost use Rattle.row_rules.specs.Links.{Adds};

use crate::rule::keep_definition;
use cil_world::World;
use file_tables::numbers::TYPE_REF;
use file_tables::schema::Coded;
use plain_types::fault::NoMemory;
use row_numbers::Table;
use row_rules::{RowPlace, RowRules};

/// A row of TypeRef has this tag in a TypeDefOrRef (ECMA-335 II.24.2.6).
const TYPE_REF_TAG: u32 = 1;

/// As many rows as a TypeDefOrRef tells apart (ECMA-335 II.24.2.6). A file of less than 4 GB has fewer.
const MOST_ROWS: u32 = 0x3FFF_FFFF;

/// Adds that each reference to a type of a file keeps the type that it names: the one of its name in the first assembly of the name and
/// version that its scope says, or inside the type that its scope names (ECMA-335 II.22.38). Each is looked up once.
///
/// More rows than a TypeDefOrRef tells apart, which no file has, are told as want of memory.
pub fn add_type_definitions(
    rules: &mut RowRules,
    world: &World<'_>,
    file: u16,
) -> Result<(), NoMemory>
    requires { file < length world.now }
    ensures { OnOk result ((x : FilePart) → slice_get world.now file ≡ Some x → Adds (type_definitions world.now file (type_ref_count x.metadata)) rules.old rules.new) }
{
    let tables = world.tables(file);
    if tables.rows(TYPE_REF) > MOST_ROWS {
        return Err(NoMemory);
    }
    for n in 0..tables.rows(TYPE_REF) {
        let place = RowPlace {
            file,
            table: Table::TypeRef,
            row: n,
        };
        let index = (n + 1) * 4 + TYPE_REF_TAG;
        let definition = world.names().find_class(file, Coded::TypeDefOrRef, index);
        keep_definition(rules, place, world, Table::TypeDef, definition)?;
    }
    Ok(())
}
