//! The names of a file's types.

ghost use Rattle.std.specs.Prelude.{◌≡◌, ◌<◌, ◌^◌, IfOk, length, map};
ghost use Rattle.file_tables.specs.Metadata.{rows_of};
ghost use Rattle.assemblies.specs.Binding.{numbered};
ghost use Rattle.world_rows.specs.Tokens.{type_defs, text_at};
ghost use Rattle.type_names.specs.Names.{type_seen, type_name_at, assembly_seen, assembly_name};

use crate::keys::{AssemblyKey, NameKey, Version};
use crate::nested::{enclosing, nested_places};
use cil_rows::{AssemblyRow, TypeDefRow, find_row, read_row};
use cil_tables::Tables;
use file_tables::numbers::{NESTED_CLASS, TYPE_DEF};
use plain_types::fault::NoMemory;
use std::alloc::Global;

/// The text at an offset of `#Strings`, or none.
pub fn text<'a>(tables: &Tables<'a>, at: u32) -> &'a str
    ensures { result.now ≡ text_at tables.now at }
{
    tables.string(at).unwrap_or("")
}

/// The name and version of a file's assembly.
pub fn assembly_key<'a>(tables: &Tables<'a>) -> AssemblyKey<'a>
    ensures { assembly_seen result ≡ assembly_name tables.now }
{
    match find_row::<AssemblyRow>(tables, 1) {
        Some(row) => AssemblyKey {
            name: text(tables, row.name),
            version: Version {
                major: row.major_version,
                minor: row.minor_version,
                build: row.build_number,
                revision: row.revision_number,
            },
        },
        None => AssemblyKey {
            name: text(tables, 0),
            version: Version {
                major: 0,
                minor: 0,
                build: 0,
                revision: 0,
            },
        },
    }
}

/// The names of a file's types, in the order of their rows.
pub fn type_keys<'a>(alloc: Global, tables: &Tables<'a>) -> Result<Vec<NameKey<'a>>, NoMemory>
    ensures few { IfOk result (λ keys. length keys.items < 2 ^ 32) }
    ensures names { IfOk result (λ keys. map type_seen keys.items ≡ numbered (type_name_at tables.now) 0 (rows_of tables.now type_defs)) }
{
    let places = nested_places(alloc, tables)?;
    let _few = tables.rows(NESTED_CLASS);
    let mut keys = Vec::new(alloc);
    for n in 0..tables.rows(TYPE_DEF) {
        let row: TypeDefRow = read_row(tables, n + 1);
        keys.push(NameKey {
            enclosing: enclosing(tables, &places, n),
            namespace: text(tables, row.namespace),
            name: text(tables, row.name),
        })?;
    }
    Ok(keys)
}
