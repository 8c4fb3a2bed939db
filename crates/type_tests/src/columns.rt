//! What the types of a file are looked up by.

ghost use Rattle.std.specs.Prelude.{◌≡◌, ◌<◌, IfOk, length, map};
ghost use Rattle.file_tables.specs.Metadata.{rows_of};
ghost use Rattle.assemblies.specs.Binding.{numbered};
ghost use Rattle.world_rows.specs.Tokens.{type_defs};
ghost use Rattle.type_names.specs.Names.{type_seen, type_name_at};
ghost use Rattle.type_tests.specs.Columns.{class_name, IsColumns, AreColumns};

use cil_tables::Tables;
use class_table::ClassRow;
use file_tables::numbers::CLASS_LAYOUT;
use member_reading::first_rows;
use plain_types::fault::NoMemory;
use profile_subject::Subject;
use repeated_keys::repeated;
use std::alloc::Global;
use std::collections::BTreeMap;
use type_names::NameKey;

/// What the types of a file are looked up by.
#[derive(Drop)]
pub struct TypeColumns {
    /// For each type, from 0, whether one before it has its names.
    pub repeats: Vec<bool>,
    /// For each type, from 1, its first layout row, from 0.
    pub layouts: BTreeMap<u32, u32>,
}

/// The names of types, in the order of their rows.
fn row_names<'a>(alloc: Global, rows: &[ClassRow<'a>]) -> Result<Vec<NameKey<'a>>, NoMemory>
    ensures { IfOk result (λ keys. map type_seen keys.items ≡ map class_name rows.now) }
{
    let mut keys = Vec::with_capacity(alloc, rows.len())?;
    for row in rows {
        keys.push(NameKey {
            enclosing: row.enclosing,
            namespace: row.namespace,
            name: row.name,
        })?;
    }
    Ok(keys)
}

/// What the types of tables are looked up by, of which the names are known.
#[tactic(auto, using(crate::proofs::RepeatLaws::repeats_told))]
fn read_columns(
    alloc: Global,
    keys: Vec<NameKey<'_>>,
    tables: &Tables<'_>,
) -> Result<TypeColumns, NoMemory>
    requires { map type_seen keys.items ≡ numbered (type_name_at tables.now) 0 (rows_of tables.now type_defs) }
    ensures { IfOk result (IsColumns tables.now) }
{
    let repeats = repeated(alloc, keys)?;
    let layouts = first_rows(alloc, tables, CLASS_LAYOUT, 2)?;
    Ok(TypeColumns { repeats, layouts })
}

impl TypeColumns {
    /// The names and the layouts of a file's types (ECMA-335 II.22.37, II.22.8).
    pub fn new(alloc: Global, subject: &Subject<'_, '_>, file: u16) -> Result<TypeColumns, NoMemory>
        requires { file < length subject.now.world.now }
        ensures { IfOk result (AreColumns subject.now.world.now file) }
    {
        let world = subject.world;
        let table = world.classes();
        let keys = row_names(alloc, &table.files[file as usize].classes)?;
        read_columns(alloc, keys, world.tables(file))
    }
}
