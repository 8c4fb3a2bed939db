//! References to types (ECMA-335 II.22.38).

ghost use Rattle.std.specs.Prelude.{◌≡◌};
ghost use Rattle.std.specs.Option.{option_map};
ghost use Rattle.assemblies.specs.Binding.{assembly_of};
ghost use Rattle.world_rows.specs.Tokens.{scope_of};
ghost use Rattle.world_rows.specs.World.{rows_alone};
ghost use Rattle.member_keys.specs.Seen.{class_seen};
ghost use Rattle.type_names.specs.References.{scope_seen, reference_seen, reference_at, named_alone, named_inside};

use crate::keys::{AssemblyKey, NameKey, Version};
use crate::names::Names;
use crate::read::text;
use crate::token::{Token, from_zero, split};
use cil_rows::{AssemblyRefRow, TypeRefRow, read_row};
use cil_tables::Tables;
use file_tables::numbers::{ASSEMBLY_REF, TYPE_REF};
use file_tables::schema::Coded;
use member_keys::ClassId;

/// Where a type stands, by rows from 0.
#[derive(Clone, Copy)]
pub enum Scope {
    /// In the assembly of a reference.
    Assembly(u32),
    /// Inside the type of a reference.
    Outer(u32),
    Nowhere,
}

/// A reference to a type.
#[derive(Clone, Copy)]
pub struct Reference<'a> {
    pub scope: Scope,
    pub namespace: &'a str,
    pub name: &'a str,
}

/// The scope that a column says.
#[tactic(auto, unfolding(world_rows::specs::Tokens::scope_of))]
fn read_scope(tables: &Tables<'_>, n: u32) -> Scope
    ensures { scope_seen result ≡ scope_of tables.now n }
{
    let Token { table, row } = split(Coded::ResolutionScope, n);
    match table {
        ASSEMBLY_REF => Scope::Assembly(from_zero(tables.rows(ASSEMBLY_REF), row)),
        TYPE_REF => Scope::Outer(from_zero(tables.rows(TYPE_REF), row)),
        _ => Scope::Nowhere,
    }
}

/// The reference of a row of a file, from 0; `None` where there is none.
#[tactic(auto, using(crate::proofs::ReferenceLaws::reference_there, crate::proofs::ReferenceLaws::reference_past))]
pub fn find_reference<'a>(names: &Names<'_, 'a>, file: u32, n: u32) -> Option<Reference<'a>>
    ensures { option_map reference_seen result ≡ reference_at names.now file n }
{
    let tables = names.metadata(file)?;
    if n >= tables.rows(TYPE_REF) {
        return None;
    }
    let row: TypeRefRow = read_row(tables, n + 1);
    Some(Reference {
        scope: read_scope(tables, row.scope),
        namespace: text(tables, row.namespace),
        name: text(tables, row.name),
    })
}

/// The assembly that a row of a file refers to, from 0, by its file.
#[tactic(auto, using(crate::proofs::ReferenceLaws::assembly_there, crate::proofs::ReferenceLaws::assembly_past))]
fn assembly(names: &Names<'_, '_>, file: u32, n: u32) -> Option<u32>
    ensures { result ≡ assembly_of (rows_alone names.now) file n }
{
    let tables = names.metadata(file)?;
    if n >= tables.rows(ASSEMBLY_REF) {
        return None;
    }
    let row: AssemblyRefRow = read_row(tables, n + 1);
    names.find_assembly(AssemblyKey {
        name: text(tables, row.name),
        version: Version {
            major: row.major_version,
            minor: row.minor_version,
            build: row.build_number,
            revision: row.revision_number,
        },
    })
}

/// The type that a reference names where it isn't nested.
pub fn find_alone<'a>(names: &Names<'_, 'a>, file: u32, reference: Reference<'a>) -> Option<ClassId>
    ensures { option_map class_seen result ≡ named_alone names.now file (reference_seen reference.entry) }
{
    match reference.scope {
        Scope::Assembly(n) => {
            let assembly = assembly(names, file, n)?;
            names.find_type(
                assembly,
                NameKey {
                    enclosing: None,
                    namespace: reference.namespace,
                    name: reference.name,
                },
            )
        }
        Scope::Outer(_) | Scope::Nowhere => None,
    }
}

/// The type that a reference names inside another type.
pub fn find_inside<'a>(
    names: &Names<'_, 'a>,
    outer: ClassId,
    reference: Reference<'a>,
) -> Option<ClassId>
    ensures { option_map class_seen result ≡ named_inside names.now (class_seen outer) (reference_seen reference.entry) }
{
    names.find_type(
        outer.file,
        NameKey {
            enclosing: Some(outer.row),
            namespace: reference.namespace,
            name: reference.name,
        },
    )
}
