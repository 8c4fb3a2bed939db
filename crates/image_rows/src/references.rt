//! What a file refers to: assemblies, types and members, and its specifications (ECMA-335 II.22.5, II.22.38, II.22.25, II.22.39).

ghost use Rattle.std.specs.Prelude.{◌≡◌, IfOk, true};
ghost use Rattle.file_tables.specs.Metadata.{rows_of};
ghost use Rattle.world_rows.specs.Tokens.{assembly_refs, type_refs, type_specs};
ghost use Rattle.image_rows.specs.Kept.{assembly_part_of, reference_part_of, spec_part_of, assembly_rows, reference_rows, spec_rows};
ghost use Rattle.kept_marks.specs.Masks.{masks_of};

use crate::columns::{blob, name, number, push_numbers, scope_word};
use crate::table::{TableParts, kept_parts};
use cil_rows::{AssemblyRefRow, TypeRefRow, TypeSpecRow, read_row};
use cil_tables::Tables;
use file_tables::numbers::{ASSEMBLY_REF, TYPE_REF, TYPE_SPEC};
use image_signatures::spec_bytes;
use kept_marks::FileChoice;
use msspot_write::{Column, PartRow};
use plain_types::fault::NoMemory;
use plain_types::list::Items;
use row_numbers::Table;
use std::alloc::Global;

/// The references to assemblies of a file.
#[derive(Drop)]
struct Assemblies<'t, 'a> {
    tables: &'t Tables<'a>,
}

impl<'t, 'a> TableParts for Assemblies<'t, 'a> {
    ghost rows = { λ a. rows_of a.tables.now assembly_refs };

    ghost belongs = { λ a row. true };

    ghost part = { λ a. assembly_part_of a.tables.now };

    fn belongs(&self, _n: u32) -> bool {
        true
    }

    fn part(&self, alloc: Global, n: u32) -> Result<PartRow, NoMemory> {
        let _few = self.tables.rows(ASSEMBLY_REF);
        let row: AssemblyRefRow = read_row(self.tables, n + 1);
        let version = [
            u64::from(row.major_version),
            u64::from(row.minor_version),
            u64::from(row.build_number),
            u64::from(row.revision_number),
        ];
        let mut columns = Vec::with_capacity(alloc, 5)?;
        columns.push(name(alloc, self.tables, row.name)?)?;
        push_numbers(&mut columns, &version)?;
        Ok(PartRow {
            columns: Items::from_vec(columns),
        })
    }
}

/// The references to types of a file.
#[derive(Drop)]
struct References<'k, 't, 'a> {
    choice: &'t FileChoice<'k>,
    tables: &'t Tables<'a>,
}

impl<'k, 't, 'a> TableParts for References<'k, 't, 'a> {
    ghost rows = { λ r. rows_of r.tables.now type_refs };

    ghost belongs = { λ r row. true };

    ghost part = { λ r. reference_part_of (masks_of r.choice.now) r.tables.now };

    fn belongs(&self, _n: u32) -> bool {
        true
    }

    fn part(&self, alloc: Global, n: u32) -> Result<PartRow, NoMemory> {
        let _few = self.tables.rows(TYPE_REF);
        let row: TypeRefRow = read_row(self.tables, n + 1);
        let scope = scope_word(self.choice, self.tables, row.scope);
        let mut columns = Vec::with_capacity(alloc, 3)?;
        columns.push(number(scope))?;
        columns.push(name(alloc, self.tables, row.namespace)?)?;
        columns.push(name(alloc, self.tables, row.name)?)?;
        Ok(PartRow {
            columns: Items::from_vec(columns),
        })
    }
}

/// The specifications of a file.
#[derive(Drop)]
struct Specifications<'k, 't, 'a> {
    choice: &'t FileChoice<'k>,
    tables: &'t Tables<'a>,
}

impl<'k, 't, 'a> TableParts for Specifications<'k, 't, 'a> {
    ghost rows = { λ s. rows_of s.tables.now type_specs };

    ghost belongs = { λ s row. true };

    ghost part = { λ s. spec_part_of (masks_of s.choice.now) s.tables.now };

    fn belongs(&self, _n: u32) -> bool {
        true
    }

    fn part(&self, alloc: Global, n: u32) -> Result<PartRow, NoMemory> {
        let _few = self.tables.rows(TYPE_SPEC);
        let row: TypeSpecRow = read_row(self.tables, n + 1);
        let signature = blob(self.tables, row.signature);
        let bytes = spec_bytes(alloc, self.choice, self.tables, signature)?;
        let mut columns = Vec::with_capacity(alloc, 1)?;
        columns.push(Column::Signature(bytes))?;
        Ok(PartRow {
            columns: Items::from_vec(columns),
        })
    }
}

/// For each kept reference to an assembly (ECMA-335 II.22.5) its name and its version.
pub fn assembly_parts(
    alloc: Global,
    choice: &FileChoice<'_>,
    tables: &Tables<'_>,
) -> Result<Items<PartRow>, NoMemory>
    ensures { IfOk result (λ parts. parts ≡ assembly_rows (masks_of choice.now) tables.now) }
{
    let rows = Assemblies { tables };
    let count = tables.rows(ASSEMBLY_REF);
    kept_parts(alloc, choice, Table::AssemblyRef, &rows, count)
}

/// For each kept reference to a type (ECMA-335 II.22.38) its scope, namespace and name.
pub fn reference_parts(
    alloc: Global,
    choice: &FileChoice<'_>,
    tables: &Tables<'_>,
) -> Result<Items<PartRow>, NoMemory>
    ensures { IfOk result (λ parts. parts ≡ reference_rows (masks_of choice.now) tables.now) }
{
    let rows = References { choice, tables };
    let count = tables.rows(TYPE_REF);
    kept_parts(alloc, choice, Table::TypeRef, &rows, count)
}

/// For each kept specification (ECMA-335 II.22.39) the type that it says.
pub fn spec_parts(
    alloc: Global,
    choice: &FileChoice<'_>,
    tables: &Tables<'_>,
) -> Result<Items<PartRow>, NoMemory>
    ensures { IfOk result (λ parts. parts ≡ spec_rows (masks_of choice.now) tables.now) }
{
    let rows = Specifications { choice, tables };
    let count = tables.rows(TYPE_SPEC);
    kept_parts(alloc, choice, Table::TypeSpec, &rows, count)
}
