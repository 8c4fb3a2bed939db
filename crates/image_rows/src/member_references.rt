//! The references to fields and to methods of a file (ECMA-335 II.22.25).

ghost use Rattle.std.specs.Prelude.{◌≡◌, ◌<◌, IfOk};
ghost use Rattle.file_tables.specs.Metadata.{rows_of, row_count};
ghost use Rattle.world_rows.specs.Tokens.{member_refs, is_field_ref, is_method_ref};
ghost use Rattle.image_rows.specs.Kept.{field_reference_part_of, method_reference_part_of, field_reference_rows, method_reference_rows};
ghost use Rattle.kept_marks.specs.Masks.{masks_of};

use crate::columns::{blob, name, number};
use crate::table::{TableParts, kept_parts};
use cil_rows::{MemberRefRow, read_row};
use cil_tables::Tables;
use file_tables::numbers::MEMBER_REF;
use file_tables::schema::Coded;
use image_signatures::{field_bytes, method_bytes, type_word};
use kept_marks::FileChoice;
use msspot_write::{Column, PartRow};
use plain_types::fault::NoMemory;
use plain_types::list::Items;
use row_counts::is_field_reference;
use row_numbers::Table;
use std::alloc::Global;
use type_names::split;

/// The references to fields of a file.
#[derive(Drop)]
struct Fields<'k, 't, 'a> {
    choice: &'t FileChoice<'k>,
    tables: &'t Tables<'a>,
}

impl<'k, 't, 'a> TableParts for Fields<'k, 't, 'a> {
    ghost rows = { λ r. rows_of r.tables.now member_refs };

    ghost belongs = { λ r. is_field_ref r.tables.now };

    ghost part = { λ r. field_reference_part_of (masks_of r.choice.now) r.tables.now };

    fn belongs(&self, n: u32) -> bool {
        is_field_reference(self.tables, n)
    }

    fn part(&self, alloc: Global, n: u32) -> Result<PartRow, NoMemory> {
        let _few = self.tables.rows(MEMBER_REF);
        let row: MemberRefRow = read_row(self.tables, n + 1);
        let parent = type_word(
            self.choice,
            self.tables,
            split(Coded::MemberRefParent, row.class),
        );
        let signature = blob(self.tables, row.signature);
        let bytes = field_bytes(alloc, self.choice, self.tables, signature)?;
        let mut columns = Vec::with_capacity(alloc, 3)?;
        columns.push(number(parent))?;
        columns.push(name(alloc, self.tables, row.name)?)?;
        columns.push(Column::Signature(bytes))?;
        Ok(PartRow {
            columns: Items::from_vec(columns),
        })
    }
}

/// The references to methods of a file.
#[derive(Drop)]
struct Methods<'k, 't, 'a> {
    choice: &'t FileChoice<'k>,
    tables: &'t Tables<'a>,
}

impl<'k, 't, 'a> TableParts for Methods<'k, 't, 'a> {
    ghost rows = { λ r. rows_of r.tables.now member_refs };

    ghost belongs = { λ r. is_method_ref r.tables.now };

    ghost part = { λ r. method_reference_part_of (masks_of r.choice.now) r.tables.now };

    fn belongs(&self, n: u32) -> bool {
        !is_field_reference(self.tables, n)
    }

    fn part(&self, alloc: Global, n: u32) -> Result<PartRow, NoMemory> {
        let _few = self.tables.rows(MEMBER_REF);
        let row: MemberRefRow = read_row(self.tables, n + 1);
        let parent = type_word(
            self.choice,
            self.tables,
            split(Coded::MemberRefParent, row.class),
        );
        let signature = blob(self.tables, row.signature);
        let bytes = method_bytes(alloc, self.choice, self.tables, signature)?;
        let mut columns = Vec::with_capacity(alloc, 3)?;
        columns.push(number(parent))?;
        columns.push(name(alloc, self.tables, row.name)?)?;
        columns.push(Column::Signature(bytes))?;
        Ok(PartRow {
            columns: Items::from_vec(columns),
        })
    }
}

/// For each kept reference to a field its class, name and signature.
pub fn field_reference_parts(
    alloc: Global,
    choice: &FileChoice<'_>,
    tables: &Tables<'_>,
) -> Result<Items<PartRow>, NoMemory>
    ensures { IfOk result (λ parts. parts ≡ field_reference_rows (masks_of choice.now) tables.now) }
{
    let rows = Fields { choice, tables };
    let count = tables.rows(MEMBER_REF);
    kept_parts(alloc, choice, Table::FieldRef, &rows, count)
}

/// For each kept reference to a method its class, name and signature.
pub fn method_reference_parts(
    alloc: Global,
    choice: &FileChoice<'_>,
    tables: &Tables<'_>,
) -> Result<Items<PartRow>, NoMemory>
    ensures { IfOk result (λ parts. parts ≡ method_reference_rows (masks_of choice.now) tables.now) }
{
    let rows = Methods { choice, tables };
    let count = tables.rows(MEMBER_REF);
    kept_parts(alloc, choice, Table::MethodRef, &rows, count)
}
