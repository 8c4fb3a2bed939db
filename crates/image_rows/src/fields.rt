//! Fields and their data (ECMA-335 II.22.15, II.22.18).

ghost use Rattle.std.specs.Prelude.{◌≡◌, ◌++◌, IfOk, OnOk, length, slice_get};
ghost use Rattle.std.specs.Option.{option_map_or};
ghost use Rattle.file_tables.specs.Metadata.{row_count};
ghost use Rattle.msspot_write.specs.Spelt.{field_numbers};
ghost use Rattle.world_rows.specs.Tokens.{fields, bytes_at};
ghost use Rattle.class_table.specs.Seen.{field_kind_seen};
ghost use Rattle.kept_marks.specs.Masks.{masks_of};
ghost use Rattle.image_rows.specs.Fields.{field_with, field_made, fields_at, datas_of, datas_at, data_made, data_count, field_rows, data_rows};

use crate::columns::{blob, number, text_name};
use crate::walk::{RangedParts, ranged_parts};
use cil_rows::read_row;
use cil_tables::Tables;
use class_table::{FieldKind, FieldRow};
use file_tables::numbers::FIELD;
use image_signatures::field_bytes;
use kept_marks::FileChoice;
use msspot_write::{Column, PartRow};
use plain_types::fault::NoMemory;
use plain_types::list::Items;
use row_numbers::Table;
use std::alloc::Global;

/// The flags of a field and the row of its data, or 0xFFFF where it has none. A field with data has the next row of them.
fn field_numbers(kind: &FieldKind<'_>, next: u64) -> [u64; 2]
    ensures { result ≡ field_numbers next (field_kind_seen kind.now) }
{
    match kind {
        FieldKind::Instance => [0, 0xFFFF],
        FieldKind::Static | FieldKind::Literal => [1, 0xFFFF],
        FieldKind::Data(_) => [1, next],
    }
}

/// How many rows of data a field has.
fn data_count(kind: &FieldKind<'_>) -> u64
    ensures { result ≡ data_count kind.now }
{
    match kind {
        FieldKind::Data(_) => 1,
        FieldKind::Instance | FieldKind::Static | FieldKind::Literal => 0,
    }
}

/// What a field is in the image, with the next row of data.
fn field_part(
    alloc: Global,
    choice: &FileChoice<'_>,
    tables: &Tables<'_>,
    row: &FieldRow<'_>,
    signature: u32,
    next: u64,
) -> Result<PartRow, NoMemory>
    ensures { IfOk result (λ p. p ≡ field_made (masks_of choice.now) next (field_with tables.now row.now (bytes_at tables.now signature))) }
{
    let bytes = field_bytes(alloc, choice, tables, blob(tables, signature))?;
    let [flags, at] = field_numbers(&row.kind, next);
    let mut columns = Vec::with_capacity(alloc, 4)?;
    columns.push(text_name(alloc, row.name)?)?;
    columns.push(Column::Signature(bytes))?;
    columns.push(number(flags))?;
    columns.push(number(at))?;
    Ok(PartRow {
        columns: Items::from_vec(columns),
    })
}

/// The fields of a file.
#[derive(Drop)]
struct Fields<'k, 't, 'a> {
    choice: &'t FileChoice<'k>,
    tables: &'t Tables<'a>,
    rows: &'t [FieldRow<'a>],
}

impl<'k, 't, 'a> RangedParts for Fields<'k, 't, 'a> {
    ghost rows = { λ f. row_count f.tables.now fields };

    ghost parts = { λ f. fields_at (masks_of f.choice.now) f.tables.now f.rows.now };

    ghost range = { λ f n. option_map_or (λ x. data_count x.kind) (slice_get f.rows.now n) 0 };

    fn push(
        &self,
        alloc: Global,
        out: &mut Vec<PartRow>,
        n: u32,
        first: u64,
    ) -> Result<u64, NoMemory> {
        let Some(row) = self.rows.get(n as usize) else {
            return Ok(0);
        };
        let _few = self.tables.rows(FIELD);
        let columns: cil_rows::FieldRow = read_row(self.tables, n + 1);
        out.push(field_part(
            alloc,
            self.choice,
            self.tables,
            row,
            columns.signature,
            first,
        )?)?;
        Ok(data_count(&row.kind))
    }
}

/// The data of the fields of a file.
#[derive(Drop)]
struct Datas<'t, 'a> {
    tables: &'t Tables<'a>,
    rows: &'t [FieldRow<'a>],
}

/// Bytes, as a row of the data.
fn data_part(alloc: Global, bytes: &[u8]) -> Result<PartRow, NoMemory>
    ensures { IfOk result (λ p. p ≡ data_made bytes.now) }
{
    let bytes = Vec::from_slice(alloc, bytes)?;
    let mut columns = Vec::with_capacity(alloc, 1)?;
    columns.push(Column::Data(Items::from_vec(bytes)))?;
    Ok(PartRow {
        columns: Items::from_vec(columns),
    })
}

/// Adds the data of a field, if it has any.
fn push_data(alloc: Global, out: &mut Vec<PartRow>, kind: &FieldKind<'_>) -> Result<(), NoMemory>
    ensures { OnOk result (out.new.items ≡ out.old.items ++ datas_of kind.now) }
{
    match kind {
        FieldKind::Data(bytes) => {
            out.push(data_part(alloc, bytes.unwrap_or(&[]))?)?;
            Ok(())
        }
        FieldKind::Instance | FieldKind::Static | FieldKind::Literal => Ok(()),
    }
}

impl<'t, 'a> RangedParts for Datas<'t, 'a> {
    ghost rows = { λ f. row_count f.tables.now fields };

    ghost parts = { λ f first n. datas_at f.rows.now n };

    ghost range = { λ f n. 0 };

    fn push(
        &self,
        alloc: Global,
        out: &mut Vec<PartRow>,
        n: u32,
        _first: u64,
    ) -> Result<u64, NoMemory> {
        let Some(row) = self.rows.get(n as usize) else {
            return Ok(0);
        };
        push_data(alloc, out, &row.kind)?;
        Ok(0)
    }
}

/// For each kept field (ECMA-335 II.22.15) its name, signature and flags, and the row of its data, which lie in the order of the
/// fields. The rows of the table of classes have to be those of the file.
pub fn field_parts(
    alloc: Global,
    choice: &FileChoice<'_>,
    tables: &Tables<'_>,
    rows: &[FieldRow<'_>],
) -> Result<Items<PartRow>, NoMemory>
    requires { length rows.now ≡ row_count tables.now fields }
    ensures { IfOk result (λ parts. parts ≡ field_rows (masks_of choice.now) tables.now rows.now) }
{
    let of = Fields {
        choice,
        tables,
        rows,
    };
    let count = tables.rows(FIELD);
    ranged_parts(alloc, choice, Table::Field, &of, count)
}

/// For each kept field that has data (ECMA-335 II.22.18) its bytes.
pub fn data_parts(
    alloc: Global,
    choice: &FileChoice<'_>,
    tables: &Tables<'_>,
    rows: &[FieldRow<'_>],
) -> Result<Items<PartRow>, NoMemory>
    requires { length rows.now ≡ row_count tables.now fields }
    ensures { IfOk result (λ parts. parts ≡ data_rows (masks_of choice.now) tables.now rows.now) }
{
    let of = Datas { tables, rows };
    let count = tables.rows(FIELD);
    ranged_parts(alloc, choice, Table::Field, &of, count)
}
