//! The interfaces that types name (ECMA-335 II.22.23).

ghost use Rattle.std.specs.Prelude.{◌≡◌, ◌<◌, ◌+◌, ◌∷◌, ◌++◌, [], ℕ, IfOk, OnOk, map, length, take, slice_set, slice_index_or};
ghost use Rattle.file_tables.specs.Metadata.{row_count, rows_of};
ghost use Rattle.world_rows.specs.Tokens.{interface_impls, type_defs};
ghost use Rattle.kept_marks.specs.Masks.{masks_of};
ghost use Rattle.image_rows.specs.Types.{AreColumns, interface_made, interface_rows};

use crate::columns::number;
use crate::walk::{RangedParts, ranged_parts};
use cil_rows::{InterfaceImplRow, read_row};
use cil_tables::Tables;
use file_tables::numbers::{INTERFACE_IMPL, TYPE_DEF};
use file_tables::schema::Coded;
use image_signatures::type_word;
use kept_marks::FileChoice;
use msspot_write::PartRow;
use plain_types::fault::NoMemory;
use plain_types::list::Items;
use row_numbers::Table;
use std::alloc::Global;
use type_names::split;

/// No interfaces for each of so many types.
fn no_columns(alloc: Global, count: u32) -> Result<Vec<Vec<u32>>, NoMemory>
    ensures size { IfOk result (λ lists. length (map (λ list. list.items) lists.items) ≡ count) }
    ensures empty { IfOk result (λ lists. (n : ℕ) → slice_index_or (map (λ list. list.items) lists.items) n [] ≡ []) }
{
    let mut lists = Vec::new(alloc);
    for _n in 0..count {
        lists.push(Vec::new(alloc))?;
    }
    Ok(lists)
}

/// Notes an interface with the type of a row from 0, if there is one.
fn add_column(lists: &mut Vec<Vec<u32>>, n: usize, column: u32) -> Result<(), NoMemory>
    ensures { OnOk result (map (λ list. list.items) lists.new.items ≡ slice_set (map (λ list. list.items) lists.old.items) n (slice_index_or (map (λ list. list.items) lists.old.items) n [] ++ column ∷ [])) }
{
    if n < lists.len() {
        lists[n].push(column)?;
    }
    Ok(())
}

/// Notes what the row of a number says, from 0.
fn read_column(lists: &mut Vec<Vec<u32>>, tables: &Tables<'_>, n: u32) -> Result<(), NoMemory>
    requires row { n < row_count tables.now interface_impls }
    requires so_far { AreColumns (take n (rows_of tables.now interface_impls)) (row_count tables.now type_defs) (map (λ list. list.items) lists.old.items) }
    ensures { OnOk result (AreColumns (take (n + 1) (rows_of tables.now interface_impls)) (row_count tables.now type_defs) (map (λ list. list.items) lists.new.items)) }
{
    let _few = tables.rows(INTERFACE_IMPL);
    let row: InterfaceImplRow = read_row(tables, n + 1);
    if row.class == 0 {
        return Ok(());
    }
    add_column(lists, row.class as usize - 1, row.interface)
}

/// For each type of a file the columns of the interfaces that it names, in the order of their rows.
pub fn interface_columns(alloc: Global, tables: &Tables<'_>) -> Result<Vec<Vec<u32>>, NoMemory>
    ensures { IfOk result (λ lists. AreColumns (rows_of tables.now interface_impls) (row_count tables.now type_defs) (map (λ list. list.items) lists.items)) }
{
    let mut lists = no_columns(alloc, tables.rows(TYPE_DEF))?;
    for n in 0..tables.rows(INTERFACE_IMPL) {
        read_column(&mut lists, tables, n)?;
    }
    Ok(lists)
}

/// Those of the type of a row from 0.
pub fn columns_at(lists: &[Vec<u32>], n: u32) -> &[u32]
    ensures { result.now ≡ slice_index_or (map (λ list. list.items) lists.now) n [] }
{
    match lists.get(n as usize) {
        Some(list) => list.as_slice(),
        None => &[],
    }
}

/// What an interface is in the image, by its column.
fn interface_part(
    alloc: Global,
    choice: &FileChoice<'_>,
    tables: &Tables<'_>,
    column: u32,
) -> Result<PartRow, NoMemory>
    ensures { IfOk result (λ p. p ≡ interface_made (masks_of choice.now) tables.now column) }
{
    let token = split(Coded::TypeDefOrRef, column);
    let mut columns = Vec::with_capacity(alloc, 1)?;
    columns.push(number(type_word(choice, tables, token)))?;
    Ok(PartRow {
        columns: Items::from_vec(columns),
    })
}

/// Adds the interfaces of some columns.
fn push_interfaces(
    alloc: Global,
    out: &mut Vec<PartRow>,
    choice: &FileChoice<'_>,
    tables: &Tables<'_>,
    these: &[u32],
) -> Result<(), NoMemory>
    ensures { OnOk result (out.new.items ≡ out.old.items ++ map (interface_made (masks_of choice.now) tables.now) these.now) }
{
    for column in these {
        out.push(interface_part(alloc, choice, tables, *column)?)?;
    }
    Ok(())
}

/// The interfaces of the types of a file.
#[derive(Drop)]
struct Interfaces<'k, 't, 'a> {
    choice: &'t FileChoice<'k>,
    tables: &'t Tables<'a>,
    columns: &'t [Vec<u32>],
}

impl<'k, 't, 'a> RangedParts for Interfaces<'k, 't, 'a> {
    ghost rows = { λ f. row_count f.tables.now type_defs };

    ghost parts = { λ f first n. map (interface_made (masks_of f.choice.now) f.tables.now) (slice_index_or (map (λ list. list.items) f.columns.now) n []) };

    ghost range = { λ f n. 0 };

    fn push(
        &self,
        alloc: Global,
        out: &mut Vec<PartRow>,
        n: u32,
        _first: u64,
    ) -> Result<u64, NoMemory> {
        let these = columns_at(self.columns, n);
        push_interfaces(alloc, out, self.choice, self.tables, these)?;
        Ok(0)
    }
}

/// For each interface that a kept type names (ECMA-335 II.22.23) its token, in the order of the types, and of the rows that name
/// those of one type.
pub fn interface_parts(
    alloc: Global,
    choice: &FileChoice<'_>,
    tables: &Tables<'_>,
) -> Result<Items<PartRow>, NoMemory>
    ensures { IfOk result (λ parts. parts ≡ interface_rows (masks_of choice.now) tables.now) }
{
    let columns = interface_columns(alloc, tables)?;
    let of = Interfaces {
        choice,
        tables,
        columns: &columns,
    };
    let count = tables.rows(TYPE_DEF);
    ranged_parts(alloc, choice, Table::TypeDef, &of, count)
}
