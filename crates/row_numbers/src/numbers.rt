//! Where the rows of each table begin.

ghost use Rattle.std.specs.Prelude.{◌≡◌, ℕ, ◌+◌, ◌<◌, ◌^◌, IfOk, IfSome, List, Some, length, slice_get};
ghost use Rattle.std.specs.Option.{option_map_or};
ghost use Rattle.assemblies.specs.Rows.{Assembly};
ghost use Rattle.row_numbers.specs.Tables.{AreFirst, AreFirsts, AreCounts, table_length, found_number, first_number, range_by};

use crate::table::{PerTable, Table, TableRange};
use plain_types::fault::NoMemory;
use std::alloc::Global;
use std::marker::Model;

/// The first number of each table, and of what follows.
#[derive(Clone, Copy, Debug)]
struct Firsts {
    tables: PerTable,
    end: u32,
}

/// The first number of each table of an assembly whose rows begin at a number; `None` where numbers run out.
fn first_numbers(start: u32, counts: &PerTable) -> Option<Firsts>
    ensures { IfSome result (AreFirst start counts.now) }
{
    let type_refs = start.checked_add(counts.assembly_refs)?;
    let field_refs = type_refs.checked_add(counts.type_refs)?;
    let method_refs = field_refs.checked_add(counts.field_refs)?;
    let types = method_refs.checked_add(counts.method_refs)?;
    let fields = types.checked_add(counts.types)?;
    let methods = fields.checked_add(counts.fields)?;
    let specs = methods.checked_add(counts.methods)?;
    let end = specs.checked_add(counts.specs)?;
    let tables = PerTable {
        assembly_refs: start,
        type_refs,
        field_refs,
        method_refs,
        types,
        fields,
        methods,
        specs,
    };
    Some(Firsts { tables, end })
}

/// The first number of each table of each assembly. More than 2 ^ 32 - 1 rows have no room.
fn all_firsts(alloc: Global, counts: &[PerTable]) -> Result<Vec<PerTable>, NoMemory>
    ensures { IfOk result (λ tables. AreFirsts counts.now tables.items) }
{
    let mut tables = Vec::new(alloc);
    let mut end = 0;
    for k in 0..counts.len() {
        let Some(first) = first_numbers(end, &counts[k]) else {
            return Err(NoMemory);
        };
        tables.push(first.tables)?;
        end = first.end;
    }
    Ok(tables)
}

/// The rows of assemblies as numbers below 2 ^ 32. Contracts see how many rows each table of each assembly has.
#[derive(Debug, Drop)]
pub struct RowNumbers {
    counts: Vec<PerTable>,
    firsts: Vec<PerTable>,
}

impl Model for RowNumbers {
    ghost use Rattle.std.specs.Prelude.{List};
    ghost use Rattle.row_numbers.specs.declared.table.PerTable.{PerTable};
    ghost use Rattle.row_numbers.specs.Tables.{AreFirsts};

    ghost Value = { List PerTable };

    ghost view = { λ n. n.counts.items };

    ghost invariant = { λ n. AreFirsts n.counts.items n.firsts.items };
}

impl RowNumbers {
    /// The numbers of the rows of assemblies with so many rows in each table.
    pub fn new(alloc: Global, counts: Vec<PerTable>) -> Result<RowNumbers, NoMemory>
        ensures { IfOk result (λ numbers. numbers ≡ counts.items) }
    {
        let firsts = all_firsts(alloc, &counts)?;
        Ok(RowNumbers { counts, firsts })
    }

    /// The number of a row, which counts from 0 in its table; `None` exactly where the assembly has no such row.
    pub fn number(&self, file: u16, table: Table, row: u32) -> Option<u32>
        ensures { (ps : List Assembly) → AreCounts ps self.now → result ≡ found_number ps table file row }
    {
        let counts = self.counts.get(file as usize)?;
        if row >= counts.of(table) {
            return None;
        }
        let first = self.firsts[file as usize];
        Some(first.of(table) + row)
    }

    /// The number of the first row of a table; `None` exactly where there is no such assembly.
    pub fn first(&self, file: u16, table: Table) -> Option<u32>
        ensures { (ps : List Assembly) → AreCounts ps self.now → result ≡ first_number ps table file }
    {
        let first = self.firsts.get(file as usize)?;
        Some(first.of(table))
    }

    /// How many rows a table has; 0 where there is no such assembly.
    pub fn count(&self, file: u16, table: Table) -> u32
        ensures { (ps : List Assembly) → AreCounts ps self.now → result ≡ option_map_or (λ p. table_length p table) (slice_get ps file) 0 }
    {
        match self.counts.get(file as usize) {
            Some(counts) => counts.of(table),
            None => 0,
        }
    }

    /// Which numbers the rows of a table have: none, from 0, where there is no such assembly.
    pub fn range(&self, file: u16, table: Table) -> TableRange
        ensures range { result ≡ range_by self.now table file }
        ensures fits { result.first + result.count < 2 ^ 32 }
    {
        let Some(counts) = self.counts.get(file as usize) else {
            return TableRange { first: 0, count: 0 };
        };
        TableRange {
            first: self.firsts[file as usize].of(table),
            count: counts.of(table),
        }
    }
}
