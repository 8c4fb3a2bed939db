//! The rows that are kept.

ghost use Rattle.std.specs.Prelude.{◌≡◌, ◌+◌, ◌<◌, ◌≤◌, ◌^◌, IfOk, List, length};
ghost use Rattle.assemblies.specs.Rows.{Assembly};
ghost use Rattle.row_closure.specs.Closure.{holds};
ghost use Rattle.row_numbers.specs.Tables.{AreCounts};
ghost use Rattle.kept_marks.specs.Ranks.{rank};
ghost use Rattle.kept_rows.specs.Select.{below};
ghost use Rattle.kept_marks.specs.Kept.{kept_row, kept_count, marked};

use crate::ranks::ranks;
use plain_types::fault::NoMemory;
use row_numbers::{RowNumbers, Table};
use std::alloc::Global;
use std::marker::Model;

/// Which rows of a set of assemblies are kept. Contracts see how many rows the tables have, and a mark for each row.
#[derive(Debug, Drop)]
pub struct Kept {
    numbers: RowNumbers,
    marks: Vec<bool>,
    ranks: Vec<u32>,
}

impl Model for Kept {
    ghost use Rattle.kept_marks.specs.Kept.{Marked};
    ghost use Rattle.kept_marks.specs.Ranks.{AreRanks};

    ghost Value = { Marked };

    ghost view = { λ k. record { counts = k.numbers; marks = k.marks.items } };

    ghost invariant = { λ k. AreRanks k.marks.items k.ranks.items };
}

impl Kept {
    /// Those rows that are marked, by their numbers among all.
    pub fn new(alloc: Global, numbers: RowNumbers, marks: Vec<bool>) -> Result<Kept, NoMemory>
        requires { length marks.items < 2 ^ 32 }
        ensures { IfOk result (λ kept. kept ≡ record { counts = numbers; marks = marks.items }) }
    {
        let ranks = ranks(alloc, &marks)?;
        Ok(Kept {
            numbers,
            marks,
            ranks,
        })
    }

    /// How many rows are kept from a number up to another one.
    fn between(&self, first: usize, end: usize) -> u32
        requires { first ≤ end }
        ensures { rank self.now.marks first + result ≡ rank self.now.marks end }
    {
        let start = first.min(self.marks.len());
        let end = end.min(self.marks.len());
        self.ranks[end] - self.ranks[start]
    }

    /// The row of a number is kept.
    fn holds(&self, number: usize) -> bool
        ensures { result ≡ holds self.now.marks number }
    {
        number < self.marks.len() && self.marks[number]
    }

    /// The number from 0 that a row has among those kept of its table, by its own number from 0; `None` exactly where it isn't
    /// kept or isn't there.
    pub fn row(&self, file: u16, table: Table, row: u32) -> Option<u32>
        ensures { (ps : List Assembly) → AreCounts ps self.now.counts → result ≡ kept_row ps self.now.marks table file row }
    {
        let first = self.numbers.first(file, table)?;
        if row >= self.numbers.count(file, table) {
            return None;
        }
        let number = first as usize + row as usize;
        if self.holds(number) {
            Some(self.between(first as usize, number))
        } else {
            None
        }
    }

    /// How many rows of a table are kept.
    pub fn count(&self, file: u16, table: Table) -> u32
        ensures { (ps : List Assembly) → AreCounts ps self.now.counts → result ≡ kept_count ps self.now.marks table file }
    {
        let Some(first) = self.numbers.first(file, table) else {
            return 0;
        };
        let end = first as usize + self.numbers.count(file, table) as usize;
        self.between(first as usize, end)
    }

    /// The row of a table is there and is kept.
    pub fn keeps(&self, file: u16, table: Table, row: u32) -> bool
        ensures { result ≡ marked self.now table file row }
    {
        let range = self.numbers.range(file, table);
        if row < range.count {
            self.holds(range.first as usize + row as usize)
        } else {
            false
        }
    }

    /// How many of the rows of a table that stand before a row are kept: the number of that row among the kept ones, if it is
    /// one of them.
    pub fn below(&self, file: u16, table: Table, row: u64) -> u32
        ensures { result ≡ below (marked self.now table file) row }
    {
        let range = self.numbers.range(file, table);
        let first = range.first as usize;
        let few = row.min(u64::from(range.count)) as usize;
        self.between(first, first + few)
    }
}
