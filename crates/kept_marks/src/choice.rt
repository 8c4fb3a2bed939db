//! The kept rows of one file.

ghost use Rattle.std.specs.Prelude.{◌≡◌};
ghost use Rattle.kept_rows.specs.Select.{below};
ghost use Rattle.kept_marks.specs.Masks.{masks_of};

use crate::kept::Kept;
use row_numbers::Table;
use std::marker::Model;

/// Which rows of one file are kept. Contracts see the file's number and the rows of all files that are kept.
#[derive(Debug, Drop)]
pub struct FileChoice<'k> {
    kept: &'k Kept,
    file: u16,
}

impl<'k> Model for FileChoice<'k> {
    ghost use Rattle.kept_marks.specs.Masks.{InFile};

    ghost Value = { InFile };

    ghost view = { λ c. record { kept = c.kept.now; file = c.file } };
}

impl<'k> FileChoice<'k> {
    /// The rows of a file among those that are kept.
    pub fn new(kept: &'k Kept, file: u16) -> FileChoice<'k>
        ensures { result ≡ record { kept = kept.now; file = file } }
    {
        FileChoice { kept, file }
    }

    /// The row of a table is there and is kept.
    pub fn keeps(&self, table: Table, row: u32) -> bool
        ensures { result ≡ masks_of self.now table row }
    {
        self.kept.keeps(self.file, table, row)
    }

    /// The number from 0 of a row among the kept rows of its table, if it is one of them; else of the next one that is kept.
    pub fn below(&self, table: Table, row: u64) -> u32
        ensures { result ≡ below (masks_of self.now table) row }
    {
        self.kept.below(self.file, table, row)
    }
}
