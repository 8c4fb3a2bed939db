//! Gathering the pools of parts, by table, row and column.

ghost use Rattle.std.specs.Prelude.{◌≡◌, [], ◌∷◌, OnOk, map};
ghost use Rattle.msspot_write.specs.declared.parts.PartLiteral.{PartLiteral};
ghost use Rattle.msspot_write.specs.Parts.{in_row, in_rows, in_tables, names, signatures, data_bytes, literal_of, tables};
ghost use Rattle.msspot_write.specs.Gathers.{IsSound, Grows};

use crate::entries::{Kind, Pool};
use crate::parts::{Column, PartLiteral, PartRow, Parts, TABLES};
use plain_types::fault::NoMemory;
use std::alloc::Global;

/// The pools so far.
#[derive(Drop)]
pub struct Gathered {
    pub strings: Pool,
    pub signatures: Pool,
    pub data_pool: Vec<u8>,
}

impl Gathered {
    /// Takes up what a column holds.
    fn add_column(&mut self, alloc: Global, column: &Column) -> Result<(), NoMemory>
        requires { IsSound self.old }
        ensures { OnOk result (Grows self.old self.new (names column.now) (signatures column.now) (data_bytes column.now)) }
    {
        match column {
            Column::Number(_) | Column::Code => Ok(()),
            Column::Name(text) => self.strings.add(alloc, Kind::Name, text.as_slice()),
            Column::Signature(bytes) => {
                self.signatures
                    .add(alloc, Kind::Signature, bytes.as_slice())
            }
            Column::Data(bytes) => {
                self.data_pool.extend_from_slice(bytes.as_slice())?;
                Ok(())
            }
        }
    }

    /// Takes up what a row holds.
    fn add_row(&mut self, alloc: Global, row: &PartRow) -> Result<(), NoMemory>
        requires { IsSound self.old }
        ensures { OnOk result (Grows self.old self.new (in_row names row.now) (in_row signatures row.now) (in_row data_bytes row.now)) }
    {
        for column in row.columns.as_slice() {
            self.add_column(alloc, column)?;
        }
        Ok(())
    }

    /// Takes up what the rows of a table hold.
    fn add_rows(&mut self, alloc: Global, rows: &[PartRow]) -> Result<(), NoMemory>
        requires { IsSound self.old }
        ensures { OnOk result (Grows self.old self.new (in_rows names rows.now) (in_rows signatures rows.now) (in_rows data_bytes rows.now)) }
    {
        for row in rows {
            self.add_row(alloc, row)?;
        }
        Ok(())
    }

    /// Takes up what the tables hold.
    pub fn add_tables(&mut self, alloc: Global, parts: &Parts) -> Result<(), NoMemory>
        requires { IsSound self.old }
        ensures { OnOk result (Grows self.old self.new (in_tables names parts.now tables) (in_tables signatures parts.now tables) (in_tables data_bytes parts.now tables)) }
    {
        for table in &TABLES {
            self.add_rows(alloc, parts.rows(*table))?;
        }
        Ok(())
    }

    /// Takes up the literals.
    pub fn add_literals(&mut self, alloc: Global, literals: &[PartLiteral]) -> Result<(), NoMemory>
        requires { IsSound self.old }
        ensures { OnOk result (Grows self.old self.new (map (λ (l : PartLiteral). literal_of l.text) literals.now) [] []) }
    {
        for literal in literals {
            self.strings
                .add(alloc, Kind::Literal, literal.text.as_slice())?;
        }
        Ok(())
    }
}
