//! Tokens of code (ECMA-335 III.1.9).

ghost use Rattle.std.specs.Prelude.{◌≡◌, IfOk};
ghost use Rattle.kept_rows.specs.Select.{below};
ghost use Rattle.file_tables.specs.Metadata.{row_count};
ghost use Rattle.world_rows.specs.Tokens.{fields, methods, from_zero, type_token};
ghost use Rattle.row_numbers.specs.declared.table.Table.TheVariants as table;
ghost use Rattle.kept_marks.specs.Masks.{masks_of};
ghost use Rattle.converted.specs.Cut.{two_bytes};
ghost use Rattle.image_numbers.specs.Numbers.{literal_number, reference_at, field_number, method_number, type_number, number_in, token_number};

use crate::members::reference_numbers;
use cil_tables::Tables;
use code_shrink::Renumber;
use file_tables::numbers::{FIELD, MEMBER_REF, METHOD_DEF};
use image_signatures::{two_bytes, type_word};
use kept_marks::FileChoice;
use msspot_write::Pools;
use plain_types::fault::NoMemory;
use row_numbers::Table;
use std::alloc::Global;
use std::marker::Model;
use type_names::{Token, from_zero, split_token};

/// The table of a token of a user string (ECMA-335 III.1.9).
const USER_STRING: u8 = 0x70;

/// What the tokens of a file's code are in the image of the file's kept rows. Contracts see the kept rows, the metadata of the file
/// and the entries of the image's strings.
#[derive(Drop)]
pub struct FileNumbers<'k, 't, 'a> {
    choice: &'t FileChoice<'k>,
    tables: &'t Tables<'a>,
    pools: &'t Pools,
    references: Vec<u16>,
}

impl<'k, 't, 'a> Model for FileNumbers<'k, 't, 'a> {
    ghost use Rattle.std.specs.Prelude.{◌≡◌};
    ghost use Rattle.kept_marks.specs.Masks.{masks_of};
    ghost use Rattle.converted.specs.Cut.{two_bytes};
    ghost use Rattle.image_numbers.specs.Numbers.{InImage, reference_numbers};

    ghost Value = { InImage };

    ghost view = { λ n. record { kept = n.choice.now; metadata = n.tables.now; strings = n.pools.now.strings } };

    ghost invariant = { λ n. n.references.items ≡ reference_numbers two_bytes (masks_of n.choice.now) n.tables.now };
}

impl<'k, 't, 'a> FileNumbers<'k, 't, 'a> {
    /// The numbers of a file's tokens, where its literals lie in these pools.
    pub fn new(
        alloc: Global,
        choice: &'t FileChoice<'k>,
        tables: &'t Tables<'a>,
        pools: &'t Pools,
    ) -> Result<FileNumbers<'k, 't, 'a>, NoMemory>
        ensures { IfOk result (λ numbers. numbers ≡ record { kept = choice.now; metadata = tables.now; strings = pools.now.strings }) }
    {
        let references = reference_numbers(alloc, choice, tables)?;
        Ok(FileNumbers {
            choice,
            tables,
            pools,
            references,
        })
    }

    /// The offset of a literal of `#US`; 0 where there is no literal, or the pools haven't it.
    fn literal(&self, at: u32) -> u16
        ensures { result ≡ literal_number two_bytes (masks_of self.now.kept) self.now.metadata self.now.strings at }
    {
        let Some(units) = self.tables.user_string(at) else {
            return 0;
        };
        match self.pools.literal(units) {
            Some(offset) => two_bytes(u64::from(offset)),
            None => 0,
        }
    }

    /// The number of a row of MemberRef, which counts from 1; 0 where there is none.
    fn reference(&self, row: u32) -> u16
        ensures { result ≡ reference_at two_bytes (masks_of self.now.kept) self.now.metadata row }
    {
        if row == 0 {
            return 0;
        }
        match self.references.get((row - 1) as usize) {
            Some(number) => *number,
            None => 0,
        }
    }

    /// The number of a field of the file.
    fn field(&self, row: u32) -> u16
        ensures { result ≡ field_number two_bytes (masks_of self.now.kept) self.now.metadata row }
    {
        let row = from_zero(self.tables.rows(FIELD), row);
        two_bytes(u64::from(self.choice.below(Table::Field, u64::from(row))))
    }

    /// The number of a method of the file.
    fn method(&self, row: u32) -> u16
        ensures { result ≡ method_number two_bytes (masks_of self.now.kept) self.now.metadata row }
    {
        let row = from_zero(self.tables.rows(METHOD_DEF), row);
        two_bytes(u64::from(self.choice.below(Table::MethodDef, u64::from(row))))
    }

    /// The number of a type.
    fn class(&self, token: Token) -> u16
        ensures { result ≡ type_number two_bytes (masks_of self.now.kept) self.now.metadata token.table token.row }
    {
        two_bytes(type_word(self.choice, self.tables, token))
    }

    /// The number of a row of a table.
    fn number(&self, token: Token) -> u16
        ensures { result ≡ number_in two_bytes (masks_of self.now.kept) self.now.metadata self.now.strings token.table token.row }
    {
        match token.table {
            USER_STRING => self.literal(token.row),
            MEMBER_REF => self.reference(token.row),
            FIELD => self.field(token.row),
            METHOD_DEF => self.method(token.row),
            _ => self.class(token),
        }
    }
}

impl<'k, 't, 'a> Renumber for FileNumbers<'k, 't, 'a> {
    ghost numbered = { token_number };

    fn token(&self, token: u32) -> u16 {
        self.number(split_token(token))
    }
}
