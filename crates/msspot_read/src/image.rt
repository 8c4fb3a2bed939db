//! The image of one assembly.

ghost use Rattle.std.specs.Prelude.{◌≡◌, ℕ, ◌<◌, Some, IsSome, length, slice_index};
ghost use Rattle.std.specs.Option.{option_map};
ghost use Rattle.image_bytes.specs.Layout.{widths, rows_of};
ghost use Rattle.image_form.specs.Form.{part};
ghost use Rattle.image_form.specs.Whole.{seen, image_rows};
ghost use Rattle.msspot_read.specs.Rows.{viewed, size_of, row_of, text_in, code_of, code_place, data_of};

use crate::entries::entry_at;
use crate::known::NONE;
use crate::parts::{CODE, DATA, Parts, SIGNATURES, STRINGS, TinyRow};
use crate::rows::stand;
use std::marker::Model;
use thiserror::Error;

/// No image begins there.
#[derive(Clone, Copy, Debug, PartialEq, Eq, Error)]
#[error("no image begins here")]
pub struct NotImage;

/// The image of one assembly, read in place. Contracts see it as its tables and pools. Each row of it is read: each
/// number is in its table, each text and signature in its pool and of its form, and the clauses of each method nest.
#[derive(Debug, Drop)]
pub struct Image<'a> {
    parts: Parts<'a>,
}

impl<'a> Model for Image<'a> {
    ghost use Rattle.image_bytes.specs.Layout as layout;

    ghost Value = { layout.Image };

    ghost use Rattle.msspot_read.specs.Rows.{HasRows};

    ghost view = { λ i. i.parts };

    ghost invariant = { λ i. HasRows i.parts };
}

/// The tables whose rows the calls below name.
const METHOD: u8 = 7;

const DATA_ROW: u8 = 10;

impl<'a> Image<'a> {
    /// The image that begins there, with anything behind it; [`NotImage`] exactly where none does.
    pub fn view(bytes: &'a [u8]) -> Result<Image<'a>, NotImage>
        ensures { viewed result ≡ option_map (λ x. x.0) (seen bytes.now) }
    {
        let Some(parts) = Parts::read(bytes) else {
            return Err(NotImage);
        };
        if !stand(&parts) {
            return Err(NotImage);
        }
        Ok(Image { parts })
    }

    /// What is known of every image: its rows are read. It computes nothing.
    #[inline]
    pub fn has_rows(&self)
        ensures { IsSome (image_rows self.now) }
    {
        let _ = &self.parts;
    }

    /// The bytes of the image, a multiple of four from 56 on.
    #[inline]
    pub fn size(&self) -> u32
        ensures { result ≡ size_of self.now }
    {
        self.parts.size()
    }

    /// The assembly's version: major, minor, build and revision (ECMA-335 II.22.2).
    #[inline]
    pub fn version(&self) -> [u16; 4]
        ensures { result ≡ self.now.version }
    {
        self.parts.version()
    }

    /// Where the assembly's name begins in the pool of strings.
    #[inline]
    pub fn name(&self) -> u16
        ensures { result ≡ self.now.name }
    {
        self.parts.name()
    }

    /// The row of the entry method, or 0xFFFF where there is none.
    #[inline]
    pub fn entry(&self) -> u16
        ensures { result ≡ self.now.entry }
    {
        self.parts.entry()
    }

    /// How many rows a table has; 0 where the number is above 10.
    #[inline]
    pub fn rows(&self, table: u8) -> u16
        ensures { result ≡ rows_of self.now table }
    {
        self.parts.rows(table)
    }

    /// A row of a table by its number, from 0.
    #[inline]
    pub fn row(&self, table: u8, n: u16) -> TinyRow
        requires { n < rows_of self.now table }
        ensures columns { (k : ℕ) → slice_index result.columns k ≡ slice_index (row_of self.now table n) k }
        ensures width { length (row_of self.now table n) ≡ slice_index widths table }
    {
        self.parts.row(table, n)
    }

    /// The text of the entry of the pool of strings that begins there: a name in UTF-8 or the units of a literal.
    #[inline]
    pub fn text(&self, at: u16) -> &'a [u8]
        requires { IsSome (text_in self.now 0 at) }
        ensures { Some result.now ≡ text_in self.now 0 at }
    {
        text_of(&self.parts, STRINGS, at)
    }

    /// The signature that begins there in the pool of signatures.
    #[inline]
    pub fn sig(&self, at: u16) -> &'a [u8]
        requires { IsSome (text_in self.now 1 at) }
        ensures { Some result.now ≡ text_in self.now 1 at }
    {
        text_of(&self.parts, SIGNATURES, at)
    }

    /// The code of a method; empty where it has none.
    #[inline]
    pub fn code(&self, method: u16) -> &'a [u8]
        requires { method < rows_of self.now 7 }
        ensures { result.now ≡ code_of self.now method }
    {
        let row = self.parts.row(METHOD, method);
        range(self.parts.pool(CODE), row.columns[3], row.columns[4])
    }

    /// The place in the image where the code of a method begins; 0 where it has none.
    #[inline]
    pub fn code_at(&self, method: u16) -> u32
        requires { method < rows_of self.now 7 }
        ensures { result ≡ code_place self.now method }
    {
        let row = self.parts.row(METHOD, method);
        if row.columns[2] / 16 % 2 == 1 {
            return 0;
        }
        if row.columns[3] == NONE {
            return 0;
        }
        self.parts.code_start() + u32::from(row.columns[3])
    }

    /// The bytes of a data row.
    #[inline]
    pub fn bytes_of(&self, row: u16) -> &'a [u8]
        requires { row < rows_of self.now 10 }
        ensures { result.now ≡ data_of self.now row }
    {
        let place = self.parts.row(DATA_ROW, row);
        range(self.parts.pool(DATA), place.columns[0], place.columns[1])
    }
}

/// The bytes of a range, as far as they are there.
fn range(pool: &[u8], first: u16, count: u16) -> &[u8]
    ensures { result.now ≡ part first count pool.now }
{
    let start = pool.len().min(usize::from(first));
    let end = pool.len().min(usize::from(first) + usize::from(count));
    &pool[start..end]
}

/// The text of the entry of a pool that begins there.
fn text_of<'a>(parts: &Parts<'a>, pool: u8, at: u16) -> &'a [u8]
    requires pool { pool < 4 }
    requires there { IsSome (text_in parts.now pool at) }
    ensures { Some result.now ≡ text_in parts.now pool at }
{
    let bytes = parts.pool(pool);
    let start = bytes.len().min(usize::from(at));
    match entry_at(bytes, start) {
        Some(text) => text,
        None => unreachable!(),
    }
}
