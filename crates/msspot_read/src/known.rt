//! What is known of an image whose rows are looked at: which offsets of its pools are entries of which form.

ghost use Rattle.std.specs.Prelude.{◌≡◌, ◌+◌, length, is_some, None, [], ◌∷◌, ◌||◌, nat_eq, nat_lt, nat_le, slice_index, if◌then◌else◌, IfNone, IfSome, OnSome};
ghost use Rattle.image_bytes.specs.Layout as layout;
ghost use Rattle.image_form.specs.Form.{name_at, raw_at, signature_at, locals_at, spec_at};
ghost use Rattle.image_form.specs.Whole.{bytes_at, token_in, image_rows};
ghost use Rattle.msspot_read.specs.Held.{held_of, stands, all_stand};
ghost use Rattle.msspot_read.specs.Marked.{HasTexts};

use crate::columns::Column;
use crate::entries::{Form, entries_of};
use crate::marks::Marks;
use crate::parts::{DATA, MOST_COLUMNS, Parts, SIGNATURES, STRINGS, TinyRow};
use crate::tokens::{has_scope, has_type};
use std::marker::Model;

/// The number that is none.
pub const NONE: u16 = 0xFFFF;

/// An image's parts, with the entries of its pools marked by their forms. Contracts see them as the image.
#[derive(Drop)]
pub struct Known<'a, 'b> {
    parts: &'b Parts<'a>,
    names: Marks,
    types: Marks,
    arrays: Marks,
    methods: Marks,
    locals: Marks,
}

impl<'a, 'b> Model for Known<'a, 'b> {
    ghost use Rattle.image_bytes.specs.Layout.{Image};

    ghost Value = { Image };

    ghost use Rattle.msspot_read.specs.InsideKnown.{IsKnown};

    ghost view = { λ k. k.parts.now };

    ghost invariant = { IsKnown };
}

/// A range of rows lies in its table; one without rows is from 0.
pub fn is_range(rows: u16, first: u16, count: u16) -> bool
    ensures { result ≡ layout.is_range rows first count }
{
    if count == 0 {
        first == 0
    } else {
        u32::from(first) + u32::from(count) <= u32::from(rows)
    }
}

/// No type, or one whose row is there.
fn type_or_none(parts: &Parts<'_>, token: u16) -> bool
    ensures { result ≡ (nat_eq token 65535 || is_some (token_in parts.now token)) }
{
    let there = has_type(parts, token);
    token == NONE || there
}

/// No row, or one that is there.
fn row_or_none(parts: &Parts<'_>, table: u8, row: u16) -> bool
    ensures { result ≡ (nat_eq row 65535 || nat_lt row (layout.rows_of parts.now table)) }
{
    let rows = parts.rows(table);
    row == NONE || row < rows
}

/// A column of a row; 0 behind the last one.
fn column(row: &TinyRow, k: usize) -> u16
    ensures { result ≡ slice_index row.now.columns k }
{
    if k < MOST_COLUMNS { row.columns[k] } else { 0 }
}

impl<'a, 'b> Known<'a, 'b> {
    /// The forms of the entries; `None` where a pool doesn't fall into entries, and then no image stands.
    #[tactic(auto, using(crate::proofs::KnownLaws::no_strings, crate::proofs::KnownLaws::no_signatures))]
    pub fn of(parts: &'b Parts<'a>) -> Option<Known<'a, 'b>>
        ensures none { IfNone result (image_rows parts.now ≡ None) }
        ensures same { IfSome result (λ k. k ≡ parts.now) }
        ensures texts { OnSome result (HasTexts parts.now) }
    {
        let Some(names) = entries_of(parts, STRINGS, Form::Name) else {
            return None;
        };
        let Some(types) = entries_of(parts, SIGNATURES, Form::Type) else {
            return None;
        };
        let Some(arrays) = entries_of(parts, SIGNATURES, Form::Array) else {
            return None;
        };
        let Some(methods) = entries_of(parts, SIGNATURES, Form::Method) else {
            return None;
        };
        let Some(locals) = entries_of(parts, SIGNATURES, Form::Locals) else {
            return None;
        };
        Some(Known {
            parts,
            names,
            types,
            arrays,
            methods,
            locals,
        })
    }

    /// The parts of the image.
    pub fn parts(&self) -> &'b Parts<'a>
        ensures { result.now ≡ self.now }
    {
        self.parts
    }

    /// A text in UTF-8 begins there.
    pub fn is_name(&self, at: u16) -> bool
        ensures { result ≡ is_some (name_at (held_of self.now) at) }
    {
        self.names.has(at)
    }

    /// The signature of a field begins there.
    fn is_type(&self, at: u16) -> bool
        ensures { result ≡ is_some (raw_at (held_of self.now) at) }
    {
        self.types.has(at)
    }

    /// The signature of an array begins there.
    fn is_array(&self, at: u16) -> bool
        ensures { result ≡ is_some (spec_at (held_of self.now) (at ∷ [])) }
    {
        self.arrays.has(at)
    }

    /// The signature of a method begins there.
    fn is_method(&self, at: u16) -> bool
        ensures { result ≡ is_some (signature_at (held_of self.now) at) }
    {
        self.methods.has(at)
    }

    /// A signature of locals begins there, or there are none.
    pub fn are_locals(&self, at: u16) -> bool
        ensures { result ≡ is_some (locals_at (held_of self.now) at) }
    {
        if at == NONE {
            return true;
        }
        self.locals.has(at)
    }

    /// Bytes of the pool of data.
    fn has_bytes(&self, at: u16, count: u16) -> bool
        ensures { result ≡ nat_le (at + count) (length (bytes_at self.now 3)) }
    {
        usize::from(at) + usize::from(count) <= self.parts.pool(DATA).len()
    }

    /// Whether a column's number is what it has to be, with the number behind it.
    fn column_stands(&self, column: Column, number: u16, next: u16) -> bool
        ensures { result ≡ stands self.now column number next }
    {
        let parts = self.parts;
        match column {
            Column::Number => true,
            Column::Name => self.is_name(number),
            Column::Type => self.is_type(number),
            Column::Method => self.is_method(number),
            Column::Array => self.is_array(number),
            Column::Scope => has_scope(parts, number),
            Column::Token => has_type(parts, number),
            Column::TokenOrNone => type_or_none(parts, number),
            Column::TypeOrNone => row_or_none(parts, 4, number),
            Column::DataOrNone => row_or_none(parts, 10, number),
            Column::Interfaces => is_range(parts.rows(5), number, next),
            Column::Fields => is_range(parts.rows(6), number, next),
            Column::Methods => is_range(parts.rows(7), number, next),
            Column::Kind => self.is_kind(number, next),
            Column::Bytes => self.has_bytes(number, next),
        }
    }

    /// A finally has no type, and every other clause has one.
    fn is_kind(&self, kind: u16, class: u16) -> bool
        ensures { result ≡ (if nat_eq kind 2 then nat_eq class 65535 else is_some (token_in self.now class)) }
    {
        if kind == 2 {
            class == NONE
        } else {
            has_type(self.parts, class)
        }
    }

    /// Whether each column of a row is what it has to be.
    pub fn columns_stand(&self, columns: &[Column], row: &TinyRow) -> bool
        ensures { result ≡ all_stand self.now columns.now row.now.columns }
    {
        for (k, of) in columns.iter().enumerate() {
            if !self.column_stands(*of, column(row, k), column(row, k + 1)) {
                return false;
            }
        }
        true
    }
}
