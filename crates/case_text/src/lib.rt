//! Cases of tests that are written as text: a case a line, in columns with a mark between them.
//!
//! A proof pays for each part of an array or a tuple, and for a text once. So tests keep their cases in texts.
#![tactic(auto)]

ghost use Rattle.std.specs.Prelude.{◌<◌, ◌^◌, length, IfOk};

use std::alloc::{AllocError, AllocFailed, Global};

/// Why a text tells no case.
#[derive(Clone, Copy, Debug, PartialEq, Eq)]
pub enum CaseFault {
    NoMemory,
    /// A column was to be a number that the asked type has.
    NoNumber,
    /// A column was to be hex digits, two a byte, of fewer than 2 ^ 32 bytes.
    NoBytes,
}

impl From<AllocError> for CaseFault {
    fn from(_error: AllocError) -> CaseFault {
        CaseFault::NoMemory
    }
}

impl<T: Drop> From<AllocFailed<T>> for CaseFault {
    fn from(_error: AllocFailed<T>) -> CaseFault {
        CaseFault::NoMemory
    }
}

/// A line of text in columns, counted from 0.
#[derive(Drop)]
pub struct Line<'a> {
    columns: Vec<&'a str>,
}

impl<'a> Line<'a> {
    /// The columns of a text with a mark between them, without the blanks round them.
    pub fn of(alloc: Global, text: &'a str, mark: char) -> Result<Self, CaseFault> {
        let mut columns = Vec::new(alloc);
        for column in text.split(mark) {
            columns.push(column.trim())?;
        }
        Ok(Line { columns })
    }

    /// A column; empty where the line has none there.
    pub fn text(&self, column: usize) -> &'a str {
        match self.columns.as_slice().get(column) {
            Some(text) => *text,
            None => "",
        }
    }

    /// A column that isn't `-`.
    pub fn option(&self, column: usize) -> Option<&'a str> {
        let text = self.text(column);
        if text == "-" { None } else { Some(text) }
    }

    /// Whether a column is `yes`.
    pub fn is_yes(&self, column: usize) -> bool {
        self.text(column) == "yes"
    }

    /// The number of a column in hex digits; 0 where the column is empty.
    pub fn hex(&self, column: usize) -> Result<u32, CaseFault> {
        hex_of(self.text(column))
    }

    /// The same of a number below 256.
    pub fn byte(&self, column: usize) -> Result<u8, CaseFault> {
        u8::from_str_radix(self.text(column), 16)
            .ok()
            .ok_or(CaseFault::NoNumber)
    }

    /// The number of a column in decimal digits.
    pub fn number(&self, column: usize) -> Result<u32, CaseFault> {
        number_of(self.text(column))
    }

    /// The number of a column in decimal digits, with a sign or none.
    pub fn signed(&self, column: usize) -> Result<i64, CaseFault> {
        self.text(column)
            .parse::<i64>()
            .ok()
            .ok_or(CaseFault::NoNumber)
    }

    /// The bytes of a column in hex digits.
    pub fn bytes(&self, alloc: Global, column: usize) -> Result<Vec<u8>, CaseFault>
        ensures { IfOk result (λ bytes. length bytes.items < 2 ^ 32) }
    {
        bytes_of(alloc, self.text(column))
    }
}

/// The lines of a text that aren't blank, each in its columns.
pub fn lines_of<'a>(alloc: Global, text: &'a str, mark: char) -> Result<Vec<Line<'a>>, CaseFault> {
    let mut lines = Vec::new(alloc);
    for line in text.lines() {
        if line.trim() != "" {
            lines.push(Line::of(alloc, line, mark)?)?;
        }
    }
    Ok(lines)
}

/// The number that hex digits tell; 0 where there are none.
pub fn hex_of(text: &str) -> Result<u32, CaseFault> {
    if text == "" {
        return Ok(0);
    }
    u32::from_str_radix(text, 16)
        .ok()
        .ok_or(CaseFault::NoNumber)
}

/// The number that decimal digits tell.
pub fn number_of(text: &str) -> Result<u32, CaseFault> {
    text.parse::<u32>().ok().ok_or(CaseFault::NoNumber)
}

/// The bytes that hex digits tell, whatever blanks and ends of lines stand between them; fewer than 2 ^ 32, as the readers of files ask.
pub fn bytes_of(alloc: Global, text: &str) -> Result<Vec<u8>, CaseFault>
    ensures { IfOk result (λ bytes. length bytes.items < 2 ^ 32) }
{
    let mut digits: Vec<u8> = Vec::new(alloc);
    for byte in text.bytes() {
        if !byte.is_ascii_whitespace() {
            digits.push(byte)?;
        }
    }
    let bytes = hex::decode(alloc, digits.as_slice())
        .ok()
        .ok_or(CaseFault::NoBytes)?;
    if bytes.len() >= 0x1_0000_0000 {
        return Err(CaseFault::NoBytes);
    }
    Ok(bytes)
}
