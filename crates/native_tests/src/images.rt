//! What the images of all cases tell: names of types, and bytes of data fields.

use board_types::board::{BoardType, ClauseAt, TypeAt};
use board_types::subclass::Subclass;
use case_text::bytes_of;
use std::alloc::Global;
use std::test::Fail;

/// The full names of the types of rows 0 on: two classes, a class in one, two enums, a class without a name.
const NAMES: &str = "Ns.Name Ns.Six Ns.Outer+Inner Ns.Colour Ns.Size ";

/// The name that each type without a row has.
const PLAIN: &str = "Plain";

/// The bytes of data fields, of rows 0 on: 8 bytes, 7, one, and none.
const FIELDS: &str = "01 02 FF FF FE FF FF 80, 01 02 FF FF FE FF FF, 80, ";

/// Names by the rows of types, the name of those without a row, and the bytes of fields by their rows.
#[derive(Drop)]
pub struct Images {
    pub names: Vec<Vec<u16>>,
    pub plain: Vec<u16>,
    pub fields: Vec<Vec<u8>>,
}

impl Subclass for Images {
    ghost use Rattle.std.specs.Prelude.{nat_le, [], slice_get, unwrap_or};
    ghost use Rattle.std.specs.Option.{option_map};

    ghost sub = { λ m a b. nat_le b.row a.row };

    ghost clauses = { λ m of. [] };

    ghost name = { λ m of. unwrap_or (option_map (λ v. v.items) (slice_get m.names.items of.of.row)) m.plain.items };

    ghost bytes = { λ m field. unwrap_or (option_map (λ v. v.items) (slice_get m.fields.items field.row)) [] };

    fn is_sub(&self, a: TypeAt, b: TypeAt) -> bool {
        b.row <= a.row
    }

    fn clause(&self, _method: TypeAt, _k: u16) -> Option<ClauseAt> {
        None
    }

    fn name_unit(&self, of: BoardType, k: u32) -> Option<u16> {
        match self.names.get(of.of.row as usize) {
            Some(name) => name.get(k as usize).copied(),
            None => self.plain.get(k as usize).copied(),
        }
    }

    fn data_byte(&self, field: TypeAt, k: u32) -> Option<u8> {
        match self.fields.get(field.row as usize) {
            Some(bytes) => bytes.get(k as usize).copied(),
            None => None,
        }
    }
}

/// The units of a text of ASCII.
pub fn units_of(alloc: Global, text: &str) -> Result<Vec<u16>, Fail> {
    let mut units = Vec::new(alloc);
    for byte in text.bytes() {
        units.push(u16::from(byte))?;
    }
    Ok(units)
}

fn names_of(alloc: Global, text: &str) -> Result<Vec<Vec<u16>>, Fail> {
    let mut names = Vec::new(alloc);
    for name in text.split(' ') {
        names.push(units_of(alloc, name)?)?;
    }
    Ok(names)
}

fn fields_of(alloc: Global, text: &str) -> Result<Vec<Vec<u8>>, Fail> {
    let mut fields = Vec::new(alloc);
    for field in text.split(',') {
        fields.push(bytes_of(alloc, field)?)?;
    }
    Ok(fields)
}

/// The images of all cases.
pub fn all_images(alloc: Global) -> Result<Images, Fail> {
    Ok(Images {
        names: names_of(alloc, NAMES)?,
        plain: units_of(alloc, PLAIN)?,
        fields: fields_of(alloc, FIELDS)?,
    })
}
