//! Columns of an image's rows.

ghost use Rattle.std.specs.Prelude.{◌≡◌, ◌++◌, IfOk, OnOk, map};
ghost use Rattle.world_rows.specs.Tokens.{text_at, bytes_at, scope_of};
ghost use Rattle.assemblies.specs.Chosen.{scope_to};
ghost use Rattle.image_form.specs.Form.{scope_word};
ghost use Rattle.kept_marks.specs.Masks.{choice_of_rows, masks_of};
ghost use Rattle.msspot_write.specs.declared.parts.Column.TheVariants as column;
ghost use Rattle.msspot_write.specs.Spelt.{numbers};
ghost use Rattle.converted.specs.Images.{column_cut};
ghost use Rattle.converted.specs.Cut.{two_bytes};

use cil_tables::Tables;
use file_tables::numbers::{ASSEMBLY_REF, TYPE_REF};
use file_tables::schema::Coded;
use image_signatures::two_bytes;
use kept_marks::FileChoice;
use msspot_write::Column;
use plain_types::fault::NoMemory;
use plain_types::list::Items;
use row_numbers::Table;
use std::alloc::Global;
use type_names::{from_zero, split, text};

/// Where the numbers of references begin.
const REFERENCES: u64 = 0x4000;

/// The number of a scope that names nothing.
const NOWHERE: u64 = 0xFFFF;

/// A number.
pub fn number(number: u64) -> Column
    ensures { result ≡ column.Number (two_bytes number) }
{
    Column::Number(two_bytes(number))
}

/// Adds numbers.
pub fn push_numbers(columns: &mut Vec<Column>, these: &[u64]) -> Result<(), NoMemory>
    ensures { OnOk result (columns.new.items ≡ columns.old.items ++ map column_cut (numbers these.now)) }
{
    for of in these {
        columns.push(number(*of))?;
    }
    Ok(())
}

/// A name.
pub fn text_name(alloc: Global, text: &str) -> Result<Column, NoMemory>
    ensures { IfOk result (λ c. c ≡ column.Name text.now) }
{
    let bytes = Vec::from_slice(alloc, text.as_bytes())?;
    Ok(Column::Name(Items::from_vec(bytes)))
}

/// The name at an offset of `#Strings`, or none.
pub fn name(alloc: Global, tables: &Tables<'_>, at: u32) -> Result<Column, NoMemory>
    ensures { IfOk result (λ c. c ≡ column.Name (text_at tables.now at)) }
{
    text_name(alloc, text(tables, at))
}

/// The blob at an offset of `#Blob`, or none.
pub fn blob<'a>(tables: &Tables<'a>, at: u32) -> &'a [u8]
    ensures { result.now ≡ bytes_at tables.now at }
{
    tables.blob(at).unwrap_or(&[])
}

/// The number of the scope of a reference to a type (ECMA-335 II.22.38): the row of an assembly, or behind 0x4000 that of the reference to the
/// type around it, each among the kept ones.
pub fn scope_word(choice: &FileChoice<'_>, tables: &Tables<'_>, scope: u32) -> u64
    ensures { result ≡ scope_word (scope_to (choice_of_rows (masks_of choice.now)) (scope_of tables.now scope)) }
{
    let token = split(Coded::ResolutionScope, scope);
    if token.table == ASSEMBLY_REF {
        let row = from_zero(tables.rows(ASSEMBLY_REF), token.row);
        u64::from(choice.below(Table::AssemblyRef, u64::from(row)))
    } else if token.table == TYPE_REF {
        let row = from_zero(tables.rows(TYPE_REF), token.row);
        REFERENCES + u64::from(choice.below(Table::TypeRef, u64::from(row)))
    } else {
        NOWHERE
    }
}
