//! What the table and the file say of a method.

ghost use Rattle.std.specs.Prelude.{◌≡◌, ℕ, ◌+◌, ◌<◌, ◌^◌, ◌&&◌, is_some, List, Some, slice_get};
ghost use Rattle.file_tables.specs.Metadata.{rows_of, row_count};
ghost use Rattle.file_tables.specs.File.{FilePart};
ghost use Rattle.class_table.specs.Seen.{body_seen};
ghost use Rattle.class_table.specs.Whole.{IsTable};
ghost use Rattle.world_rows.specs.Rows.{is_internal};
ghost use Rattle.world_rows.specs.Tokens.{methods};
ghost use Rattle.looked_rows.specs.Looked.{file_with};
ghost use Rattle.verdict_rules.specs.World.{world_of};
ghost use Rattle.verdict_rules.specs.Code.{body_of, is_code};
ghost use Rattle.code_order.specs.Told.{has_code};
ghost use Rattle.member_tests.specs.Rows.{columns_of, def_of};

use cil_code::Body;
use cil_rows::{MethodDefRow, read_row};
use cil_tables::Tables;
use class_table::{Body as MethodBody, ClassTable, MethodRow};
use class_targets::find_method;
use file_tables::bytes::has_bit;
use looked_rows::read_body;
use member_keys::ClassId;
use pe_reader::SectionCursor;

/// A body is code of the file.
#[tactic(auto, using(crate::proofs::RowLaws::native_is_no_code))]
fn is_code(body: MethodBody) -> bool
    ensures { result ≡ is_code (body_seen body) }
{
    match body {
        MethodBody::Code => true,
        MethodBody::Native(_) => false,
        MethodBody::Missing => false,
    }
}

/// The row of a method has a signature, and its body is code.
fn is_coded(row: &MethodRow<'_>) -> bool
    ensures { result ≡ is_some row.now.signature && is_code (body_seen row.now.body) }
{
    row.signature.is_some() && is_code(row.body)
}

/// A method, whether a class has it or not, has a signature, and its body is code.
pub fn has_code(table: &ClassTable<'_>, method: ClassId) -> bool
    ensures { (files : List FilePart) (x : FilePart) → IsTable files table.now → result ≡ has_code (world_of files) method.file x method.row }
{
    match find_method(table, method) {
        Some(row) => is_coded(row),
        None => false,
    }
}

/// The columns of the method of a row, from 0.
fn read_columns(tables: &Tables<'_>, n: u32) -> MethodDefRow
    requires row { n < row_count tables.now methods }
    requires few { n + 1 < 2 ^ 32 }
    ensures { (row : List ℕ) → slice_get (rows_of tables.now methods) n ≡ Some row → result ≡ def_of row }
{
    read_row(tables, n + 1)
}

/// An internal call (ECMA-335 II.23.1.11).
fn is_internal(row: &MethodDefRow) -> bool
    ensures { result ≡ is_internal (columns_of row.now) }
{
    has_bit(u64::from(row.impl_flags), 12)
}

/// The body of the method of a row, from 0 (ECMA-335 II.25.4); `None` exactly where it is an internal call or its body isn't sound.
pub fn method_body<'a>(
    sections: &mut SectionCursor<'a>,
    tables: &Tables<'_>,
    n: u32,
) -> Option<Body<'a>>
    requires row { n < row_count tables.now methods }
    requires few { n + 1 < 2 ^ 32 }
    ensures body { (row : List ℕ) → slice_get (rows_of tables.now methods) n ≡ Some row → result ≡ body_of (file_with sections.old tables.now) row }
    ensures same { sections.new ≡ sections.old }
{
    let row = read_columns(tables, n);
    if is_internal(&row) {
        return None;
    }
    read_body(sections, tables, row.rva)
}
