//! The rules of the methods of a file that have code (ECMA-335 II.22.26, II.25.4).

ghost use Rattle.std.specs.Prelude.{◌≡◌, None, OnOk, if◌then◌else◌};
ghost use Rattle.file_tables.specs.Bytes.{has_bit};
ghost use Rattle.kept_rules.specs.Row.{in_option, in_code};
ghost use Rattle.world_rows.specs.Lines.{code_at};
ghost use Rattle.looked_rows.specs.Looked.{file_with};
ghost use Rattle.row_rules.specs.Links.{row_at, keeps_each, Adds};
ghost use Rattle.body_rules.specs.References.{all_before};
ghost use Rattle.body_rules.specs.Code.{code_links};

use crate::code::keep_code;
use crate::references::count_fields;
use cil_rows::{MethodDefRow, read_row};
use cil_tables::Tables;
use file_tables::bytes::has_bit;
use file_tables::numbers::METHOD_DEF;
use looked_rows::read_body;
use pe_reader::{Pe, SectionCursor};
use plain_types::fault::NoMemory;
use row_numbers::Table;
use row_rules::{RowPlace, RowRules};
use std::alloc::Global;

/// Adds that a method keeps the rows that its code names, if it has code: an internal call has none (ECMA-335 II.23.1.11), and
/// neither has a method whose body can't be read.
fn keep_method(
    alloc: Global,
    rules: &mut RowRules,
    place: RowPlace,
    sections: &mut SectionCursor<'_>,
    tables: &Tables<'_>,
    counts: &[u32],
    row: MethodDefRow,
) -> Result<(), NoMemory>
    requires { counts.now ≡ all_before tables.now }
    ensures names { OnOk result (Adds (keeps_each (row_at place) (in_option (in_code place.file) (if has_bit row.impl_flags 12 then None else code_at (file_with sections.old tables.now) row.rva))) rules.old rules.new) }
    ensures same { sections.new ≡ sections.old }
{
    if has_bit(u64::from(row.impl_flags), 12) {
        return Ok(());
    }
    let body = read_body(sections, tables, row.rva);
    keep_code(alloc, rules, place, tables, counts, &body)
}

/// Adds that each method of a file that has code keeps what its code names: the types of its locals' signature, the classes of its
/// catch clauses, and the type, the field or the method of each instruction that has one for an operand (ECMA-335 II.25.4, III.1.9).
/// Each body is read once.
pub fn add_code_names(
    alloc: Global,
    rules: &mut RowRules,
    pe: &Pe<'_>,
    tables: &Tables<'_>,
    file: u16,
) -> Result<(), NoMemory>
    ensures { OnOk result (Adds (code_links file (file_with pe.now tables.now)) rules.old rules.new) }
{
    let counts = count_fields(alloc, tables)?;
    let mut sections = pe.cursor();
    for n in 0..tables.rows(METHOD_DEF) {
        let row: MethodDefRow = read_row(tables, n + 1);
        let place = RowPlace {
            file,
            table: Table::MethodDef,
            row: n,
        };
        keep_method(alloc, rules, place, &mut sections, tables, &counts, row)?;
    }
    Ok(())
}
