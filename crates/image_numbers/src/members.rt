//! The rows of MemberRef as the image's references to fields and to methods (ECMA-335 II.22.25).

ghost use Rattle.std.specs.Prelude.{◌≡◌, ◌+◌, ◌-◌, ◌≤◌, IfOk, if◌then◌else◌};
ghost use Rattle.kept_rows.specs.Select.{below};
ghost use Rattle.row_numbers.specs.declared.table.Table.TheVariants as table;
ghost use Rattle.kept_marks.specs.Masks.{masks_of};
ghost use Rattle.converted.specs.Cut.{two_bytes};
ghost use Rattle.image_numbers.specs.Numbers.{reference_numbers};

use cil_tables::Tables;
use file_tables::numbers::MEMBER_REF;
use image_signatures::two_bytes;
use kept_marks::FileChoice;
use plain_types::fault::NoMemory;
use row_counts::is_field_reference;
use row_numbers::Table;
use std::alloc::Global;

/// Where the numbers of references begin.
const REFERENCES: u64 = 0x4000;

/// The number of a row, from 0, before which so many rows are references to fields.
fn reference_number(choice: &FileChoice<'_>, is_field: bool, n: u32, fields: u32) -> u16
    requires { fields ≤ n }
    ensures { result ≡ two_bytes (16384 + (if is_field then below (masks_of choice.now table.FieldRef) fields else below (masks_of choice.now table.MethodRef) (n - fields))) }
{
    let row = if is_field {
        choice.below(Table::FieldRef, u64::from(fields))
    } else {
        choice.below(Table::MethodRef, u64::from(n - fields))
    };
    two_bytes(REFERENCES + u64::from(row))
}

/// The number of each row. References to fields and to methods are counted apart.
pub fn reference_numbers(
    alloc: Global,
    choice: &FileChoice<'_>,
    tables: &Tables<'_>,
) -> Result<Vec<u16>, NoMemory>
    ensures { IfOk result (λ numbers. numbers.items ≡ reference_numbers two_bytes (masks_of choice.now) tables.now) }
{
    let mut numbers = Vec::new(alloc);
    let mut fields: u32 = 0;
    for n in 0..tables.rows(MEMBER_REF) {
        let is_field = is_field_reference(tables, n);
        numbers.push(reference_number(choice, is_field, n, fields))?;
        fields += u32::from(is_field);
    }
    Ok(numbers)
}
