//! How many bytes the codes have.

ghost use Rattle.std.specs.Prelude.{◌≡◌, [], ◌<◌, ◌≤◌, ◌^◌, length, if◌then◌else◌, slice_index_or};
ghost use Rattle.file_tables.specs.Metadata.{rows_of, row_count};
ghost use Rattle.kept_closure.specs.Named.{InOption};
ghost use Rattle.world_rows.specs.Tokens.{methods};
ghost use Rattle.looked_rows.specs.Looked.{file_with};
ghost use Rattle.row_numbers.specs.declared.table.Table.TheVariants as table;
ghost use Rattle.kept_marks.specs.Masks.{masks_of};
ghost use Rattle.code_shrink.specs.Shrunk.{CanShrink};
ghost use Rattle.converted.specs.Bodies.{body_of, code_in};
ghost use Rattle.image_codes.specs.Codes.{codes_of_kept, AllCanShrink, short_length, short_lengths};

use crate::body::method_body;
use cil_code::Body;
use cil_tables::Tables;
use code_shrink::length;
use file_tables::numbers::METHOD_DEF;
use kept_marks::FileChoice;
use pe_reader::{Pe, SectionCursor};
use row_numbers::Table;

/// A number that is no more than how many bytes of code there are.
fn within(size: u64, code: &[u8]) -> u64
    requires fits { size ≤ length code.now }
    requires few { length code.now < 2 ^ 32 }
    ensures same { result ≡ size }
    ensures small { result < 2 ^ 32 }
{
    size.min(code.len() as u64)
}

/// How many bytes the shortened code of a method has; one without a body has none.
fn body_length(body: &Option<Body<'_>>) -> u64
    requires { InOption (λ b. CanShrink b.code) body.now }
    ensures length { result ≡ short_length (code_in body.now) }
    ensures small { result < 2 ^ 32 }
{
    match body {
        Some(body) => {
            let _few = body.code_size();
            let code = body.code();
            within(length(body), code)
        }
        None => 0,
    }
}

/// How many bytes the shortened code of the method of a row has, if it is kept.
fn row_length(
    choice: &FileChoice<'_>,
    tables: &Tables<'_>,
    sections: &mut SectionCursor<'_>,
    n: u32,
) -> u64
    requires row { n < row_count tables.now methods }
    requires sound { AllCanShrink (masks_of choice.now) (file_with sections.old tables.now) }
    ensures length { result ≡ (if masks_of choice.now table.MethodDef n then short_length (code_in (body_of (file_with sections.old tables.now) (slice_index_or (rows_of tables.now methods) n []))) else 0) }
    ensures small { result < 2 ^ 32 }
    ensures same { sections.new ≡ sections.old }
{
    if !choice.keeps(Table::MethodDef, n) {
        return 0;
    }
    let body = method_body(sections, tables, n);
    body_length(&body)
}

/// How many bytes the codes of a file's kept methods have with operands of 16 bits, whatever limit they pass. Asked where `image_codes` may
/// be. No memory is taken.
pub fn code_length(choice: &FileChoice<'_>, tables: &Tables<'_>, pe: &Pe<'_>) -> u64
    requires { AllCanShrink (masks_of choice.now) (file_with pe.now tables.now) }
    ensures { result ≡ short_lengths (codes_of_kept (masks_of choice.now) (file_with pe.now tables.now)) }
{
    let mut sections = pe.cursor();
    let mut size: u64 = 0;
    for n in 0..tables.rows(METHOD_DEF) {
        size += row_length(choice, tables, &mut sections, n);
    }
    size
}
