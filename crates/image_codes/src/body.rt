//! The body of a method, by its row (ECMA-335 II.22.26, II.25.4).

ghost use Rattle.std.specs.Prelude.{◌≡◌, [], ◌+◌, ◌<◌, ◌^◌, slice_index_or};
ghost use Rattle.file_tables.specs.Metadata.{rows_of, row_count};
ghost use Rattle.world_rows.specs.Tokens.{methods};
ghost use Rattle.looked_rows.specs.Looked.{file_with};
ghost use Rattle.converted.specs.Bodies.{body_of};

use cil_code::Body;
use cil_rows::{MethodDefRow, read_row};
use cil_tables::Tables;
use file_tables::bytes::has_bit;
use looked_rows::read_body;
use pe_reader::SectionCursor;

/// The body of the method of a row, from 0; `None` exactly where it is an internal call (ECMA-335 II.23.1.11), or its body isn't sound.
pub fn method_body<'a>(
    sections: &mut SectionCursor<'a>,
    tables: &Tables<'_>,
    n: u32,
) -> Option<Body<'a>>
    requires { n < row_count tables.now methods }
    ensures body { result ≡ body_of (file_with sections.old tables.now) (slice_index_or (rows_of tables.now methods) n []) }
    ensures same { sections.new ≡ sections.old }
{
    let _few = tables.rows(file_tables::numbers::METHOD_DEF);
    let row: MethodDefRow = read_row(tables, n + 1);
    if has_bit(u64::from(row.impl_flags), 12) {
        return None;
    }
    read_body(sections, tables, row.rva)
}
