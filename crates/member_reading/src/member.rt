//! What the rows of fields and methods say alike.

ghost use Rattle.std.specs.Prelude.{◌≡◌};
ghost use Rattle.world_rows.specs.Tokens.{bytes_at};

use cil_tables::Tables;

/// The bytes at an offset of `#Blob`, or none.
pub fn bytes<'a>(tables: &Tables<'a>, at: u32) -> &'a [u8]
    ensures { result.now ≡ bytes_at tables.now at }
{
    tables.blob(at).unwrap_or(&[])
}
