//! The rows of a set as the classes of its table.

ghost use Rattle.std.specs.Prelude.{◌≡◌};
ghost use Rattle.board_ids.specs.Ids.{id_of};
ghost use Rattle.member_keys.specs.Seen.{class_seen};

use board_types::board::TypeAt;
use member_keys::ClassId;

/// A row of the set as one of the table.
pub fn class_id(of: TypeAt) -> ClassId
    ensures { class_seen result ≡ id_of of }
{
    ClassId {
        file: u32::from(of.assembly),
        row: u32::from(of.row),
    }
}
