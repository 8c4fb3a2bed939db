//! The rows and types of a board as those of the machine.
#![tactic(auto)]

ghost use Rattle.std.specs.Prelude.{◌≡◌};
ghost use Rattle.board_ids.specs.Ids.{is_no_row as no_row};

use board_types::board::{NO_ROW, TypeAt};

/// Whether it is the row of no type: assembly 0 with [`NO_ROW`], which a basic type has in place of a row.
pub fn is_no_row(at: TypeAt) -> bool
    ensures { result ≡ no_row at }
{
    at.assembly == 0 && at.row == NO_ROW
}
