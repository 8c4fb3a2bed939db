//! What stands at a place of a method's code.

ghost use Rattle.std.specs.Prelude.{◌≡◌};
ghost use Rattle.std.specs.Option.{option_map};
ghost use Rattle.board_ids.specs.Ids.{id_of};
ghost use Rattle.board_program.specs.Code as program;
ghost use Rattle.bound_lines.specs.Lines.{line_seen};

use crate::code::instruction;
use crate::lines::BoardLine;
use crate::operand::operand;
use board_types::board::TypeAt;
use bound_answers::BoundSet;

/// The instruction at a place of a method's code, with what its operand names; `None` exactly where no accepted instruction
/// stands there whole. In constant time but for a type specification's signature.
pub fn line_at<'a>(
    set: &BoundSet<'_, '_, '_, 'a>,
    method: TypeAt,
    place: u32,
) -> Option<BoardLine<'a>>
    ensures { option_map (line_seen set.now place) result ≡ program.line_at set.now (id_of method) place }
{
    let image = set.names().image(u32::from(method.assembly))?;
    let found = instruction(image, method.row, place)?;
    Some(BoardLine {
        shape: found.row.shape,
        operand: operand(set, image, method.assembly, found),
        next: found.next,
    })
}
