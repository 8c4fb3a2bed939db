//! Rows of the set with numbers of 16 bits.

ghost use Rattle.std.specs.Prelude.{◌≡◌, IfOk};
ghost use Rattle.std.specs.Option.{option_map};
ghost use Rattle.board_ids.specs.Ids.{id_of};
ghost use Rattle.member_keys.specs.Seen.{class_seen};

use board_types::board::TypeAt;
use member_keys::ClassId;
use plain_types::fault::NoMemory;

/// A row of the set as the board names it. There is no room for rows with numbers of more than 16 bits, and no image has one.
pub fn row_at(class: ClassId) -> Result<TypeAt, NoMemory>
    ensures { IfOk result (λ row. id_of row ≡ class_seen class) }
{
    if class.file > u32::from(u16::MAX) || class.row > u32::from(u16::MAX) {
        return Err(NoMemory);
    }
    Ok(TypeAt {
        assembly: class.file as u16,
        row: class.row as u16,
    })
}

/// The same of a row that may not be there.
pub fn row_of(class: Option<ClassId>) -> Result<Option<TypeAt>, NoMemory>
    ensures { IfOk result (λ row. option_map id_of row ≡ option_map class_seen class) }
{
    match class {
        Some(class) => Ok(Some(row_at(class)?)),
        None => Ok(None),
    }
}
