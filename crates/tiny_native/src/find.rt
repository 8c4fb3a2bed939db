//! What arguments name.

ghost use Rattle.std.specs.Prelude.{◌≡◌, ◌<◌, length, slice_index_or, None, ℕ};
ghost use Rattle.plain_types.specs.declared.elem.Elem.TheVariants.{Void};
ghost use Rattle.tiny_ram.specs.Things.{Entry};
ghost use Rattle.tiny_ram.specs.Memory.{Memory, IsEntry, shown, entry_value};
ghost use Rattle.tiny_ram.specs.Region.{Keeps};
ghost use Rattle.tiny_native.specs.Seen.{Scene, ValueNamed};
ghost use Rattle.tiny_native.specs.Types.{same_board_type};
ghost use Rattle.tiny_native.specs.Copies.{IsFound};

use board_types::board::BoardType;
use board_types::value::{RamPlace, Shape, Value};
use plain_types::elem::Elem;
use ram_words::elems::number_of;
use tiny_ram::Ram;

/// What `Shape::what` is of arrays.
pub const ARRAY: u8 = 1;

/// What `Shape::what` is of strings.
pub const STRING: u8 = 2;

/// What `Shape::what` is of boxes.
pub const BOX: u8 = 3;

/// What `Shape::what` is of static fields.
pub const STATIC: u8 = 5;

/// What a value names.
#[derive(Clone, Copy)]
pub(crate) enum Found {
    Null,
    /// A thing of the kind that was looked for.
    Thing(u32, Shape),
    /// No reference, or one to another kind.
    Other,
}

/// What a value names, where a thing of a kind is wanted.
pub(crate) fn find(ram: &Ram, value: Value, what: u8) -> Found
    ensures { (c : Scene) → Keeps ram.now c.memory → ValueNamed c value → IsFound c value what result }
{
    let Value::Ref(thing) = value else {
        return Found::Other;
    };
    if thing == 0 {
        return Found::Null;
    }
    let shape = ram.shape(thing);
    if shape.what == what {
        Found::Thing(thing, shape)
    } else {
        Found::Other
    }
}

/// What a place of a thing holds.
#[inline(always)]
pub(crate) fn read(ram: &Ram, thing: u32, index: u32) -> Value
    ensures { (m : Memory) (e : Entry) → Keeps ram.now m → IsEntry m thing e → index < length e.places → result ≡ shown Void (entry_value e index) }
{
    ram.get(RamPlace {
        thing,
        index,
        elem: Elem::Void,
    })
}

/// Whether two types are the same.
pub(crate) fn same_type(a: BoardType, b: BoardType) -> bool
    ensures { result ≡ same_board_type a b }
{
    a.ranks == b.ranks
        && (number_of(a.elem) == number_of(b.elem)
            && (a.of.assembly == b.of.assembly && a.of.row == b.of.row))
}
