//! Types of the table as those of the world, whose rows count from 1.

ghost use Rattle.std.specs.Prelude.{◌≡◌, true, false, IfOk};
ghost use Rattle.plain_types.specs.declared.elem.Elem.TheVariants as elem;
ghost use Rattle.machine.specs.Data.{Basic};
ghost use Rattle.member_keys.specs.Seen.{class_seen};
ghost use Rattle.place_types.specs.Types.{id_of, id_up, type_of, type_up};
ghost use Rattle.class_order.specs.Types.{base_seen};
ghost use Rattle.cil_types.specs.Spelt.{type_spelt};

use class_order::BaseType;
use ecma_types::id::TypeId;
use ecma_types::stack::PlaceType;
use member_keys::ClassId;
use plain_types::elem::Elem;
use plain_types::fault::NoMemory;

/// The number behind the last file that a [`TypeId`] has room for.
const FILES: u32 = 65536;

/// The row of no type.
const NO_TYPE: TypeId = TypeId { file: 0, row: 0 };

/// The row of a class, which counts from 1. There is no room for those of more than 65,536 files.
fn row_of(class: ClassId) -> Result<TypeId, NoMemory>
    ensures { IfOk result (λ of. id_of of ≡ id_up (class_seen class)) }
{
    if class.file >= FILES || class.row == u32::MAX {
        return Err(NoMemory);
    }
    Ok(TypeId {
        file: class.file as u16,
        row: class.row + 1,
    })
}

/// A place of an element and the row beside it.
fn place(elem: Elem, of: TypeId) -> PlaceType
    ensures { result ≡ record { pointer = false; ranks = 0; elem = elem; of = of } }
{
    PlaceType {
        pointer: false,
        ranks: 0,
        elem,
        of,
    }
}

/// Object.
pub fn object() -> PlaceType
    ensures { type_of result ≡ Basic elem.Object }
{
    place(Elem::Object, NO_TYPE)
}

/// The spelling of a type of a class, where it has one.
#[tactic(auto, using(crate::proofs::SpellLaws::basic_place, crate::proofs::SpellLaws::enum_place))]
pub fn place_of(of: BaseType) -> Result<PlaceType, NoMemory>
    ensures { IfOk result (λ place. type_spelt (base_seen of) ≡ true → type_of place ≡ type_up (base_seen of)) }
{
    match of {
        BaseType::Basic(elem) => Ok(place(elem, NO_TYPE)),
        BaseType::EnumOf(elem, class) => Ok(place(elem, row_of(class)?)),
        BaseType::ClassOf(class) => Ok(place(Elem::Class, row_of(class)?)),
        BaseType::ValueOf(class) => Ok(place(Elem::Value, row_of(class)?)),
    }
}
