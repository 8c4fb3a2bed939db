//! Which types fit where others are wanted (ECMA-335 I.8.7, III.1.8.1.2).

ghost use Rattle.std.specs.Prelude.{◌≡◌, ◌||◌, ◌&&◌, ◌<◌};
ghost use Rattle.std.specs.Option.{option_map};
ghost use Rattle.plain_types.specs.declared.elem.Elem.TheVariants as elem;
ghost use Rattle.machine.specs.Data.{Basic, cell_of, type_eq};
ghost use Rattle.machine_typed.specs.Typing.{is_refers};
ghost use Rattle.classes.specs.Queries.{array, class_of, classes_fit, elements_by, fits, is_object, some_eq};
ghost use Rattle.member_keys.specs.Seen.{class_seen};
ghost use Rattle.class_table.specs.Seen.{classes_seen};
ghost use Rattle.board_ids.specs.Ids.{cli_type, plain_type};
ghost use Rattle.place_types.specs.Held.{cell_by};
ghost use Rattle.class_order.specs.Types.{base_seen};

use crate::bound::BoundTypes;
use crate::ids::class_id;
use board_ids::is_no_row;
use board_types::board::BoardType;
use class_order::{BaseType, is_same};
use ecma_types::id::TypeId;
use ecma_types::stack::PlaceType;
use member_keys::ClassId;
use place_types::held::Held;
use place_types::spelling::same_width;
use place_types::types::held;
use plain_types::elem::Elem;

/// The type inside the brackets.
fn base_of(of: BoardType) -> BaseType
    ensures { base_seen result ≡ plain_type of.elem of.of }
{
    match of.elem {
        Elem::Class => BaseType::ClassOf(class_id(of.of)),
        Elem::Value => BaseType::ValueOf(class_id(of.of)),
        elem if is_no_row(of.of) => BaseType::Basic(elem),
        elem => BaseType::EnumOf(elem, class_id(of.of)),
    }
}

/// The class of objects of the type; `None` where the base library lacks it.
fn class_of(types: &BoundTypes<'_, '_>, of: BaseType) -> Option<ClassId>
    ensures { option_map class_seen result ≡ class_of (classes_seen types.now) (base_seen of) }
{
    match of {
        BaseType::Basic(elem) => types.class_of_elem(elem),
        BaseType::EnumOf(_, class) | BaseType::ClassOf(class) | BaseType::ValueOf(class) => {
            Some(class)
        }
    }
}

/// The class of objects of the type that stands inside the brackets; `None` where the base library lacks it.
pub fn class_of_type(types: &BoundTypes<'_, '_>, of: BoardType) -> Option<ClassId>
    ensures { option_map class_seen result ≡ class_of (classes_seen types.now) (plain_type of.elem of.of) }
{
    class_of(types, base_of(of))
}

/// Whether both are there and the same.
#[tactic(auto, using(member_keys::proofs::KeyLaws::same_class))]
fn is_same_class(a: Option<ClassId>, b: Option<ClassId>) -> bool
    ensures { result ≡ some_eq (option_map class_seen a) (option_map class_seen b) }
{
    match (a, b) {
        (Some(a), Some(b)) => a == b,
        _ => false,
    }
}

/// Whether it is Object as it is spelt by its element.
fn is_object_elem(of: BaseType) -> bool
    ensures { result ≡ type_eq (base_seen of) (Basic elem.Object) }
{
    matches!(of, BaseType::Basic(Elem::Object))
}

/// Whether it is Object.
fn is_object(types: &BoundTypes<'_, '_>, of: BaseType) -> bool
    ensures { result ≡ is_object (classes_seen types.now) (base_seen of) }
{
    is_object_elem(of) || is_same_class(class_of(types, of), types.class_of_elem(Elem::Object))
}

/// Whether arrays fit where values of the type are wanted.
fn array_fits(types: &BoundTypes<'_, '_>, to: BaseType) -> bool
    ensures { result ≡ (is_object (classes_seen types.now) (base_seen to) || some_eq (class_of (classes_seen types.now) (base_seen to)) (array (classes_seen types.now))) }
{
    is_object(types, to) || is_same_class(class_of(types, to), types.array_class())
}

/// Whether a class that may be there is the other one, stands below it or implements it.
fn classes_fit(types: &BoundTypes<'_, '_>, from: Option<ClassId>, to: Option<ClassId>) -> bool
    ensures { result ≡ classes_fit (classes_seen types.now) (option_map class_seen from) (option_map class_seen to) }
{
    match (from, to) {
        (Some(from), Some(to)) => types.is_or_implements(from, to),
        _ => false,
    }
}

/// Whether values of the first type fit where those of the second are wanted.
#[tactic(auto, using(class_order::proofs::TypeLaws::base_fits))]
fn base_fits(types: &BoundTypes<'_, '_>, from: BaseType, to: BaseType) -> bool
    ensures { result ≡ fits (classes_seen types.now) (base_seen from) (base_seen to) }
{
    is_same(from, to)
        || is_object(types, to)
        || classes_fit(types, class_of(types, from), class_of(types, to))
}

/// What lies in a place of the type inside the brackets.
#[tactic(auto, using(crate::proofs::FitLaws::cell_is))]
fn held_inside(of: BoardType) -> Option<Held>
    ensures { option_map cell_by result ≡ cell_of (plain_type of.elem of.of) }
{
    held(&PlaceType {
        pointer: false,
        ranks: 0,
        elem: of.elem,
        of: TypeId { file: 0, row: 0 },
    })
}

/// Whether places of the type inside the brackets hold references.
fn is_reference(of: BoardType) -> bool
    ensures { result ≡ is_refers (cell_of (plain_type of.elem of.of)) }
{
    matches!(held_inside(of), Some(Held::Reference))
}

/// Whether elements that are kept in the two ways fit, where references do so or not.
fn elements_by(from: Option<Held>, to: Option<Held>, below: bool) -> bool
    ensures { result ≡ elements_by (option_map cell_by from) (option_map cell_by to) below }
{
    match (from, to) {
        (Some(Held::Reference), Some(Held::Reference)) => below,
        (Some(from), Some(to)) => same_width(from, to),
        _ => false,
    }
}

/// Whether arrays of the first type fit where arrays of the second are wanted, the brackets of both aside: numbers by their width,
/// references as they fit.
fn elements_fit(types: &BoundTypes<'_, '_>, from: BoardType, to: BoardType) -> bool
    ensures { let a = plain_type from.elem from.of in let b = plain_type to.elem to.of in result ≡ (type_eq a b || elements_by (cell_of a) (cell_of b) (fits (classes_seen types.now) a b)) }
{
    let from_base = base_of(from);
    let to_base = base_of(to);
    let below = base_fits(types, from_base, to_base);
    is_same(from_base, to_base) || elements_by(held_inside(from), held_inside(to), below)
}

/// Whether arrays of more brackets fit where the type is wanted.
fn takes_arrays(types: &BoundTypes<'_, '_>, to: BoardType) -> bool
    ensures one { to.ranks ≡ 0 → let b = plain_type to.elem to.of in result ≡ (is_object (classes_seen types.now) b || some_eq (class_of (classes_seen types.now) b) (array (classes_seen types.now))) }
    ensures arrays { 0 < to.ranks → let b = plain_type to.elem to.of in result ≡ (is_refers (cell_of b) && (is_object (classes_seen types.now) b || some_eq (class_of (classes_seen types.now) b) (array (classes_seen types.now)))) }
{
    (to.ranks == 0 || is_reference(to)) && array_fits(types, base_of(to))
}

/// Whether references of the first type fit where those of the second are wanted (ECMA-335 I.8.7.1, III.4.3).
pub fn cast(types: &BoundTypes<'_, '_>, from: BoardType, to: BoardType) -> bool
    ensures { result ≡ fits (classes_seen types.now) (cli_type from) (cli_type to) }
{
    if from.ranks < to.ranks {
        false
    } else if to.ranks < from.ranks {
        takes_arrays(types, to)
    } else if to.ranks > 0 {
        elements_fit(types, from, to)
    } else {
        let from_base = base_of(from);
        let to_base = base_of(to);
        base_fits(types, from_base, to_base)
    }
}
