//! Types without arrays, and which of them fit where others are wanted (ECMA-335 I.8.7, III.1.8.1.2).

ghost use Rattle.std.specs.Prelude.{◌≡◌, ◌||◌, ◌↔◌, IfOk, IsTrue};
ghost use Rattle.std.specs.Option.{option_map};
ghost use Rattle.plain_types.specs.declared.elem.Elem.TheVariants as elem;
ghost use Rattle.machine.specs.Data.{Basic, type_eq};
ghost use Rattle.classes.specs.Queries.{array, class_of, classes_fit, fits, is_object, some_eq, type_of_class};
ghost use Rattle.member_keys.specs.Seen.{class_seen};
ghost use Rattle.class_table.specs.Seen.{classes_seen};
ghost use Rattle.class_order.specs.Types.{AreOrdered, base_seen};

use crate::basic::class_of_elem;
use crate::order::{Order, is_or_implements};
use class_queries::kind;
use class_table::{ClassTable, TypeKind};
use member_keys::ClassId;
use plain_types::elem::Elem;
use plain_types::fault::NoMemory;
use std::alloc::Global;

/// A type without array brackets (ECMA-335 I.8.2).
#[derive(Clone, Copy, Debug, PartialEq, Eq)]
pub enum BaseType {
    /// A number, bool or char, String or Object.
    Basic(Elem),
    /// An enum, with the element of its number.
    EnumOf(Elem, ClassId),
    /// A class or an interface.
    ClassOf(ClassId),
    /// Another value type.
    ValueOf(ClassId),
}

/// Whether the two are equal.
fn is_equal(a: BaseType, b: BaseType) -> bool
    ensures { IsTrue result ↔ (a ≡ b) }
{
    a == b
}

/// Whether they are one type.
#[tactic(auto, using(crate::proofs::TypeLaws::same_base))]
pub fn is_same(a: BaseType, b: BaseType) -> bool
    ensures { result ≡ type_eq (base_seen a) (base_seen b) }
{
    is_equal(a, b)
}

/// The type of places that a class gives.
pub fn type_of_class(table: &ClassTable<'_>, class: ClassId) -> BaseType
    ensures { base_seen result ≡ type_of_class (classes_seen table.now) (class_seen class) }
{
    match kind(table, class) {
        Some(TypeKind::Builtin(elem)) => BaseType::Basic(elem),
        Some(TypeKind::Enumeration(elem)) => BaseType::EnumOf(elem, class),
        Some(TypeKind::OtherValue) => BaseType::ValueOf(class),
        Some(TypeKind::Reference) | None => BaseType::ClassOf(class),
    }
}

/// The class of objects of the type; `None` where the base library lacks it.
pub fn class_of(order: &Order<'_, '_>, of: BaseType) -> Option<ClassId>
    requires { AreOrdered order.now }
    ensures { option_map class_seen result ≡ class_of (classes_seen order.now.table.now) (base_seen of) }
{
    match of {
        BaseType::Basic(elem) => class_of_elem(&order.basic, elem),
        BaseType::EnumOf(_, class) | BaseType::ClassOf(class) | BaseType::ValueOf(class) => {
            Some(class)
        }
    }
}

/// Whether both are there and the same.
fn is_same_class(a: Option<ClassId>, b: Option<ClassId>) -> bool
    ensures { result ≡ some_eq (option_map class_seen a) (option_map class_seen b) }
{
    match (a, b) {
        (Some(a), Some(b)) => a == b,
        _ => false,
    }
}

/// Whether it is Object as it is spelt by its element.
fn is_object_elem(of: BaseType) -> bool
    ensures { result ≡ type_eq (base_seen of) (Basic elem.Object) }
{
    matches!(of, BaseType::Basic(Elem::Object))
}

/// Whether it is Object.
fn is_object(order: &Order<'_, '_>, of: BaseType) -> bool
    requires { AreOrdered order.now }
    ensures { result ≡ is_object (classes_seen order.now.table.now) (base_seen of) }
{
    is_object_elem(of) || is_same_class(class_of(order, of), order.basic.object)
}

/// Whether arrays fit where values of the type are wanted.
pub fn array_fits(order: &Order<'_, '_>, to: BaseType) -> bool
    requires { AreOrdered order.now }
    ensures { result ≡ (is_object (classes_seen order.now.table.now) (base_seen to) || some_eq (class_of (classes_seen order.now.table.now) (base_seen to)) (array (classes_seen order.now.table.now))) }
{
    is_object(order, to) || is_same_class(class_of(order, to), order.basic.array)
}

/// Whether a class that may be there is the other one, stands below it or implements it.
fn classes_fit(
    alloc: Global,
    order: &Order<'_, '_>,
    from: Option<ClassId>,
    to: Option<ClassId>,
) -> Result<bool, NoMemory>
    requires { AreOrdered order.now }
    ensures { IfOk result (λ answer. answer ≡ classes_fit (classes_seen order.now.table.now) (option_map class_seen from) (option_map class_seen to)) }
{
    match (from, to) {
        (Some(from), Some(to)) => is_or_implements(alloc, order.table, from, to),
        _ => Ok(false),
    }
}

/// Whether values of the first type fit where those of the second are wanted.
#[tactic(auto, using(crate::proofs::TypeLaws::base_fits))]
pub fn fits(
    alloc: Global,
    order: &Order<'_, '_>,
    from: BaseType,
    to: BaseType,
) -> Result<bool, NoMemory>
    requires { AreOrdered order.now }
    ensures { IfOk result (λ answer. answer ≡ fits (classes_seen order.now.table.now) (base_seen from) (base_seen to)) }
{
    if is_same(from, to) || is_object(order, to) {
        return Ok(true);
    }
    classes_fit(alloc, order, class_of(order, from), class_of(order, to))
}
