//! The tables, each as a slice.

ghost use Rattle.std.specs.Prelude.{◌≡◌};
ghost use Rattle.base_tables.specs.Shape.{items_of};
ghost use Rattle.base_tables.specs.Tables.{object_items, helper_items, small_number_items, wide_number_items, string_items, text_items, builder_items, exception_items, fault_items, refusal_items, interface_items, list_items, enumerator_items, native_items};

use crate::collections::{ENUMERATORS, INTERFACES, LISTS};
use crate::exceptions::{EXCEPTIONS, FAULTS, REFUSALS};
use crate::library::NATIVE;
use crate::numbers::{SMALL_NUMBERS, WIDE_NUMBERS};
use crate::objects::{HELPERS, OBJECTS};
use crate::shape::Item;
use crate::strings::{BUILDERS, STRINGS, TEXTS};

/// Object, the roots of the value types, and arrays.
#[tactic(auto, unfolding(crate::specs::Tables::object_items))]
pub fn objects() -> &'static [Item]
    ensures { items_of result.now ≡ object_items }
{
    OBJECTS
}

/// Attributes, void, field handles, and the classes of helpers.
#[tactic(auto, unfolding(crate::specs::Tables::helper_items))]
pub fn helpers() -> &'static [Item]
    ensures { items_of result.now ≡ helper_items }
{
    HELPERS
}

/// The small primitive types.
#[tactic(auto, unfolding(crate::specs::Tables::small_number_items))]
pub fn small_numbers() -> &'static [Item]
    ensures { items_of result.now ≡ small_number_items }
{
    SMALL_NUMBERS
}

/// The wide primitive types, and the texts of numbers.
#[tactic(auto, unfolding(crate::specs::Tables::wide_number_items))]
pub fn wide_numbers() -> &'static [Item]
    ensures { items_of result.now ≡ wide_number_items }
{
    WIDE_NUMBERS
}

/// String and its natives.
#[tactic(auto, unfolding(crate::specs::Tables::string_items))]
pub fn strings() -> &'static [Item]
    ensures { items_of result.now ≡ string_items }
{
    STRINGS
}

/// The methods of String that are made of its natives.
#[tactic(auto, unfolding(crate::specs::Tables::text_items))]
pub fn texts() -> &'static [Item]
    ensures { items_of result.now ≡ text_items }
{
    TEXTS
}

/// StringBuilder.
#[tactic(auto, unfolding(crate::specs::Tables::builder_items))]
pub fn builders() -> &'static [Item]
    ensures { items_of result.now ≡ builder_items }
{
    BUILDERS
}

/// Exception and SystemException.
#[tactic(auto, unfolding(crate::specs::Tables::exception_items))]
pub fn exceptions() -> &'static [Item]
    ensures { items_of result.now ≡ exception_items }
{
    EXCEPTIONS
}

/// The exceptions of instructions.
#[tactic(auto, unfolding(crate::specs::Tables::fault_items))]
pub fn faults() -> &'static [Item]
    ensures { items_of result.now ≡ fault_items }
{
    FAULTS
}

/// The exceptions of arguments and states.
#[tactic(auto, unfolding(crate::specs::Tables::refusal_items))]
pub fn refusals() -> &'static [Item]
    ensures { items_of result.now ≡ refusal_items }
{
    REFUSALS
}

/// IEnumerable and IEnumerator.
#[tactic(auto, unfolding(crate::specs::Tables::interface_items))]
pub fn interfaces() -> &'static [Item]
    ensures { items_of result.now ≡ interface_items }
{
    INTERFACES
}

/// ArrayList.
#[tactic(auto, unfolding(crate::specs::Tables::list_items))]
pub fn lists() -> &'static [Item]
    ensures { items_of result.now ≡ list_items }
{
    LISTS
}

/// The enumerator of an ArrayList.
#[tactic(auto, unfolding(crate::specs::Tables::enumerator_items))]
pub fn enumerators() -> &'static [Item]
    ensures { items_of result.now ≡ enumerator_items }
{
    ENUMERATORS
}

/// The items of `Microsoft.SPOT.Native`.
#[tactic(auto, unfolding(crate::specs::Tables::native_items))]
pub fn natives() -> &'static [Item]
    ensures { items_of result.now ≡ native_items }
{
    NATIVE
}
