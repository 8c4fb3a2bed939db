//! The items of `mscorlib`, one table behind the other.

ghost use Rattle.std.specs.Prelude.{◌≡◌, ◌++◌, IfOk, OnOk};
ghost use Rattle.base_tables.specs.Shape.{items_of};
ghost use Rattle.base_tables.specs.Tables.{mscorlib_items, object_items, helper_items, small_number_items, wide_number_items, string_items, text_items, builder_items, exception_items, fault_items, refusal_items, interface_items, list_items, enumerator_items};

use base_tables::parts::{
    builders, enumerators, exceptions, faults, helpers, interfaces, lists, objects, refusals,
    small_numbers, strings, texts, wide_numbers,
};
use base_tables::shape::Item;
use plain_types::fault::NoMemory;
use std::alloc::Global;

/// Adds a table's items.
#[tactic(auto, using(crate::proofs::Walks::items_append))]
fn add(out: &mut Vec<Item>, part: &[Item]) -> Result<(), NoMemory>
    ensures { OnOk result (items_of out.new.items ≡ items_of out.old.items ++ items_of part.now) }
{
    out.extend_from_slice(part)?;
    Ok(())
}

/// The types that the others stand on.
fn add_basic(out: &mut Vec<Item>) -> Result<(), NoMemory>
    ensures { OnOk result (items_of out.new.items ≡ items_of out.old.items ++ object_items ++ helper_items ++ small_number_items ++ wide_number_items) }
{
    add(out, objects())?;
    add(out, helpers())?;
    add(out, small_numbers())?;
    add(out, wide_numbers())
}

/// Texts.
fn add_texts(out: &mut Vec<Item>) -> Result<(), NoMemory>
    ensures { OnOk result (items_of out.new.items ≡ items_of out.old.items ++ string_items ++ text_items ++ builder_items) }
{
    add(out, strings())?;
    add(out, texts())?;
    add(out, builders())
}

/// The exceptions.
fn add_exceptions(out: &mut Vec<Item>) -> Result<(), NoMemory>
    ensures { OnOk result (items_of out.new.items ≡ items_of out.old.items ++ exception_items ++ fault_items ++ refusal_items) }
{
    add(out, exceptions())?;
    add(out, faults())?;
    add(out, refusals())
}

/// The list and its interfaces.
fn add_collections(out: &mut Vec<Item>) -> Result<(), NoMemory>
    ensures { OnOk result (items_of out.new.items ≡ items_of out.old.items ++ interface_items ++ list_items ++ enumerator_items) }
{
    add(out, interfaces())?;
    add(out, lists())?;
    add(out, enumerators())
}

/// The items of `mscorlib`.
#[tactic(auto, unfolding(base_tables::specs::Tables::mscorlib_items))]
pub fn all_of_mscorlib(alloc: Global) -> Result<Vec<Item>, NoMemory>
    ensures { IfOk result (λ items. items_of items.items ≡ mscorlib_items) }
{
    let mut items: Vec<Item> = Vec::new(alloc);
    add_basic(&mut items)?;
    add_texts(&mut items)?;
    add_exceptions(&mut items)?;
    add_collections(&mut items)?;
    Ok(items)
}
