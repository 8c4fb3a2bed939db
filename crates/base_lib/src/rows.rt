//! The rows that items ask for.

ghost use Rattle.std.specs.Prelude.{◌≡◌, ℕ, ◌<◌, ◌≤◌, IfOk, OnOk, IsTrue, ◌%◌, length, sum_by};
ghost use Rattle.cil_layout.specs.Asked.{rows_of, weight_of, with_row};
ghost use Rattle.cil_layout.specs.declared.rows.Row.TheVariants.{MethodDef as AMethodDef};
ghost use Rattle.cil_build.specs.Refs.{row_of_ref};
ghost use Rattle.base_tables.specs.Shape.{items_of, kinds_of, item_of};
ghost use Rattle.base_tables.specs.declared.shape.Entry.TheVariants.{TypeDef as ATypeDef, Field as AField, Method as AMethod, Implements as AnImplements, TypeOf as ATypeOf, MethodOf as AMethodOf, Literal as ALiteral};
ghost use Rattle.base_lib.specs.Keys.{literal_len};
ghost use Rattle.base_lib.specs.Fields.{fields_with, said_by, is_small};
ghost use Rattle.base_lib.specs.Files.{impl_flags, with_kinds, kinds_token, with_entry, with_item};

use crate::code::body;
use crate::fields::{Fields, fields_of};
use crate::keys::token_for;
use crate::signatures::{field_bytes, locals_bytes, method_bytes};
use base_tables::library::VERSION;
use base_tables::shape::{Entry, Item, Kind, Work};
use cil_build::build::{Build, BuildRefusal};
use cil_build::refs::RefRow;
use cil_layout::rows::{METHOD_DEF, STAND_ALONE_SIG};
use plain_types::fault::NoMemory;
use std::alloc::Global;

/// The flag of an internal call (ECMA-335 II.23.1.11).
const INTERNAL_CALL: u16 = 0x1000;

/// The UTF-16 units of an ASCII text.
fn units_of(alloc: Global, text: &str) -> Result<Vec<u16>, NoMemory>
    ensures { IfOk result (λ units. units.items ≡ text.now) }
{
    let mut units = Vec::new(alloc);
    for byte in text.as_bytes() {
        units.push(u16::from(*byte))?;
    }
    Ok(units)
}

/// The flags of a method's implementation.
fn flags_of(work: Work) -> u16
    ensures { result ≡ impl_flags work }
{
    match work {
        Work::Native => INTERNAL_CALL,
        Work::Code | Work::Abstract => 0,
    }
}

/// Adds the signature of a method's locals, and gives its token; 0 for a method without locals.
fn add_kinds(
    build: &mut Build,
    alloc: Global,
    items: &[Item],
    kinds: &[Kind],
) -> Result<u32, NoMemory>
    requires few { length items.now ≤ 60000 }
    requires short { sum_by literal_len (items_of items.now) ≤ 1000000 }
    requires kinds { length kinds.now ≤ 1000 }
    requires room { rows_of build.old STAND_ALONE_SIG < 65534 }
    ensures ok { OnOk result (build.new ≡ with_kinds (items_of items.now) build.old (kinds_of kinds.now)) }
    ensures token { IfOk result (λ token. token ≡ kinds_token build.old (kinds_of kinds.now)) }
{
    match kinds {
        [] => Ok(0),
        [_, ..] => {
            let sig = locals_bytes(alloc, items, kinds)?;
            let row = RefRow::Locals {
                sig: sig.as_slice(),
            };
            let token = build.add_ref(alloc, &row)?;
            Ok(token)
        }
    }
}

/// Adds a row of one of the smaller tables.
fn add_small(build: &mut Build, alloc: Global, row: &RefRow<'_>) -> Result<(), NoMemory>
    requires room { (table : ℕ) → rows_of build.old table ≤ 60000 }
    ensures { OnOk result (build.new ≡ with_row build.old (row_of_ref row.now)) }
{
    let _token = build.add_ref(alloc, row)?;
    Ok(())
}

/// Adds a literal.
fn add_literal(
    build: &mut Build,
    alloc: Global,
    items: &[Item],
    item: &Fields,
) -> Result<(), NoMemory>
    requires light { weight_of build.old ≤ 4000000 }
    requires short { length item.now.key.now ≤ 100 }
    ensures { OnOk result (build.new ≡ with_entry (items_of items.now) build.old ALiteral (said_by item.now)) }
{
    let units = units_of(alloc, item.key)?;
    match build.user_text(alloc, units.as_slice()) {
        Ok(_text) => Ok(()),
        Err(BuildRefusal::NoMemory) => Err(NoMemory),
        Err(BuildRefusal::Full) => unreachable!(),
    }
}

/// Adds a type.
fn add_class(
    build: &mut Build,
    alloc: Global,
    items: &[Item],
    item: &Fields,
) -> Result<(), NoMemory>
    requires few { length items.now ≤ 60000 }
    requires short { sum_by literal_len (items_of items.now) ≤ 1000000 }
    requires room { (table : ℕ) → rows_of build.old table ≤ 60000 }
    ensures { OnOk result (build.new ≡ with_entry (items_of items.now) build.old ATypeDef (said_by item.now)) }
{
    let extends = token_for(items, item.base);
    let _class = build.add_type(alloc, item.flags, item.namespace, item.name, extends)?;
    Ok(())
}

/// Adds a field.
fn add_field(
    build: &mut Build,
    alloc: Global,
    items: &[Item],
    item: &Fields,
) -> Result<(), NoMemory>
    requires few { length items.now ≤ 60000 }
    requires short { sum_by literal_len (items_of items.now) ≤ 1000000 }
    requires room { (table : ℕ) → rows_of build.old table ≤ 60000 }
    ensures { OnOk result (build.new ≡ with_entry (items_of items.now) build.old AField (said_by item.now)) }
{
    let (_, kind, _) = item.signature;
    let sig = field_bytes(alloc, items, &kind)?;
    let flags = (item.flags % 0x0001_0000) as u16;
    let _field = build.add_field(alloc, flags, item.name, sig.as_slice(), &[])?;
    Ok(())
}

/// Adds a method with its signature and body.
fn add_row(
    build: &mut Build,
    alloc: Global,
    item: &Fields,
    sig: &[u8],
    code: &[u8],
) -> Result<(), NoMemory>
    requires room { rows_of build.old METHOD_DEF ≤ 60001 }
    ensures { OnOk result (build.new ≡ with_row build.old (AMethodDef (record { impl_flags = impl_flags item.now.work; flags = item.now.flags % 65536; name = item.now.name.now; signature = sig.now; body = code.now }))) }
{
    let flags = (item.flags % 0x0001_0000) as u16;
    let _method = build.add_method(alloc, flags_of(item.work), flags, item.name, sig, code)?;
    Ok(())
}

/// Adds a method.
#[tactic(auto, using(crate::proofs::Room::kinds_room))]
fn add_method(
    build: &mut Build,
    alloc: Global,
    items: &[Item],
    item: &Fields,
) -> Result<(), NoMemory>
    requires few { length items.now ≤ 60000 }
    requires short { sum_by literal_len (items_of items.now) ≤ 1000000 }
    requires small { IsTrue (is_small item.now) }
    requires room { (table : ℕ) → rows_of build.old table ≤ 60000 }
    ensures { OnOk result (build.new ≡ with_entry (items_of items.now) build.old AMethod (said_by item.now)) }
{
    let sig = method_bytes(alloc, items, &item.signature)?;
    match item.work {
        Work::Code => {
            let token = add_kinds(build, alloc, items, item.locals)?;
            let code = body(alloc, items, item.number, token, item.lines)?;
            add_row(build, alloc, item, sig.as_slice(), code.as_slice())
        }
        Work::Native => add_row(build, alloc, item, sig.as_slice(), &[]),
        Work::Abstract => add_row(build, alloc, item, sig.as_slice(), &[]),
    }
}

/// Adds that a class implements an interface.
fn add_interface(
    build: &mut Build,
    alloc: Global,
    items: &[Item],
    item: &Fields,
) -> Result<(), NoMemory>
    requires few { length items.now ≤ 60000 }
    requires short { sum_by literal_len (items_of items.now) ≤ 1000000 }
    requires room { (table : ℕ) → rows_of build.old table ≤ 60000 }
    ensures { OnOk result (build.new ≡ with_entry (items_of items.now) build.old AnImplements (said_by item.now)) }
{
    let class = token_for(items, item.name);
    let interface = token_for(items, item.base);
    add_small(build, alloc, &RefRow::Interface { class, interface })
}

/// Adds a type of another assembly.
fn add_class_of(
    build: &mut Build,
    alloc: Global,
    items: &[Item],
    item: &Fields,
) -> Result<(), NoMemory>
    requires few { length items.now ≤ 60000 }
    requires short { sum_by literal_len (items_of items.now) ≤ 1000000 }
    requires room { (table : ℕ) → rows_of build.old table ≤ 60000 }
    ensures { OnOk result (build.new ≡ with_entry (items_of items.now) build.old ATypeOf (said_by item.now)) }
{
    let scope = token_for(items, item.base);
    let row = RefRow::TypeOf {
        scope,
        namespace: item.namespace,
        name: item.name,
    };
    add_small(build, alloc, &row)
}

/// Adds a method of a type of another assembly.
fn add_method_of(
    build: &mut Build,
    alloc: Global,
    items: &[Item],
    item: &Fields,
) -> Result<(), NoMemory>
    requires few { length items.now ≤ 60000 }
    requires short { sum_by literal_len (items_of items.now) ≤ 1000000 }
    requires small { IsTrue (is_small item.now) }
    requires room { (table : ℕ) → rows_of build.old table ≤ 60000 }
    ensures { OnOk result (build.new ≡ with_entry (items_of items.now) build.old AMethodOf (said_by item.now)) }
{
    let parent = token_for(items, item.base);
    let sig = method_bytes(alloc, items, &item.signature)?;
    let row = RefRow::Member {
        parent,
        name: item.name,
        sig: sig.as_slice(),
    };
    add_small(build, alloc, &row)
}

/// Adds what an item asks for.
#[tactic(auto, unfolding(crate::specs::Files::with_item))]
pub fn add_item(
    build: &mut Build,
    alloc: Global,
    items: &[Item],
    item: &Item,
) -> Result<(), NoMemory>
    requires few { length items.now ≤ 60000 }
    requires short { sum_by literal_len (items_of items.now) ≤ 1000000 }
    requires small { IsTrue (is_small (fields_with item.now)) }
    requires room { (table : ℕ) → rows_of build.old table ≤ 60000 }
    requires light { weight_of build.old ≤ 4000000 }
    ensures { OnOk result (build.new ≡ with_item (items_of items.now) build.old (item_of item.now)) }
{
    let item = &fields_of(item);
    match item.entry {
        Entry::Literal => add_literal(build, alloc, items, item),
        Entry::TypeDef => add_class(build, alloc, items, item),
        Entry::Field => add_field(build, alloc, items, item),
        Entry::Method => add_method(build, alloc, items, item),
        Entry::Implements => add_interface(build, alloc, items, item),
        Entry::Assembly => {
            let row = RefRow::Assembly {
                name: item.name,
                version: VERSION,
            };
            add_small(build, alloc, &row)
        }
        Entry::TypeOf => add_class_of(build, alloc, items, item),
        Entry::MethodOf => add_method_of(build, alloc, items, item),
    }
}
