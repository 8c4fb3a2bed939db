//! Methods that tokens name, and the places of methods.

ghost use Rattle.std.specs.Prelude.{◌≡◌, ◌||◌, IfOk, OnOk, ◌++◌, Some, codes, map};
ghost use Rattle.std.specs.Option.{option_map};
ghost use Rattle.machine.specs.Texts.{same_text};
ghost use Rattle.classes.specs.Listed.{this_before};
ghost use Rattle.classes.specs.Queries.{place_of, some_eq};
ghost use Rattle.member_keys.specs.Seen.{class_seen, place_seen, signature_seen};
ghost use Rattle.class_table.specs.Seen.{classes_seen};
ghost use Rattle.method_facts.specs.Members.{ClassFlagged, MethodTold, PlacesTold, owner_or_none};
ghost use Rattle.method_facts.specs.Places.{place_to};

use crate::flags::{class_flags, method_flags};
use crate::places::{class_place, place_types, result_type, this_type};
use class_checks::is_class;
use class_queries::find_class;
use class_table::{ClassRow, ClassTable};
use class_targets::{find_method, owned_method};
use ecma_types::stack::PlaceType;
use member_keys::{ClassId, SignatureKey};
use plain_types::fault::NoMemory;
use std::alloc::Global;
use verify_ops::facts::MethodOperand;

/// The types of a method's arguments, with `this` first, and that of its result; void has the element Void.
#[derive(Drop)]
pub struct MethodPlaces {
    pub arguments: Vec<PlaceType>,
    pub result: PlaceType,
}

/// The name of a constructor (ECMA-335 II.10.5.1).
fn is_constructor(name: &str) -> bool
    ensures { result ≡ same_text name.now (codes ".ctor") }
{
    name == ".ctor"
}

/// Whether `newobj` makes no object of a class, which a row tells: it is abstract, or the class of arrays (ECMA-335 III.4.21).
fn is_unmade(row: &ClassRow<'_>, array: Option<ClassId>, class: ClassId) -> bool
    ensures { result ≡ (row.now.is_abstract || some_eq (Some (class_seen class)) (option_map class_seen array)) }
{
    row.is_abstract || is_class(array, class)
}

/// The flags of a class that say whether `newobj` makes no object of it, and whether it is an interface.
fn flags_of(table: &ClassTable<'_>, array: Option<ClassId>, class: ClassId) -> Option<u32>
    ensures { ClassFlagged (classes_seen table.now) (option_map class_seen array) (class_seen class) result }
{
    let row = find_class(table, class)?;
    Some(class_flags(is_unmade(row, array, class), row.is_interface))
}

/// Writes the types of a method's parameters.
fn write_parameters(
    table: &ClassTable<'_>,
    signature: &SignatureKey,
    places: &mut Vec<PlaceType>,
) -> Result<(), NoMemory>
    ensures { OnOk result (places.new.items ≡ map place_to (map (place_of (classes_seen table.now)) (signature_seen signature.now).parameters)) }
{
    places.clear();
    place_types(table, &signature.parameters, places)
}

/// What an instruction that takes a method needs to know of it: `None` exactly where no class has such a method, or its signature has
/// no form or names a type that isn't there (ECMA-335 II.22.26). Of the flags of its row those that say whether it is static and
/// abstract. Of those of its class (II.23.1.15) bit 5 says whether that is an interface, and bit 7, which is otherwise of abstract
/// types alone, whether `newobj` makes no object of it, since it is abstract or the class of arrays (III.4.21), which is `array`.
/// `scratch` is what the types of its parameters are written into.
///
/// # Errors
///
/// [`NoMemory`] where the host has none left, and where a type id has no room for a class, which a world has not.
pub fn method_operand<'s>(
    table: &ClassTable<'_>,
    array: Option<ClassId>,
    method: ClassId,
    scratch: &'s mut Vec<PlaceType>,
) -> Result<Option<MethodOperand<'s>>, NoMemory>
    ensures { IfOk result (MethodTold (classes_seen table.now) (option_map class_seen array) (class_seen method)) }
{
    let Some(owned) = owned_method(table, method) else {
        return Ok(None);
    };
    let Some(signature) = &owned.row.signature else {
        return Ok(None);
    };
    let Some(class_flags) = flags_of(table, array, owned.owner) else {
        return Ok(None);
    };
    let class = class_place(table, owned.owner)?;
    let returns = result_type(table, signature.returns)?;
    write_parameters(table, signature, scratch)?;
    Ok(Some(MethodOperand {
        class,
        class_flags,
        constructor: is_constructor(owned.row.name),
        this: signature.has_this,
        returns,
        params: scratch,
        flags: method_flags(owned.row.is_static, owned.row.is_abstract),
    }))
}

/// The class that has a method; where none has it, the row behind all classes of its file.
fn owner_or_none(table: &ClassTable<'_>, file: u32, owner: Option<u32>) -> Result<ClassId, NoMemory>
    ensures { IfOk result (λ class. class_seen class ≡ owner_or_none table.now file owner) }
{
    let behind = match table.files.get(file as usize) {
        Some(rows) => rows.classes.len(),
        None => 0,
    };
    if behind > u32::MAX as usize {
        return Err(NoMemory);
    }
    let row = owner.unwrap_or(behind as u32);
    Ok(ClassId { file, row })
}

/// The types of a method's arguments.
fn argument_types(
    alloc: Global,
    table: &ClassTable<'_>,
    owner: ClassId,
    signature: &SignatureKey,
) -> Result<Vec<PlaceType>, NoMemory>
    ensures { IfOk result (λ places. places.items ≡ map place_to (this_before (classes_seen table.now) (class_seen owner) (signature_seen signature.now) ++ map (place_of (classes_seen table.now)) (signature_seen signature.now).parameters)) }
{
    let mut arguments = Vec::new(alloc);
    if signature.has_this {
        arguments.push(this_type(table, owner)?)?;
    }
    place_types(table, &signature.parameters, &mut arguments)?;
    Ok(arguments)
}

/// The places of a method of a file, by its row from 0, whether a class has it or not: `None` exactly where there is no such row, or
/// its signature has no form or names a type that isn't there (ECMA-335 II.22.26). A method that no class has takes a `this` of no
/// class.
///
/// # Errors
///
/// [`NoMemory`] where the host has none left, and where a type id has no room for a class, which a world has not.
pub fn method_places(
    alloc: Global,
    table: &ClassTable<'_>,
    method: ClassId,
) -> Result<Option<MethodPlaces>, NoMemory>
    ensures { IfOk result (PlacesTold table.now (class_seen method)) }
{
    let Some(row) = find_method(table, method) else {
        return Ok(None);
    };
    let Some(signature) = &row.signature else {
        return Ok(None);
    };
    let owner = owner_or_none(table, method.file, row.owner)?;
    let arguments = argument_types(alloc, table, owner, signature)?;
    let result = result_type(table, signature.returns)?;
    Ok(Some(MethodPlaces { arguments, result }))
}
