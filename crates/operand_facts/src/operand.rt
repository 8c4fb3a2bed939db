//! Operands of instructions.

ghost use Rattle.std.specs.Prelude.{◌≡◌, ◌<◌, ◌==◌, ◌&&◌, if◌then◌else◌, is_some, ℕ, ℤ, List, Option, IfOk, Some, length, slice_get, unsigned_abs};
ghost use Rattle.std.specs.Option.{option_map};
ghost use Rattle.file_tables.specs.File.{FilePart};
ghost use Rattle.machine.specs.Data.{Id};
ghost use Rattle.classes.specs.Code.{OfField, OfMethod, OfType};
ghost use Rattle.assemblies.specs.Binding.{or_unresolved};
ghost use Rattle.world_rows.specs.Tokens.{literals, number_of, table_of};
ghost use Rattle.world_rows.specs.World.{ecma_sources};
ghost use Rattle.verify_ops.specs.declared.facts.Operand.TheVariants as operand;
ghost use Rattle.file_tables.specs.Heaps.{user_string_at};
ghost use Rattle.member_keys.specs.Seen.{class_seen};
ghost use Rattle.member_references.specs.Resolved.{field_id, field_resolved, method_id, method_resolved};
ghost use Rattle.operand_facts.specs.Named.{type_meant};
ghost use Rattle.operand_facts.specs.Operands.{OperandTold, operand_of};

use crate::types::find_type;
use cil_opcodes::shape::Operand as Kind;
use cil_tables::Tables;
use cil_world::World;
use ecma_types::id::{FieldId, MethodId};
use ecma_types::stack::PlaceType;
use member_keys::ClassId;
use method_facts::{field_operand, method_operand, place_type};
use plain_types::fault::NoMemory;
use type_names::split_token;
use verify_ops::facts::Operand;

/// The table of a token of a literal (ECMA-335 III.4.16).
const LITERALS: u8 = 0x70;

/// A field's row from 0.
#[tactic(auto, using(crate::proofs::RowLaws::from_one))]
fn field_row(field: FieldId) -> ClassId
    requires { 0 < field.row }
    ensures { (c : Id) → field ≡ field_id c → class_seen result ≡ c }
{
    ClassId {
        file: u32::from(field.file),
        row: field.row - 1,
    }
}

/// A method's row from 0.
#[tactic(auto, using(crate::proofs::RowLaws::from_one))]
fn method_row(method: MethodId) -> ClassId
    requires { 0 < method.row }
    ensures { (c : Id) → method ≡ method_id c → class_seen result ≡ c }
{
    ClassId {
        file: u32::from(method.file),
        row: method.row - 1,
    }
}

/// The field that a token names.
fn find_field(world: &World<'_>, file: u16, token: u32) -> Option<ClassId>
    requires { file < length world.now }
    ensures { option_map class_seen result ≡ field_resolved world.now file token }
{
    match world.resolve_field(file, token) {
        Ok(field) => Some(field_row(field)),
        Err(_) => None,
    }
}

/// The method that a token names.
fn find_method(world: &World<'_>, file: u16, token: u32) -> Option<ClassId>
    requires { file < length world.now }
    ensures { option_map class_seen result ≡ method_resolved world.now file token }
{
    match world.resolve_method(file, token) {
        Ok(method) => Some(method_row(method)),
        Err(_) => None,
    }
}

/// What is known of the type that a token names.
fn read_type<'s>(world: &World<'_>, file: u16, token: u32) -> Result<Operand<'s>, NoMemory>
    requires { file < length world.now }
    ensures { IfOk result (λ known. (arrays : Option Id) → OperandTold (ecma_sources world.now).classes arrays (or_unresolved OfType (type_meant world.now file token)) known) }
{
    match find_type(world.names(), file, token) {
        Some(key) => Ok(Operand::OfType(place_type(world.classes(), key)?)),
        None => Ok(Operand::Unresolved),
    }
}

/// What is known of the field that a token names.
fn read_field<'s>(world: &World<'_>, file: u16, token: u32) -> Result<Operand<'s>, NoMemory>
    requires { file < length world.now }
    ensures { IfOk result (λ known. (arrays : Option Id) → OperandTold (ecma_sources world.now).classes arrays (or_unresolved OfField (field_resolved world.now file token)) known) }
{
    let Some(field) = find_field(world, file, token) else {
        return Ok(Operand::Unresolved);
    };
    match field_operand(world.classes(), field)? {
        Some(known) => Ok(Operand::Field(known)),
        None => Ok(Operand::Unresolved),
    }
}

/// What is known of the method that a token names.
fn read_method<'s>(
    world: &World<'_>,
    array: Option<ClassId>,
    file: u16,
    token: u32,
    scratch: &'s mut Vec<PlaceType>,
) -> Result<Operand<'s>, NoMemory>
    requires { file < length world.now }
    ensures { IfOk result (OperandTold (ecma_sources world.now).classes (option_map class_seen array) (or_unresolved OfMethod (method_resolved world.now file token))) }
{
    let Some(method) = find_method(world, file, token) else {
        return Ok(Operand::Unresolved);
    };
    match method_operand(world.classes(), array, method, scratch)? {
        Some(known) => Ok(Operand::Method(known)),
        None => Ok(Operand::Unresolved),
    }
}

/// What is known of the literal that a token names (ECMA-335 II.24.2.4).
fn read_text<'s>(tables: &Tables<'_>, token: u32) -> Operand<'s>
    ensures { result ≡ (if (table_of token == literals) && is_some (user_string_at tables.now.user_strings (number_of token)) then operand.Text else operand.Unresolved) }
{
    let at = split_token(token);
    if at.table == LITERALS && tables.user_string(at.row).is_some() {
        Operand::Text
    } else {
        Operand::Unresolved
    }
}

/// What is known of an instruction's operand: of a token the type, the field, the method or the text that it names in its file, and
/// [`Operand::Unresolved`] exactly where it names nothing, or a member whose signature has no form or names a type that isn't there.
/// `array` is the class of arrays, of which `newobj` makes no object (ECMA-335 III.4.21). `kind` is the operand's (III.1.9), `token` its
/// number where it is a token. The types of a method's parameters are written into `scratch`, which needs no memory once it has grown.
///
/// # Errors
///
/// [`NoMemory`] where the host has none left.
pub fn read_operand<'s>(
    world: &World<'_>,
    array: Option<ClassId>,
    file: u16,
    kind: Kind,
    token: u32,
    scratch: &'s mut Vec<PlaceType>,
) -> Result<Operand<'s>, NoMemory>
    requires { file < length world.now }
    ensures { IfOk result (λ known. (f : FilePart) (code : List ℕ) (at next : ℕ) (n : ℤ) → slice_get world.now file ≡ Some f → unsigned_abs n ≡ token → OperandTold (ecma_sources world.now).classes (option_map class_seen array) (operand_of world.now file f code at next kind n) known) }
{
    match kind {
        Kind::TypeToken => read_type(world, file, token),
        Kind::FieldToken | Kind::AnyToken => read_field(world, file, token),
        Kind::MethodToken => read_method(world, array, file, token, scratch),
        Kind::StringToken => Ok(read_text(world.tables(file), token)),
        _ => Ok(Operand::Nothing),
    }
}
