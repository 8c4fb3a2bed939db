//! The natives of the base library, by type, name and signature.

ghost use Rattle.std.specs.Prelude.{◌≡◌, IfOk, List, map};
ghost use Rattle.file_tables.specs.File.{FilePart};
ghost use Rattle.world_rows.specs.Natives.{natives};
ghost use Rattle.std.specs.List.{find, position};
ghost use Rattle.std.specs.Option.{option_map};
ghost use Rattle.assemblies.specs.Binding.{all_some};
ghost use Rattle.classes.specs.Queries.{method_signature_eq, some_eq};
ghost use Rattle.member_keys.specs.Seen.{class_seen, type_seen, place_seen, signature_seen};
ghost use Rattle.class_table.specs.Seen.{body_seen};
ghost use Rattle.member_reading.specs.Data.{AreTypes};
ghost use Rattle.member_reading.specs.Natives.{native_shown, native_read, native_meant, type_shown, is_class, is_native, body_of, type_named, place_of_native, signature_of_native, AreNatives, knows, known_in};

use crate::data::Types;
use class_table::{Body, ClassRow};
use file_tables::numbers::TYPE_DEF;
use member_keys::{ClassId, ElementKey, PlaceKey, SignatureKey, TypeKey};
use plain_types::elem::Elem;
use plain_types::fault::NoMemory;
use std::alloc::Global;

/// A type in the signature of a native.
#[derive(Clone, Copy)]
pub enum NativeType {
    Plain(Elem),
    Characters,
    AnyArray,
    FieldHandle,
}

/// A native as the base library has it.
#[derive(Drop)]
pub struct NativeRow {
    pub number: u16,
    /// The file, from 0.
    pub file: u32,
    pub namespace: &'static str,
    pub class: &'static str,
    pub name: &'static str,
    pub has_this: bool,
    pub returns: Option<Elem>,
    pub parameters: &'static [NativeType],
}

macro_rules! native {
    ($number:literal, $file:literal, $namespace:literal, $class:literal, $name:literal, $has_this:literal, $returns:expr, [$($parameter:expr),*]) => {
        NativeRow {
            number: $number,
            file: $file,
            namespace: $namespace,
            class: $class,
            name: $name,
            has_this: $has_this,
            returns: $returns,
            parameters: &[$($parameter),*],
        }
    };
}

const STRING: NativeType = NativeType::Plain(Elem::String);

const INT: NativeType = NativeType::Plain(Elem::I4);

/// The natives by their numbers from 1.
#[rattlefmt::skip]
fn native_rows() -> [NativeRow; 17]
    ensures { (files : List FilePart) → map (native_read files) result ≡ map (native_meant files) natives }
{
    [
        native!(1, 0, "System", "Object", "ToString", true, Some(Elem::String), []),
        native!(2, 0, "System", "Enum", "Equals", true, Some(Elem::Bool), [NativeType::Plain(Elem::Object)]),
        native!(3, 0, "System", "Enum", "ToString", true, Some(Elem::String), []),
        native!(4, 0, "System", "Array", "get_Length", true, Some(Elem::I4), []),
        native!(5, 0, "System", "Array", "Copy", false, None, [NativeType::AnyArray, INT, NativeType::AnyArray, INT, INT]),
        native!(6, 0, "System", "String", "get_Length", true, Some(Elem::I4), []),
        native!(7, 0, "System", "String", "get_Chars", true, Some(Elem::Char), [INT]),
        native!(8, 0, "System", "String", "Concat", false, Some(Elem::String), [STRING, STRING]),
        native!(9, 0, "System", "String", "Substring", true, Some(Elem::String), [INT, INT]),
        native!(10, 0, "System", "String", "Equals", false, Some(Elem::Bool), [STRING, STRING]),
        native!(11, 0, "System", "String", "Compare", false, Some(Elem::I4), [STRING, STRING]),
        native!(12, 0, "System", "String", "FromChars", false, Some(Elem::String), [NativeType::Characters, INT, INT]),
        native!(13, 0, "System", "String", "FromChar", false, Some(Elem::String), [NativeType::Plain(Elem::Char)]),
        native!(14, 0, "System", "Number", "Signed", false, Some(Elem::String), [NativeType::Plain(Elem::I8)]),
        native!(15, 0, "System", "Number", "Unsigned", false, Some(Elem::String), [NativeType::Plain(Elem::U8)]),
        native!(16, 0, "System.Runtime.CompilerServices", "RuntimeHelpers", "InitializeArray", false, None, [NativeType::AnyArray, NativeType::FieldHandle]),
        native!(17, 1, "Microsoft.SPOT", "Debug", "Print", false, None, [STRING]),
    ]
}

/// A native with the class and the signature that it has in a world, each `None` where a type is missing.
#[derive(Drop)]
pub struct NativeMember {
    pub number: u16,
    pub name: &'static str,
    pub owner: Option<ClassId>,
    pub signature: Option<SignatureKey>,
}

/// The classes that signatures of natives name.
#[derive(Clone, Copy)]
pub struct KnownClasses {
    pub array: Option<ClassId>,
    pub field_handle: Option<ClassId>,
}

/// The type has the namespace and the name, and is nested in none.
#[tactic(auto, using(member_keys::proofs::KeyLaws::same_bytes))]
fn is_class(row: &ClassRow<'_>, namespace: &str, name: &str) -> bool
    ensures { result ≡ is_class namespace.now name.now row.now }
{
    row.enclosing.is_none() && namespace == row.namespace && name == row.name
}

/// The first type that has a namespace and a name and is nested in none.
fn find_row(rows: &[ClassRow<'_>], namespace: &str, name: &str) -> Option<usize>
    ensures { result ≡ position (is_class namespace.now name.now) rows.now }
{
    for (n, row) in rows.iter().enumerate() {
        if is_class(row, namespace, name) {
            return Some(n);
        }
    }
    None
}

/// The first type of a file that has a namespace and a name and is nested in none.
fn find_class(types: &Types<'_, '_>, file: u32, namespace: &str, name: &str) -> Option<ClassId>
    requires { AreTypes types.now }
    ensures { option_map class_seen result ≡ type_named types.now.names.now file namespace.now name.now }
{
    let _most = types.names.files();
    let rows = types.classes.get(file as usize)?;
    let _few = types.names.tables(file as u16).rows(TYPE_DEF);
    let row = find_row(rows, namespace, name)? as u32;
    Some(ClassId { file, row })
}

/// A type of a native's signature.
fn native_type(known: KnownClasses, of: NativeType) -> Option<TypeKey>
    ensures { option_map type_seen result ≡ type_shown (knows known) of }
{
    let (ranks, element) = match of {
        NativeType::Plain(elem) => (0, ElementKey::Spelt(elem)),
        NativeType::Characters => (1, ElementKey::Spelt(Elem::Char)),
        NativeType::AnyArray => (0, ElementKey::Class(known.array?)),
        NativeType::FieldHandle => (0, ElementKey::Value(known.field_handle?)),
    };
    Some(TypeKey { ranks, element })
}

/// The parameters of a native's signature.
fn native_places(
    alloc: Global,
    known: KnownClasses,
    parameters: &[NativeType],
) -> Result<Option<Vec<PlaceKey>>, NoMemory>
    ensures { IfOk result (λ places. option_map (λ keys. map place_seen keys.items) places ≡ all_some (place_of_native (knows known)) parameters.now) }
{
    let mut places = Vec::new(alloc);
    for parameter in parameters {
        match native_type(known, *parameter) {
            Some(of) => places.push(PlaceKey { by_ref: false, of })?,
            None => return Ok(None),
        }
    }
    Ok(Some(places))
}

/// The signature of a native.
fn native_signature(
    alloc: Global,
    known: KnownClasses,
    row: &NativeRow,
) -> Result<Option<SignatureKey>, NoMemory>
    ensures { IfOk result (λ key. option_map signature_seen key ≡ signature_of_native (knows known) row.now) }
{
    let Some(parameters) = native_places(alloc, known, row.parameters)? else {
        return Ok(None);
    };
    let returns = match row.returns {
        Some(elem) => Some(TypeKey {
            ranks: 0,
            element: ElementKey::Spelt(elem),
        }),
        None => None,
    };
    Ok(Some(SignatureKey {
        has_this: row.has_this,
        returns,
        parameters,
    }))
}

/// The native of a row in a world.
fn read_native(
    alloc: Global,
    types: &Types<'_, '_>,
    known: KnownClasses,
    row: &NativeRow,
) -> Result<NativeMember, NoMemory>
    requires types { AreTypes types.now }
    requires known { knows known ≡ known_in types.now.names.now }
    ensures { IfOk result (λ native. native_shown native ≡ native_read types.now.names.now row.now) }
{
    let owner = find_class(types, row.file, row.namespace, row.class);
    let signature = native_signature(alloc, known, row)?;
    Ok(NativeMember {
        number: row.number,
        name: row.name,
        owner,
        signature,
    })
}

/// The natives of a world, each with the class and the signature that it has there.
pub fn read_natives(alloc: Global, types: &Types<'_, '_>) -> Result<Vec<NativeMember>, NoMemory>
    requires { AreTypes types.now }
    ensures { IfOk result (λ members. AreNatives types.now.names.now members.items) }
{
    let known = KnownClasses {
        array: find_class(types, 0, "System", "Array"),
        field_handle: find_class(types, 0, "System", "RuntimeFieldHandle"),
    };
    let rows = native_rows();
    let mut members = Vec::new(alloc);
    for row in &rows {
        members.push(read_native(alloc, types, known, row)?)?;
    }
    Ok(members)
}

/// Both are there, and are one class.
#[tactic(auto, using(member_keys::proofs::KeyLaws::same_class))]
fn is_same_class(a: Option<ClassId>, b: Option<ClassId>) -> bool
    ensures { result ≡ some_eq (option_map class_seen a) (option_map class_seen b) }
{
    match (a, b) {
        (Some(a), Some(b)) => a == b,
        _ => false,
    }
}

/// Both are there, and are one signature.
#[tactic(auto, using(member_keys::proofs::KeyLaws::same_signature))]
fn is_same_signature(a: &Option<SignatureKey>, b: &Option<SignatureKey>) -> bool
    ensures { result ≡ method_signature_eq (option_map signature_seen a.now) (option_map signature_seen b.now) }
{
    match (a, b) {
        (Some(a), Some(b)) => a == b,
        _ => false,
    }
}

/// The method of a name, a class and a signature is the native.
#[tactic(auto, using(member_keys::proofs::KeyLaws::same_bytes))]
fn is_native(
    native: &NativeMember,
    name: &str,
    owner: Option<ClassId>,
    signature: &Option<SignatureKey>,
) -> bool
    ensures { result ≡ is_native name.now (option_map class_seen owner) (option_map signature_seen signature.now) (native_shown native.now) }
{
    name == native.name
        && is_same_class(owner, native.owner)
        && is_same_signature(signature, &native.signature)
}

/// What an internal call is: the native of its class, name and signature, if there is one.
pub fn find_native(
    natives: &[NativeMember],
    name: &str,
    owner: Option<ClassId>,
    signature: &Option<SignatureKey>,
) -> Body
    ensures { body_seen result ≡ body_of (find (is_native name.now (option_map class_seen owner) (option_map signature_seen signature.now)) (map native_shown natives.now)) }
{
    for native in natives {
        if is_native(native, name, owner, signature) {
            return Body::Native(native.number);
        }
    }
    Body::Missing
}
