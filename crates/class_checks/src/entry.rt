//! Rules on the entry (ECMA-335 II.15.4.1.2).

ghost use Rattle.std.specs.Prelude.{◌≡◌, ℕ, ◌&&◌, Some, [], ◌∷◌, map};
ghost use Rattle.std.specs.Option.{option_copied, option_map};
ghost use Rattle.machine.specs.Data.{Basic, type_eq};
ghost use Rattle.machine.specs.Trace.{strings};
ghost use Rattle.classes.specs.Queries.{type_of, type_of_class};
ghost use Rattle.assemblies.specs.Binding.{holds};
ghost use Rattle.member_keys.specs.Seen.{class_seen, element_seen, type_seen, place_seen, signature_seen};
ghost use Rattle.class_table.specs.Seen.{classes_seen, method_seen};
ghost use Rattle.class_queries.specs.Found.{found_row};
ghost use Rattle.class_rules.specs.Rules.{holds_some, is_main, main_gives, main_takes};
ghost use Rattle.class_checks.specs.Entry.{entry_test, is_main_signature, method_found};

use crate::places::{is_same_elem, is_user};
use class_queries::{find_class, kind};
use class_table::{ClassRow, ClassTable, MethodRow, TypeKind};
use member_keys::{ClassId, ElementKey, PlaceKey, SignatureKey, TypeKey};
use plain_types::elem::Elem;

/// Whether places of a class are of an element.
fn is_builtin(table: &ClassTable<'_>, class: ClassId, wanted: Elem) -> bool
    ensures { result ≡ type_eq (type_of_class (classes_seen table.now) (class_seen class)) (Basic wanted) }
{
    match kind(table, class) {
        Some(TypeKind::Builtin(elem)) => is_same_elem(elem, wanted),
        _ => false,
    }
}

/// Whether places of a type without arrays are of an element.
fn is_basic(table: &ClassTable<'_>, element: ElementKey, wanted: Elem) -> bool
    ensures { result ≡ type_eq (type_of (classes_seen table.now) (element_seen element)) (Basic wanted) }
{
    match element {
        ElementKey::Spelt(elem) => is_same_elem(elem, wanted),
        ElementKey::Class(class) | ElementKey::Value(class) => is_builtin(table, class, wanted),
    }
}

/// Whether a type is an array of strings.
#[tactic(auto, using(crate::proofs::EntryLaws::takes_inside))]
fn is_text_array(table: &ClassTable<'_>, of: TypeKey) -> bool
    ensures { result ≡ type_eq (type_of (classes_seen table.now) (type_seen of)) strings }
{
    of.ranks == 1 && is_basic(table, of.element, Elem::String)
}

/// Whether the entry may take one parameter: an array of strings.
#[tactic(auto, using(crate::proofs::EntryLaws::text_place))]
fn is_text_place(table: &ClassTable<'_>, place: PlaceKey) -> bool
    ensures { result ≡ main_takes (classes_seen table.now) (place_seen place ∷ []) }
{
    !place.by_ref && is_text_array(table, place.of)
}

/// Whether the entry may take them: none, or an array of strings.
fn main_takes(table: &ClassTable<'_>, parameters: &[PlaceKey]) -> bool
    ensures { result ≡ main_takes (classes_seen table.now) (map place_seen parameters.now) }
{
    match parameters {
        [] => true,
        [place] => is_text_place(table, *place),
        _ => false,
    }
}

/// Whether the entry may give it: nothing, or an `int`.
#[tactic(auto, using(crate::proofs::EntryLaws::gives_inside))]
fn main_gives(table: &ClassTable<'_>, returns: Option<TypeKey>) -> bool
    ensures { result ≡ main_gives (classes_seen table.now) (option_map type_seen returns) }
{
    match returns {
        Some(of) => of.ranks == 0 && is_basic(table, of.element, Elem::I4),
        None => true,
    }
}

/// Whether the entry may have the signature.
fn is_main_signature(table: &ClassTable<'_>, signature: &SignatureKey) -> bool
    ensures { result ≡ is_main_signature (classes_seen table.now) (signature_seen signature.now) }
{
    !signature.has_this
        && main_takes(table, &signature.parameters)
        && main_gives(table, signature.returns)
}

/// Whether a method of a class may be the entry: a static one of the user's.
pub fn is_main(table: &ClassTable<'_>, owner: ClassId, method: &MethodRow<'_>) -> bool
    ensures { (file n : ℕ) → result ≡ is_main (classes_seen table.now) (class_seen owner) (method_seen file n method.now) }
{
    match &method.signature {
        Some(signature) => {
            is_user(owner) && method.is_static && is_main_signature(table, signature)
        }
        None => false,
    }
}

/// Whether a class has the method of a row.
fn has_method(class: &ClassRow<'_>, row: u32) -> bool
    ensures { result ≡ holds class.now.first_method class.now.method_count row }
{
    class.first_method <= row && row - class.first_method < class.method_count
}

/// Whether a class has the method of a row, and that may be the entry there.
fn begins_at(table: &ClassTable<'_>, owner: ClassId, row: u32, method: &MethodRow<'_>) -> bool
    ensures { (file n : ℕ) → result ≡ holds_some (found_row table.now (class_seen owner)) (λ k. holds k.first_method k.method_count row && is_main (classes_seen table.now) (class_seen owner) (method_seen file n method.now)) }
{
    match find_class(table, owner) {
        Some(class) => has_method(class, row) && is_main(table, owner, method),
        None => false,
    }
}

/// The row of a method, which counts from 0 in its file.
fn find_method<'t, 'a>(table: &'t ClassTable<'a>, place: ClassId) -> Option<&'t MethodRow<'a>>
    ensures { option_copied result ≡ method_found table.now (class_seen place) }
{
    let file = table.files.get(place.file as usize)?;
    file.methods.get(place.row as usize)
}

/// Whether a method with a row is of a type, and may be the entry there.
fn method_begins(table: &ClassTable<'_>, place: ClassId, method: &MethodRow<'_>) -> bool
    requires { method_found table.now (class_seen place) ≡ Some method.now }
    ensures { result ≡ entry_test table.now (class_seen place) }
{
    match method.owner {
        Some(row) => {
            let owner = ClassId {
                file: place.file,
                row,
            };
            begins_at(table, owner, place.row, method)
        }
        None => false,
    }
}

/// Whether the method of a row, which counts from 0 in its file, is of a type, and may be the entry there (ECMA-335 II.15.4.1.2).
pub fn entry_well(table: &ClassTable<'_>, place: ClassId) -> bool
    ensures { result ≡ entry_test table.now (class_seen place) }
{
    match find_method(table, place) {
        Some(method) => method_begins(table, place, method),
        None => false,
    }
}
