//! Rules on the types in signatures (ECMA-335 II.23.2).

ghost use Rattle.std.specs.Prelude.{◌≡◌, ℕ, is_some};
ghost use Rattle.std.specs.Option.{option_map};
ghost use Rattle.std.specs.List.{list_all};
ghost use Rattle.machine.specs.Data.{elem_cell};
ghost use Rattle.classes.specs.Queries.{kind_of};
ghost use Rattle.member_keys.specs.Seen.{class_seen, element_seen, type_seen, signature_seen};
ghost use Rattle.class_table.specs.Seen.{classes_seen, kind_seen, field_kind_seen, field_seen, method_seen};
ghost use Rattle.class_rules.specs.Rules.{holds_some, sig_fits, data_sig_fits, is_handle, is_data_type, is_data_kind, result_fits, field_signature_fits, signature_fits, method_signature_fits};
ghost use Rattle.class_checks.specs.Parameters.{place_fits};
ghost use Rattle.class_checks.specs.Setting.{IsSetting};

use crate::places::{is_number_class, is_reference_class, is_user};
use crate::setting::Setting;
use crate::supers::is_class;
use class_queries::kind;
use class_table::{ClassTable, FieldKind, FieldRow, MethodRow, TypeKind};
use member_keys::{ClassId, ElementKey, PlaceKey, SignatureKey, TypeKey};
use plain_types::elem::Elem;

/// Whether places may be of an element that stands alone.
fn has_cell(elem: Elem) -> bool
    ensures { result ≡ is_some (elem_cell elem) }
{
    !matches!(elem, Elem::Void | Elem::Class | Elem::Value)
}

/// Whether an element may stand in a signature.
fn element_fits(table: &ClassTable<'_>, element: ElementKey) -> bool
    ensures { result ≡ sig_fits (classes_seen table.now) (element_seen element) }
{
    match element {
        ElementKey::Spelt(elem) => has_cell(elem),
        ElementKey::Class(class) => is_reference_class(table, class),
        ElementKey::Value(class) => is_number_class(table, class),
    }
}

/// Whether a type may stand in a signature: a class or an interface behind 12, an enum or a primitive behind 11.
#[tactic(auto, using(crate::proofs::TypeLaws::inside_fits))]
pub fn sig_fits(table: &ClassTable<'_>, of: TypeKey) -> bool
    ensures { result ≡ sig_fits (classes_seen table.now) (type_seen of) }
{
    element_fits(table, of.element)
}

/// Whether a class is a value type of the user's that is no enum.
pub fn is_data_type(class: ClassId, kind: TypeKind) -> bool
    ensures { result ≡ is_data_type (class_seen class) (kind_seen kind) }
{
    match kind {
        TypeKind::OtherValue => is_user(class),
        _ => false,
    }
}

/// The same of a class that the table has.
fn is_data_class(table: &ClassTable<'_>, class: ClassId) -> bool
    ensures { result ≡ holds_some (kind_of (classes_seen table.now) (class_seen class)) (is_data_type (class_seen class)) }
{
    match kind(table, class) {
        Some(kind) => is_data_type(class, kind),
        None => false,
    }
}

/// Whether an element may stand in the signature of a field with data.
fn data_element_fits(table: &ClassTable<'_>, element: ElementKey) -> bool
    ensures { result ≡ data_sig_fits (classes_seen table.now) (element_seen element) }
{
    match element {
        ElementKey::Value(class) => is_number_class(table, class) || is_data_class(table, class),
        _ => element_fits(table, element),
    }
}

/// Whether a type may stand in the signature of a field with data.
#[tactic(auto, using(crate::proofs::TypeLaws::inside_data_fits))]
pub fn data_sig_fits(table: &ClassTable<'_>, of: TypeKey) -> bool
    ensures { result ≡ data_sig_fits (classes_seen table.now) (type_seen of) }
{
    data_element_fits(table, of.element)
}

/// Whether an element is System.RuntimeFieldHandle.
fn is_handle_element(setting: &Setting<'_, '_>, element: ElementKey) -> bool
    requires { IsSetting setting.now }
    ensures { result ≡ is_handle (classes_seen setting.now.table.now) (element_seen element) }
{
    match element {
        ElementKey::Value(class) => is_class(setting.library.handle, class),
        _ => false,
    }
}

/// Whether a type is System.RuntimeFieldHandle, inside of arrays or not.
#[tactic(auto, using(crate::proofs::TypeLaws::inside_is_handle))]
pub fn is_handle(setting: &Setting<'_, '_>, of: TypeKey) -> bool
    requires { IsSetting setting.now }
    ensures { result ≡ is_handle (classes_seen setting.now.table.now) (type_seen of) }
{
    is_handle_element(setting, of.element)
}

/// Whether a field has data.
fn has_data(field: &FieldRow<'_>) -> bool
    ensures { result ≡ is_data_kind (field_kind_seen field.now.kind) }
{
    matches!(field.kind, FieldKind::Data(_))
}

/// Whether a field's signature has a form, and a type that it may have.
pub fn field_signature_fits(table: &ClassTable<'_>, field: &FieldRow<'_>) -> bool
    ensures { (file n : ℕ) → result ≡ field_signature_fits (classes_seen table.now) (field_seen file n field.now) }
{
    match field.signature {
        Some(of) => {
            if has_data(field) {
                data_sig_fits(table, of)
            } else {
                sig_fits(table, of)
            }
        }
        None => false,
    }
}

/// Whether a method may give it.
fn result_fits(table: &ClassTable<'_>, returns: Option<TypeKey>) -> bool
    ensures { result ≡ result_fits (classes_seen table.now) (option_map type_seen returns) }
{
    match returns {
        Some(of) => sig_fits(table, of),
        None => true,
    }
}

/// Whether a method of a class may take it: a handle only in the first file.
#[tactic(auto, using(crate::proofs::TypeLaws::inside_place), unfolding(crate::specs::Parameters::place_fits))]
fn parameter_fits(setting: &Setting<'_, '_>, class: ClassId, place: PlaceKey) -> bool
    requires { IsSetting setting.now }
    ensures { result ≡ place_fits (classes_seen setting.now.table.now) class.file place }
{
    sig_fits(setting.table, place.of) || (class.file == 0 && is_handle(setting, place.of))
}

/// Whether a method of a class may take them all.
fn parameters_fit(setting: &Setting<'_, '_>, class: ClassId, places: &[PlaceKey]) -> bool
    requires { IsSetting setting.now }
    ensures { result ≡ list_all (place_fits (classes_seen setting.now.table.now) class.file) places.now }
{
    for place in places {
        if !parameter_fits(setting, class, *place) {
            return false;
        }
    }
    true
}

/// Whether a method of a class may have the signature.
pub fn signature_fits(setting: &Setting<'_, '_>, class: ClassId, signature: &SignatureKey) -> bool
    requires { IsSetting setting.now }
    ensures { result ≡ signature_fits (classes_seen setting.now.table.now) (class_seen class) (signature_seen signature.now) }
{
    result_fits(setting.table, signature.returns)
        && parameters_fit(setting, class, &signature.parameters)
}

/// Whether a method's signature has a form, and one that a method of the class may have.
pub fn method_signature_fits(
    setting: &Setting<'_, '_>,
    class: ClassId,
    method: &MethodRow<'_>,
) -> bool
    requires { IsSetting setting.now }
    ensures { (file n : ℕ) → result ≡ method_signature_fits (classes_seen setting.now.table.now) (class_seen class) (method_seen file n method.now) }
{
    match &method.signature {
        Some(signature) => signature_fits(setting, class, signature),
        None => false,
    }
}
