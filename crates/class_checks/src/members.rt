//! Rules on fields and methods (ECMA-335 II.22.15, II.22.26).

ghost use Rattle.std.specs.Prelude.{◌≡◌, ℕ, ◌&&◌, codes, nat_le, not};
ghost use Rattle.machine.specs.Texts.{same_text};
ghost use Rattle.machine_typed.specs.Typing.{has_body};
ghost use Rattle.classes.specs.Listed.{is_constructor};
ghost use Rattle.member_keys.specs.Seen.{class_seen, signature_seen};
ghost use Rattle.class_table.specs.declared.rows.FileRows.{FileRows};
ghost use Rattle.class_table.specs.Seen.{body_seen, classes_seen, field_seen, method_seen, row_seen};
ghost use Rattle.class_rules.specs.Rules.{is_initialiser_name, is_native, is_none_there, is_void, only_if, initialiser_fits, constructor_fits, field_stands_well, method_stands_well};
ghost use Rattle.class_checks.specs.Setting.{IsSetting};
ghost use Rattle.class_checks.specs.Bodies.{with_body, flags_fit, name_fits};

use crate::places::is_user;
use crate::setting::Setting;
use crate::signatures::is_data_type;
use crate::supers::under_object;
use class_table::{Body, ClassRow, FieldKind, FieldRow, MethodRow};
use member_keys::{ClassId, SignatureKey};

/// The number of the last native.
const LAST_NATIVE: u16 = 17;

/// Whether a field may stand in its class: an interface has no instance fields, and a value type of the user's that is no enum only
/// literals and data.
pub fn field_stands_well(class: ClassId, row: &ClassRow<'_>, field: &FieldRow<'_>) -> bool
    ensures { (f : FileRows) (file n : ℕ) → result ≡ field_stands_well (class_seen class) (row_seen class.file f row.now) (field_seen file n field.now) }
{
    match field.kind {
        FieldKind::Instance => !row.is_interface && !is_data_type(class, row.kind),
        FieldKind::Static => !is_data_type(class, row.kind),
        FieldKind::Literal | FieldKind::Data(_) => true,
    }
}

/// Whether there is a native of a number.
fn is_native_number(number: u16) -> bool
    ensures { result ≡ (nat_le 1 number && nat_le number 17) }
{
    1 <= number && number <= LAST_NATIVE
}

/// Whether a body is one of the base library's natives.
#[tactic(auto, using(crate::proofs::BodyLaws::native_by_number))]
fn is_native(body: Body) -> bool
    ensures { result ≡ is_native (body_seen body) }
{
    match body {
        Body::Native(number) => is_native_number(number),
        Body::Code | Body::Missing => false,
    }
}

/// Whether there is a body.
#[tactic(auto, using(crate::proofs::BodyLaws::body_by_number))]
fn has_body(body: Body) -> bool
    ensures { result ≡ has_body (body_seen body) }
{
    match body {
        Body::Code => true,
        Body::Native(number) => is_native_number(number),
        Body::Missing => false,
    }
}

/// Whether it is an instance method's signature without a result.
fn is_constructor_signature(signature: &SignatureKey) -> bool
    ensures { result ≡ ((signature_seen signature.now).has_this && is_void (signature_seen signature.now).returns) }
{
    signature.has_this && signature.returns.is_none()
}

/// Whether a method may be a constructor of its class (ECMA-335 II.10.5.1).
fn constructor_fits(
    setting: &Setting<'_, '_>,
    class: ClassId,
    row: &ClassRow<'_>,
    method: &MethodRow<'_>,
) -> bool
    requires { IsSetting setting.now }
    ensures { (f : FileRows) (file n : ℕ) → result ≡ constructor_fits (classes_seen setting.now.table.now) (class_seen class) (row_seen class.file f row.now) (method_seen file n method.now) }
{
    match &method.signature {
        Some(signature) => {
            !method.is_static
                && !method.is_virtual
                && is_constructor_signature(signature)
                && (row.is_interface || under_object(setting, class))
        }
        None => false,
    }
}

/// Whether it is a static method's signature without parameters and result.
fn is_initialiser_signature(signature: &SignatureKey) -> bool
    ensures { result ≡ (not (signature_seen signature.now).has_this && (is_none_there (signature_seen signature.now).parameters && is_void (signature_seen signature.now).returns)) }
{
    !signature.has_this && signature.parameters.is_empty() && signature.returns.is_none()
}

/// Whether a method may be an initialiser of its class (ECMA-335 II.10.5.3).
fn initialiser_fits(method: &MethodRow<'_>) -> bool
    ensures { (file n : ℕ) → result ≡ initialiser_fits (method_seen file n method.now) }
{
    match &method.signature {
        Some(signature) => method.is_static && is_initialiser_signature(signature),
        None => false,
    }
}

/// Whether a method's flags and its body fit one another and its class (ECMA-335 II.22.26).
fn flags_fit(class: ClassId, row: &ClassRow<'_>, method: &MethodRow<'_>, body: Body) -> bool
    ensures { (f : FileRows) (file n : ℕ) → result ≡ flags_fit (class_seen class) (row_seen class.file f row.now) (with_body (body_seen body) (method_seen file n method.now)) }
{
    let has_body = has_body(body);
    !(is_user(class) && is_native(body))
        && !(method.is_static && method.is_virtual)
        && (!method.is_abstract || method.is_virtual)
        && (!method.is_abstract || row.is_abstract)
        && has_body != method.is_abstract
}

/// Whether a method has the name of constructors.
fn is_constructor(method: &MethodRow<'_>) -> bool
    ensures { result ≡ same_text method.now.name.now (codes ".ctor") }
{
    method.name == ".ctor"
}

/// Whether a method that has the name of constructors may be one.
fn constructor_name_fits(
    setting: &Setting<'_, '_>,
    class: ClassId,
    row: &ClassRow<'_>,
    method: &MethodRow<'_>,
) -> bool
    requires { IsSetting setting.now }
    ensures { (f : FileRows) (file n : ℕ) → result ≡ only_if (is_constructor (method_seen file n method.now)) (constructor_fits (classes_seen setting.now.table.now) (class_seen class) (row_seen class.file f row.now) (method_seen file n method.now)) }
{
    if is_constructor(method) {
        constructor_fits(setting, class, row, method)
    } else {
        true
    }
}

/// Whether a method has the name of initialisers.
fn is_initialiser(method: &MethodRow<'_>) -> bool
    ensures { result ≡ same_text method.now.name.now (codes ".cctor") }
{
    method.name == ".cctor"
}

/// Whether a method that has the name of initialisers may be one.
fn initialiser_name_fits(method: &MethodRow<'_>) -> bool
    ensures { (file n : ℕ) → result ≡ only_if (is_initialiser_name (method_seen file n method.now)) (initialiser_fits (method_seen file n method.now)) }
{
    if is_initialiser(method) {
        initialiser_fits(method)
    } else {
        true
    }
}

/// Whether a method may have its name.
fn name_fits(
    setting: &Setting<'_, '_>,
    class: ClassId,
    row: &ClassRow<'_>,
    method: &MethodRow<'_>,
) -> bool
    requires { IsSetting setting.now }
    ensures { (f : FileRows) (file n : ℕ) → result ≡ name_fits (classes_seen setting.now.table.now) (class_seen class) (row_seen class.file f row.now) (method_seen file n method.now) }
{
    constructor_name_fits(setting, class, row, method) && initialiser_name_fits(method)
}

/// Whether a method may stand in its class, with a body (ECMA-335 II.22.26).
pub fn method_stands_well(
    setting: &Setting<'_, '_>,
    class: ClassId,
    row: &ClassRow<'_>,
    method: &MethodRow<'_>,
    body: Body,
) -> bool
    requires { IsSetting setting.now }
    ensures { (f : FileRows) (file n : ℕ) → result ≡ method_stands_well (classes_seen setting.now.table.now) (class_seen class) (row_seen class.file f row.now) (with_body (body_seen body) (method_seen file n method.now)) }
{
    flags_fit(class, row, method, body) && name_fits(setting, class, row, method)
}
