//! Methods as operands.

ghost use Rattle.std.specs.Prelude.{◌≡◌, is_some, not};
ghost use Rattle.std.specs.Option.{option_map};
ghost use Rattle.class_rules.specs.Rules.{holds_some};
ghost use Rattle.classes.specs.Code.{OfMethod};
ghost use Rattle.code_rules.specs.Verdict.{is_callable, names_method};
ghost use Rattle.board_model.specs.Bound.{bound_classes};
ghost use Rattle.class_table.specs.Seen.{classes_seen};
ghost use Rattle.member_keys.specs.Seen.{class_seen, signature_seen};
ghost use Rattle.set_names.specs.Names.{seen_all};

use bound_answers::BoundSet;
use class_checks::is_reference_class;
use class_table::{ClassTable, MethodRow};
use class_targets::owned_method;
use member_keys::ClassId;

/// Whether a method's signature has `this`.
fn has_this(row: &MethodRow<'_>) -> bool
    ensures { result ≡ holds_some (option_map signature_seen row.now.signature) (λ s. s.has_this) }
{
    match &row.signature {
        Some(signature) => signature.has_this,
        None => false,
    }
}

/// Whether a method of a table isn't abstract.
fn is_concrete(table: &ClassTable<'_>, method: ClassId) -> bool
    ensures { result ≡ names_method (classes_seen table.now) (λ owner m. not m.is_abstract) (OfMethod (class_seen method)) }
{
    match owned_method(table, method) {
        Some(owned) => !owned.row.is_abstract,
        None => false,
    }
}

/// Whether a method of a table is an instance's whose class has references for its places.
fn is_virtually_callable(table: &ClassTable<'_>, method: ClassId) -> bool
    ensures { let cs = classes_seen table.now in result ≡ names_method cs (is_callable cs) (OfMethod (class_seen method)) }
{
    match owned_method(table, method) {
        Some(owned) => {
            let has_this = has_this(owned.row);
            let is_reference = is_reference_class(table, owned.owner);
            !owned.row.is_static && (has_this && is_reference)
        }
        None => false,
    }
}

/// Whether `call` takes a method: one that isn't abstract (III.3.19).
pub fn may_call(set: &BoundSet<'_, '_, '_, '_>, method: ClassId) -> bool
    ensures { result ≡ names_method (bound_classes (seen_all set.now)) (λ owner m. not m.is_abstract) (OfMethod (class_seen method)) }
{
    is_concrete(set.types().table(), method)
}

/// Whether `callvirt` takes a method: one of instances of a class that isn't a value type (III.4.2).
pub fn may_call_virtual(set: &BoundSet<'_, '_, '_, '_>, method: ClassId) -> bool
    ensures { let cs = bound_classes (seen_all set.now) in result ≡ names_method cs (is_callable cs) (OfMethod (class_seen method)) }
{
    is_virtually_callable(set.types().table(), method)
}
