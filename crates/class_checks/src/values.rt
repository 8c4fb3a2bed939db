//! Rules on value types (ECMA-335 II.13, II.14.3).

ghost use Rattle.std.specs.Prelude.{◌≡◌};
ghost use Rattle.std.specs.Option.{option_copied, option_map};
ghost use Rattle.classes.specs.Queries.{fields_of, is_integer, own_instance_fields};
ghost use Rattle.assemblies.specs.Binding.{range};
ghost use Rattle.member_keys.specs.Seen.{class_seen, type_seen};
ghost use Rattle.class_table.specs.Seen.{classes_seen, kind_seen};
ghost use Rattle.class_rules.specs.Rules.{is_none_there, is_one_of, is_spelt, value_well};
ghost use Rattle.class_checks.specs.Fields.{AreInstances, found_rows, is_instance_row, own_rows};

use crate::places::{is_same_elem, is_user};
use class_table::{ClassTable, FieldKind, FieldRow, TypeKind};
use member_keys::{ClassId, ElementKey, TypeKey};
use plain_types::elem::Elem;

/// How many instance fields there are, and what the last one's signature is.
#[derive(Clone, Copy, Debug)]
struct Instances {
    count: usize,
    last: Option<TypeKey>,
}

/// The rows of a range, as far as they are there.
fn row_range<'t, 'a>(fields: &'t [FieldRow<'a>], first: u32, count: u32) -> &'t [FieldRow<'a>]
    ensures { result.now ≡ range first count fields.now }
{
    let (_, rest) = fields.split_at(fields.len().min(first as usize));
    let (own, _) = rest.split_at(rest.len().min(count as usize));
    own
}

/// The fields of a class; `None` where the table has no such class.
fn own_fields<'t, 'a>(table: &'t ClassTable<'a>, class: ClassId) -> Option<&'t [FieldRow<'a>]>
    ensures { option_copied result ≡ found_rows table.now (class_seen class) }
{
    let file = table.files.get(class.file as usize)?;
    let row = file.classes.get(class.row as usize)?;
    Some(row_range(&file.fields, row.first_field, row.field_count))
}

/// Whether a field is one of each instance.
fn is_instance(field: &FieldRow<'_>) -> bool
    ensures { result ≡ is_instance_row field.now }
{
    matches!(field.kind, FieldKind::Instance)
}

/// The instance fields among fields.
fn find_instances(fields: &[FieldRow<'_>]) -> Instances
    ensures { AreInstances fields.now result }
{
    let mut found = Instances {
        count: 0,
        last: None,
    };
    for field in fields {
        if is_instance(field) {
            found.count += 1;
            found.last = field.signature;
        }
    }
    found
}

/// The instance fields of a class.
fn class_instances(table: &ClassTable<'_>, class: ClassId) -> Instances
    ensures { AreInstances (own_rows table.now (class_seen class)) result }
{
    match own_fields(table, class) {
        Some(fields) => find_instances(fields),
        None => Instances {
            count: 0,
            last: None,
        },
    }
}

/// Whether a class has no fields of its own.
#[tactic(auto, using(crate::proofs::FieldLaws::fields_none))]
pub fn has_no_field(table: &ClassTable<'_>, class: ClassId) -> bool
    ensures { result ≡ is_none_there (fields_of (classes_seen table.now) (class_seen class)) }
{
    match own_fields(table, class) {
        Some(fields) => fields.is_empty(),
        None => true,
    }
}

/// Whether a class has no instance fields of its own.
pub fn has_no_instance_field(table: &ClassTable<'_>, class: ClassId) -> bool
    ensures { result ≡ is_none_there (own_instance_fields (classes_seen table.now) (class_seen class)) }
{
    class_instances(table, class).count == 0
}

/// Whether a signature is that of an element alone.
#[tactic(auto, using(crate::proofs::FieldLaws::spelt_inside))]
fn is_spelt(elem: Elem, signature: Option<TypeKey>) -> bool
    ensures { result ≡ is_spelt elem (option_map type_seen signature) }
{
    match signature {
        Some(
            TypeKey {
                ranks: 0,
                element: ElementKey::Spelt(spelt),
            },
        ) => is_same_elem(elem, spelt),
        _ => false,
    }
}

/// Whether a class has one instance field of its own, and that of an element.
fn has_one_of(table: &ClassTable<'_>, class: ClassId, elem: Elem) -> bool
    ensures { result ≡ is_one_of elem (own_instance_fields (classes_seen table.now) (class_seen class)) }
{
    let found = class_instances(table, class);
    found.count == 1 && is_spelt(elem, found.last)
}

/// Whether an enum may have numbers of an element.
fn is_integer(elem: Elem) -> bool
    ensures { result ≡ is_integer elem }
{
    matches!(
        elem,
        Elem::I1 | Elem::U1 | Elem::I2 | Elem::U2 | Elem::I4 | Elem::U4 | Elem::I8 | Elem::U8
    )
}

/// Whether the fields of a class are those of its kind: an enum has one integer as its instance field, another value type of the
/// user's has none.
pub fn value_well(table: &ClassTable<'_>, class: ClassId, kind: TypeKind) -> bool
    ensures { result ≡ value_well (classes_seen table.now) (class_seen class) (kind_seen kind) }
{
    match kind {
        TypeKind::Enumeration(elem) => is_integer(elem) && has_one_of(table, class, elem),
        TypeKind::OtherValue => !is_user(class) || has_no_instance_field(table, class),
        TypeKind::Reference | TypeKind::Builtin(_) => true,
    }
}
