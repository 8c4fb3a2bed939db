//! The parts that a type keeps: its instance fields (ECMA-335 II.22.37) and its initialiser (II.10.5.3).

ghost use Rattle.std.specs.Prelude.{◌≡◌, OnOk};
ghost use Rattle.row_rules.specs.Links.{row_at, keeps_each, Adds};
ghost use Rattle.member_rules.specs.Members.{is_instance, is_initialiser, parts_of, part_links, passing_rows};
ghost use Rattle.kept_rules.specs.Row.{FieldAt, MethodAt};

use crate::places::{keep_if, range, row_place};
use class_table::{ClassRow, FieldKind, FieldRow, FileRows, MethodRow};
use plain_types::fault::NoMemory;
use row_numbers::Table;
use row_rules::{RowPlace, RowRules};

/// Whether a field is one of each instance (ECMA-335 II.23.1.5).
fn is_instance(field: &FieldRow<'_>) -> bool
    ensures { result ≡ is_instance field.now }
{
    matches!(field.kind, FieldKind::Instance)
}

/// Whether a method initialises its type (ECMA-335 II.10.5.3).
fn is_initialiser(method: &MethodRow<'_>) -> bool
    ensures { result ≡ is_initialiser method.now }
{
    method.is_static && method.name == ".cctor"
}

/// Adds that a type keeps those of its fields that each instance has.
fn keep_instance_fields(
    rules: &mut RowRules,
    place: RowPlace,
    fields: &[FieldRow<'_>],
    first: u32,
) -> Result<(), NoMemory>
    ensures { OnOk result (Adds (keeps_each (row_at place) (passing_rows (FieldAt place.file) is_instance first fields.now)) rules.old rules.new) }
{
    for n in 0..fields.len() {
        let field = row_place(place.file, Table::Field, first as usize + n)?;
        keep_if(rules, place, is_instance(&fields[n]), field)?;
    }
    Ok(())
}

/// Adds that a type keeps those of its methods that initialise it.
fn keep_initialisers(
    rules: &mut RowRules,
    place: RowPlace,
    methods: &[MethodRow<'_>],
    first: u32,
) -> Result<(), NoMemory>
    ensures { OnOk result (Adds (keeps_each (row_at place) (passing_rows (MethodAt place.file) is_initialiser first methods.now)) rules.old rules.new) }
{
    for n in 0..methods.len() {
        let method = row_place(place.file, Table::MethodDef, first as usize + n)?;
        keep_if(rules, place, is_initialiser(&methods[n]), method)?;
    }
    Ok(())
}

/// Adds that a type keeps its instance fields and its initialisers.
fn keep_parts(
    rules: &mut RowRules,
    place: RowPlace,
    rows: &FileRows<'_>,
    class: &ClassRow<'_>,
) -> Result<(), NoMemory>
    ensures { OnOk result (Adds (keeps_each (row_at place) (parts_of place.file rows.now class.now)) rules.old rules.new) }
{
    let fields = range(&rows.fields, class.first_field, class.field_count);
    keep_instance_fields(rules, place, fields, class.first_field)?;
    let methods = range(&rows.methods, class.first_method, class.method_count);
    keep_initialisers(rules, place, methods, class.first_method)
}

/// Adds that each type of a file keeps its instance fields and its initialisers. In the time of the types and of the rows that they
/// list, and no two types of a world list one row (ECMA-335 II.22.37).
pub fn add_parts(rules: &mut RowRules, rows: &FileRows<'_>, file: u16) -> Result<(), NoMemory>
    ensures { OnOk result (Adds (part_links file rows.now) rules.old rules.new) }
{
    for n in 0..rows.classes.len() {
        let place = row_place(file, Table::TypeDef, n)?;
        keep_parts(rules, place, rows, &rows.classes[n])?;
    }
    Ok(())
}
