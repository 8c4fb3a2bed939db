//! The rules of fields and methods: what types they keep, and which classes a native throws.

ghost use Rattle.std.specs.Prelude.{◌≡◌, OnOk};
ghost use Rattle.classes.specs.Classes.{Classes};
ghost use Rattle.class_table.specs.Seen.{classes_seen};
ghost use Rattle.row_rules.specs.Links.{row_at, keeps_each, Adds};
ghost use Rattle.member_rules.specs.Members.{field_links, kept_by_method, method_links, member_links};
ghost use Rattle.member_rules.specs.Thrown.{IsThrown};

use crate::natives::{Thrown, keep_thrown};
use crate::parts::add_parts;
use crate::places::{keep_type, row_place};
use class_table::{FileRows, MethodRow};
use plain_types::fault::NoMemory;
use row_numbers::Table;
use row_rules::{RowPlace, RowRules};

/// Adds that each field of a file keeps its type (ECMA-335 II.22.37).
fn add_fields(rules: &mut RowRules, rows: &FileRows<'_>, file: u16) -> Result<(), NoMemory>
    ensures { OnOk result (Adds (field_links file rows.now) rules.old rules.new) }
{
    for n in 0..rows.fields.len() {
        let place = row_place(file, Table::Field, n)?;
        keep_type(rules, place, rows.fields[n].owner)?;
    }
    Ok(())
}

/// Adds that a method keeps its type, and the classes of the exceptions that its native throws.
fn keep_method(
    rules: &mut RowRules,
    place: RowPlace,
    thrown: &Thrown,
    method: &MethodRow<'_>,
) -> Result<(), NoMemory>
    ensures { (cs : Classes) → IsThrown cs thrown.now → OnOk result (Adds (keeps_each (row_at place) (kept_by_method cs place.file method.now)) rules.old rules.new) }
{
    keep_type(rules, place, method.owner)?;
    keep_thrown(rules, place, thrown, method.body)
}

/// Adds that each method of a file keeps its type (ECMA-335 II.22.37), and the classes of the exceptions that its native throws.
fn add_methods(
    rules: &mut RowRules,
    rows: &FileRows<'_>,
    thrown: &Thrown,
    file: u16,
) -> Result<(), NoMemory>
    ensures { (cs : Classes) → IsThrown cs thrown.now → OnOk result (Adds (method_links cs file rows.now) rules.old rules.new) }
{
    for n in 0..rows.methods.len() {
        let place = row_place(file, Table::MethodDef, n)?;
        keep_method(rules, place, thrown, &rows.methods[n])?;
    }
    Ok(())
}

/// Adds the rules of the members of a file: each member keeps the first type that lists it (ECMA-335 II.22.37), a type its instance
/// fields and its initialisers (II.10.5.3), and a native the classes of the exceptions that it throws.
///
/// # Errors
///
/// [`NoMemory`] also where a row of a type or a member is 2^32 or more; no file has so many.
pub fn add_members(
    rules: &mut RowRules,
    rows: &FileRows<'_>,
    thrown: &Thrown,
    file: u16,
) -> Result<(), NoMemory>
    ensures { (cs : Classes) → IsThrown cs thrown.now → OnOk result (Adds (member_links cs file rows.now) rules.old rules.new) }
{
    add_fields(rules, rows, file)?;
    add_methods(rules, rows, thrown, file)?;
    add_parts(rules, rows, file)
}
