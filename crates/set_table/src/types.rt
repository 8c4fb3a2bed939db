//! The types of an image (ECMA-335 II.22.37).

ghost use Rattle.std.specs.Prelude.{◌≡◌, ◌<◌, ◌^◌, ◌++◌, IfOk, OnOk, Some, length, map, slice_get};
ghost use Rattle.std.specs.List.{filter_map};
ghost use Rattle.std.specs.Option.{option_map};
ghost use Rattle.image_form.specs.Form.{part};
ghost use Rattle.member_keys.specs.Seen.{class_seen};
ghost use Rattle.class_table.specs.Outlines.{outline_seen};
ghost use Rattle.tiny_rows.specs.Rows.{rows_seen};
ghost use Rattle.tiny_members.specs.Rows.{interfaces_seen};
ghost use Rattle.set_table.specs.Subject.{IsSubject, class_in, named_at, outline_in};

use crate::subject::{Subject, find_named, find_superclass};
use class_table::ClassRow;
use member_keys::ClassId;
use plain_types::fault::NoMemory;
use std::alloc::Global;
use tiny_members::{RowRange, interface, type_def};
use tiny_rows::type_count;

/// Notes the interface that a row names, where it is found.
fn add_interface(
    found: &mut Vec<ClassId>,
    subject: &Subject<'_, '_, '_>,
    n: u32,
) -> Result<(), NoMemory>
    requires { IsSubject subject.now }
    ensures { OnOk result (map class_seen found.new.items ≡ map class_seen found.old.items ++ named_at subject.now n) }
{
    let Some(token) = interface(subject.image, n) else {
        return Ok(());
    };
    let Some(class) = find_named(subject, token) else {
        return Ok(());
    };
    found.push(class)?;
    Ok(())
}

/// The interfaces that rows of the image name and that are found, in the order of the rows (II.22.23).
fn read_interfaces(
    alloc: Global,
    subject: &Subject<'_, '_, '_>,
    range: RowRange,
) -> Result<Vec<ClassId>, NoMemory>
    requires { IsSubject subject.now }
    ensures { IfOk result (λ found. map class_seen found.items ≡ filter_map (class_in subject.now) (part range.first range.count (interfaces_seen subject.now.image.now))) }
{
    let mut found = Vec::new(alloc);
    let first = u32::from(range.first);
    for k in 0..range.count {
        add_interface(&mut found, subject, first + u32::from(k))?;
    }
    Ok(found)
}

/// The type of a row.
fn read_class<'a>(
    alloc: Global,
    subject: &Subject<'_, '_, 'a>,
    n: u32,
) -> Result<ClassRow<'a>, NoMemory>
    requires subject { IsSubject subject.now }
    requires row { n < length (rows_seen subject.now.image.now).types }
    ensures { IfOk result (λ row. Some (outline_seen row) ≡ option_map (outline_in subject.now) (slice_get (rows_seen subject.now.image.now).types n)) }
{
    let Some(of) = type_def(subject.image, n) else {
        unreachable!();
    };
    let interfaces = read_interfaces(alloc, subject, of.interfaces)?;
    Ok(ClassRow {
        namespace: of.namespace,
        name: of.name,
        enclosing: of.enclosing,
        superclass: find_superclass(subject, of.extends),
        interfaces,
        kind: of.kind,
        is_interface: of.is_interface,
        is_abstract: of.is_abstract,
        is_lazy: of.is_lazy,
        first_field: u32::from(of.fields.first),
        field_count: u32::from(of.fields.count),
        first_method: u32::from(of.methods.first),
        method_count: u32::from(of.methods.count),
    })
}

/// The types of the image in the order of their rows, each token replaced by what it names.
pub fn read_classes<'a>(
    alloc: Global,
    subject: &Subject<'_, '_, 'a>,
) -> Result<Vec<ClassRow<'a>>, NoMemory>
    requires { IsSubject subject.now }
    ensures rows { IfOk result (λ rows. map outline_seen rows.items ≡ map (outline_in subject.now) (rows_seen subject.now.image.now).types) }
    ensures few { IfOk result (λ rows. length rows.items < 2 ^ 32) }
{
    let mut rows = Vec::new(alloc);
    for n in 0..type_count(subject.image) {
        rows.push(read_class(alloc, subject, u32::from(n))?)?;
    }
    Ok(rows)
}
