//! The bytes of fields with data (ECMA-335 II.16.3.2, II.22.18).

ghost use Rattle.std.specs.Prelude.{◌≡◌, ◌+◌, ◌<◌, ◌^◌, ◌&&◌, nat_lt, IfOk, Some, length, slice_get};
ghost use Rattle.std.specs.Option.{option_copied, option_map};
ghost use Rattle.file_tables.specs.Metadata.{row_count};
ghost use Rattle.world_rows.specs.Kinds as kinds;
ghost use Rattle.world_rows.specs.Tokens as tokens;
ghost use Rattle.world_rows.specs.World.{rows_alone};
ghost use Rattle.member_keys.specs.Seen.{class_seen, type_seen};
ghost use Rattle.class_table.specs.Seen.{kind_seen};
ghost use Rattle.class_table.specs.Outlines.{outline_seen, outlines_at};
ghost use Rattle.member_reading.specs.Data.{AreLayouts, FindsData, AreTypes, class_size, signature_size, data_by};

use crate::column::{first_row, first_rows};
use cil_rows::{ClassLayoutRow, FieldRvaRow, TableRow};
use cil_tables::Tables;
use class_table::{ClassRow, TypeKind};
use file_tables::numbers::{CLASS_LAYOUT, FIELD, FIELD_RVA, TYPE_DEF};
use member_keys::{ClassId, ElementKey, TypeKey};
use plain_types::elem::Elem;
use plain_types::fault::NoMemory;
use std::alloc::Global;
use std::collections::BTreeMap;
use type_names::TypeNames;

/// What tells how large the types of a world are.
#[derive(Drop)]
pub struct Types<'w, 'a> {
    pub names: &'w TypeNames<'a>,
    pub classes: &'w [Vec<ClassRow<'a>>],
    /// For each file the places of the layout rows of its types, as [`read_layouts`] gives them.
    pub layouts: &'w [BTreeMap<u32, u32>],
}

/// For each file the first layout row of each type (ECMA-335 II.22.8), both from 1 and from 0.
pub fn read_layouts(
    alloc: Global,
    names: &TypeNames<'_>,
) -> Result<Vec<BTreeMap<u32, u32>>, NoMemory>
    ensures { IfOk result (λ layouts. AreLayouts names.now layouts.items) }
{
    let mut layouts = Vec::new(alloc);
    for file in 0..names.files() {
        layouts.push(first_rows(alloc, names.tables(file), CLASS_LAYOUT, 2)?)?;
    }
    Ok(layouts)
}

/// For each field of a file the first row that says where its data is.
pub fn data_places(
    alloc: Global,
    names: &TypeNames<'_>,
    file: u16,
) -> Result<BTreeMap<u32, u32>, NoMemory>
    requires { file < length names.now }
    ensures { IfOk result (λ places. FindsData names.now file places) }
{
    first_rows(alloc, names.tables(file), FIELD_RVA, 1)
}

/// How many bytes an element has in a data field; `None` for what can't be there.
fn width(elem: Elem) -> Option<u32>
    ensures { result ≡ kinds.width elem }
{
    match elem {
        Elem::Bool | Elem::I1 | Elem::U1 => Some(1),
        Elem::Char | Elem::I2 | Elem::U2 => Some(2),
        Elem::I4 | Elem::U4 => Some(4),
        Elem::I8 | Elem::U8 => Some(8),
        _ => None,
    }
}

/// A type has fields.
fn has_fields(tables: &Tables<'_>, row: &ClassRow<'_>) -> bool
    ensures { result ≡ (nat_lt 0 row.now.field_count && nat_lt row.now.first_field (row_count tables.now tokens.fields)) }
{
    row.field_count > 0 && row.first_field < tables.rows(FIELD)
}

/// The size that the layout of a type says, where the type has no fields.
fn layout_size(types: &Types<'_, '_>, class: ClassId, row: &ClassRow<'_>) -> Option<u32>
    requires types { AreTypes types.now }
    requires row { slice_get (outlines_at types.now.names.now class.file) class.row ≡ Some (outline_seen row.now) }
    requires file { class.file < length types.now.names.now }
    ensures { result ≡ kinds.data_size types.now.names.now (rows_alone types.now.names.now) (class_seen class) }
{
    let _most = types.names.files();
    let file = class.file as u16;
    let tables = types.names.tables(file);
    let _few = tables.rows(TYPE_DEF);
    if has_fields(tables, row) {
        return None;
    }
    let places = &types.layouts[file as usize];
    let row = first_row(tables, places, CLASS_LAYOUT, 2, class.row + 1)?;
    Some(ClassLayoutRow::from_row(&row).class_size)
}

/// How many bytes a data field of a class with a row has; `None` where it can't be one's.
fn kind_size(types: &Types<'_, '_>, class: ClassId, row: &ClassRow<'_>) -> Option<u32>
    requires types { AreTypes types.now }
    requires row { slice_get (outlines_at types.now.names.now class.file) class.row ≡ Some (outline_seen row.now) }
    requires file { class.file < length types.now.names.now }
    ensures { result ≡ kinds.size_by types.now.names.now (rows_alone types.now.names.now) (class_seen class) (kind_seen row.now.kind) }
{
    match row.kind {
        TypeKind::Builtin(elem) => width(elem),
        TypeKind::Enumeration(elem) => width(elem),
        TypeKind::OtherValue => layout_size(types, class, row),
        TypeKind::Reference => None,
    }
}

/// How many bytes a data field of a class has; `None` where it can't be one's.
fn class_size(types: &Types<'_, '_>, class: ClassId) -> Option<u32>
    requires { AreTypes types.now }
    ensures { result ≡ class_size types.now.names.now (class_seen class) }
{
    let row = types
        .classes
        .get(class.file as usize)?
        .get(class.row as usize)?;
    kind_size(types, class, row)
}

/// How many bytes a data field of a type has; `None` where it can't be one's.
fn type_size(types: &Types<'_, '_>, of: TypeKey) -> Option<u32>
    requires { AreTypes types.now }
    ensures { result ≡ signature_size types.now.names.now (type_seen of) }
{
    if of.ranks > 0 {
        return None;
    }
    match of.element {
        ElementKey::Spelt(elem) => width(elem),
        ElementKey::Value(class) => class_size(types, class),
        ElementKey::Class(_) => None,
    }
}

/// The bytes of the field of a row, from 0, if it has data; `None` where it has no place, no size, or none in a section.
pub fn read_data<'a>(
    types: &Types<'_, 'a>,
    places: &BTreeMap<u32, u32>,
    file: u16,
    n: u32,
    of: Option<TypeKey>,
) -> Option<&'a [u8]>
    requires types { AreTypes types.now }
    requires file { file < length types.now.names.now }
    requires row { n + 1 < 2 ^ 32 }
    requires places { FindsData types.now.names.now file places.now }
    ensures { option_copied result ≡ data_by types.now.names.now file n (option_map type_seen of) }
{
    let row = first_row(types.names.tables(file), places, FIELD_RVA, 1, n + 1)?;
    let size = type_size(types, of?)?;
    types
        .names
        .pe(file)
        .at_rva(FieldRvaRow::from_row(&row).rva, size)
}
