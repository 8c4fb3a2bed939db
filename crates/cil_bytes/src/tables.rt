//! The rows of the tables in bytes.

ghost use Rattle.std.specs.Prelude.{◌≡◌, ◌++◌, ◌<◌, ◌≤◌, ◌+◌, ◌*◌, ◌^◌, ◌/◌, ◌%◌, OnOk, length, map, [], ◌∷◌, sum_by, ◌==◌, if◌then◌else◌};
ghost use Rattle.std.specs.List.{flat_map};
ghost use Rattle.cil_layout.specs.declared.rows.Row.{Row as AskedRow};
ghost use Rattle.cil_layout.specs.declared.rows.Row.TheVariants.{TypeDef, MethodDef, AssemblyRef, TypeRef};
ghost use Rattle.cil_layout.specs.Asked.{row_weight, table_of};
ghost use Rattle.cil_layout.specs.Heaps.{name_entry, name_place, strings_of, blobs_of, content_of, padded};
ghost use Rattle.cil_layout.specs.Text.{blob_entry};
ghost use Rattle.cil_layout.specs.Numbers.{reach, after, is_field, is_method, numbers_of, data_row_of, rows_in, rows_from, fixed_rows, first_places, body_rva};
ghost use Rattle.cil_layout.specs.Layout.{spelled, all_spelled, column_width};

use crate::tokens::{parent_of, row_of, scope_of, type_of};
use crate::write::push_numbers;
use cil_layout::fixed::{CONTENT_RVA, FIRST_NAME, HASH_ALGORITHM};
use cil_layout::places::{Places, Widths};
use cil_layout::rows::{
    ASSEMBLY, AssemblyRefRow, FIELD_RVA, MODULE, MethodRow, Row, TABLES, TYPE_DEF, TypeRefRow,
    TypeRow,
};
use file_tables::schema::{Column, columns};
use plain_types::fault::NoMemory;

/// The bytes of a name's entry.
pub fn name_len(name: &str) -> u32
    requires { length name.now ≤ 5000000 }
    ensures { result ≡ length (name_entry name.now) }
{
    match name.as_bytes() {
        [] => 0,
        [_, ..] => name.len() as u32 + 1,
    }
}

/// Where a name's entry stands that comes at a place.
fn place_of(at: u32, name: &str) -> u32
    ensures { result ≡ name_place at name.now }
{
    match name.as_bytes() {
        [] => 0,
        [_, ..] => at,
    }
}

/// The RVA of a body that comes at a place.
fn rva_of(at: u32, body: &[u8]) -> u32
    requires { at ≤ 5000000 }
    ensures { result ≡ body_rva at body.now }
{
    match body {
        [] => 0,
        [_, ..] => CONTENT_RVA + at,
    }
}

/// The bytes of a blob's entry.
fn blob_len(bytes: &[u8]) -> u32
    requires { length bytes.now ≤ 5000000 }
    ensures { result ≡ length (blob_entry bytes.now) }
{
    let len = bytes.len() as u32;
    if len < 128 {
        len + 1
    } else if len < 16_384 {
        len + 2
    } else {
        len + 4
    }
}

/// The bytes of a body or of data, with zeros up to a multiple of 4.
#[tactic(auto, using(crate::proofs::Pieces::padded_length_is))]
fn padded_len(bytes: &[u8]) -> u32
    requires { length bytes.now ≤ 5000000 }
    ensures { result ≡ length (padded bytes.now) }
{
    (bytes.len() as u32).div_ceil(4) * 4
}

/// What a row adds to `#Strings`.
fn strings_len(row: &Row) -> u32
    requires { row_weight row.now ≤ 5000000 }
    ensures { result ≡ length (strings_of row.now) }
{
    match row {
        Row::TypeDef(t) => name_len(t.namespace.as_str()) + name_len(t.name.as_str()),
        Row::Field(f) => name_len(f.name.as_str()),
        Row::MethodDef(m) => name_len(m.name.as_str()),
        Row::AssemblyRef(a) => name_len(a.name.as_str()),
        Row::TypeRef(t) => name_len(t.namespace.as_str()) + name_len(t.name.as_str()),
        Row::MemberRef(m) => name_len(m.name.as_str()),
        Row::TypeSpec(_) | Row::Locals(_) | Row::InterfaceImpl(_) => 0,
        Row::NestedClass(_) | Row::ClassLayout(_) | Row::Literal(_) => 0,
    }
}

/// What a row adds to `#Blob`.
fn blobs_len(row: &Row) -> u32
    requires { row_weight row.now ≤ 5000000 }
    ensures { result ≡ length (blobs_of row.now) }
{
    match row {
        Row::Field(f) => blob_len(f.signature.as_slice()),
        Row::MethodDef(m) => blob_len(m.signature.as_slice()),
        Row::MemberRef(m) => blob_len(m.signature.as_slice()),
        Row::TypeSpec(signature) => blob_len(signature.as_slice()),
        Row::Locals(signature) => blob_len(signature.as_slice()),
        Row::TypeDef(_) | Row::AssemblyRef(_) | Row::TypeRef(_) | Row::InterfaceImpl(_) => 0,
        Row::NestedClass(_) | Row::ClassLayout(_) | Row::Literal(_) => 0,
    }
}

/// What a row adds to the bodies and data.
fn content_len(row: &Row) -> u32
    requires { row_weight row.now ≤ 5000000 }
    ensures { result ≡ length (content_of row.now) }
{
    match row {
        Row::Field(f) => padded_len(f.bytes.as_slice()),
        Row::MethodDef(m) => padded_len(m.body.as_slice()),
        Row::TypeDef(_) | Row::AssemblyRef(_) | Row::TypeRef(_) | Row::MemberRef(_) => 0,
        Row::TypeSpec(_) | Row::Locals(_) | Row::InterfaceImpl(_) => 0,
        Row::NestedClass(_) | Row::ClassLayout(_) | Row::Literal(_) => 0,
    }
}

/// How many rows of Field and of MethodDef it is.
fn member_counts(row: &Row) -> (u32, u32)
    ensures { (result.0 ≡ is_field row.now) × (result.1 ≡ is_method row.now) }
{
    match row {
        Row::Field(_) => (1, 0),
        Row::MethodDef(_) => (0, 1),
        Row::TypeDef(_) | Row::AssemblyRef(_) | Row::TypeRef(_) | Row::MemberRef(_) => (0, 0),
        Row::TypeSpec(_) | Row::Locals(_) | Row::InterfaceImpl(_) => (0, 0),
        Row::NestedClass(_) | Row::ClassLayout(_) | Row::Literal(_) => (0, 0),
    }
}

/// The places behind a row.
#[tactic(auto, using(cil_layout::proofs::Sizes::reach_after))]
fn next_places(at: Places, row: &Row) -> Places
    requires { reach at + row_weight row.now ≤ 5000000 }
    ensures after { result ≡ after at row.now }
    ensures reach { reach result ≤ reach at + row_weight row.now }
{
    let (fields, methods) = member_counts(row);
    Places {
        strings: at.strings + strings_len(row),
        blobs: at.blobs + blobs_len(row),
        content: at.content + content_len(row),
        fields: at.fields + fields,
        methods: at.methods + methods,
    }
}

/// The numbers of a row of TypeDef (ECMA-335 II.22.37).
fn type_numbers(at: Places, row: &TypeRow) -> [u32; 6]
    requires { reach at + row_weight (TypeDef row.now) ≤ 5000000 }
    ensures { result ≡ numbers_of at (TypeDef row.now) }
{
    let (namespace, name) = (row.namespace.as_str(), row.name.as_str());
    [
        row.flags,
        place_of(at.strings + name_len(namespace), name),
        place_of(at.strings, namespace),
        type_of(row.extends),
        at.fields + 1,
        at.methods + 1,
    ]
}

/// The numbers of a row of MethodDef (II.22.26).
fn method_numbers(at: Places, row: &MethodRow) -> [u32; 6]
    requires { reach at ≤ 5000000 }
    ensures { result ≡ numbers_of at (MethodDef row.now) }
{
    [
        rva_of(at.content, row.body.as_slice()),
        u32::from(row.impl_flags),
        u32::from(row.flags),
        place_of(at.strings, row.name.as_str()),
        at.blobs,
        1,
    ]
}

/// The numbers of a row of AssemblyRef (II.22.5).
fn assembly_ref_numbers(at: Places, row: &AssemblyRefRow) -> [u32; 9]
    ensures { result ≡ numbers_of at (AssemblyRef row.now) }
{
    let [major, minor, build, revision] = row.version.map(u32::from);
    let name = place_of(at.strings, row.name.as_str());
    [major, minor, build, revision, 0, 0, name, 0, 0]
}

/// The numbers of a row of TypeRef (II.22.38).
fn type_ref_numbers(at: Places, row: &TypeRefRow) -> [u32; 3]
    requires { reach at + row_weight (TypeRef row.now) ≤ 5000000 }
    ensures { result ≡ numbers_of at (TypeRef row.now) }
{
    let (namespace, name) = (row.namespace.as_str(), row.name.as_str());
    [
        scope_of(row.scope),
        place_of(at.strings + name_len(namespace), name),
        place_of(at.strings, namespace),
    ]
}

/// The row in the row's own table.
fn push_own(
    out: &mut Vec<u8>,
    widths: Widths,
    columns: &[Column],
    at: Places,
    row: &Row,
) -> Result<(), NoMemory>
    requires { reach at + row_weight row.now ≤ 5000000 }
    ensures { OnOk result (out.new.items ≡ out.old.items ++ spelled (map (column_width widths) columns.now) (numbers_of at row.now)) }
{
    match row {
        Row::TypeDef(t) => push_numbers(out, widths, columns, &type_numbers(at, t)),
        Row::Field(f) => {
            let name = place_of(at.strings, f.name.as_str());
            push_numbers(out, widths, columns, &[u32::from(f.flags), name, at.blobs])
        }
        Row::MethodDef(m) => push_numbers(out, widths, columns, &method_numbers(at, m)),
        Row::AssemblyRef(a) => push_numbers(out, widths, columns, &assembly_ref_numbers(at, a)),
        Row::TypeRef(t) => push_numbers(out, widths, columns, &type_ref_numbers(at, t)),
        Row::MemberRef(m) => {
            let name = place_of(at.strings, m.name.as_str());
            push_numbers(out, widths, columns, &[parent_of(m.parent), name, at.blobs])
        }
        Row::TypeSpec(_) | Row::Locals(_) => push_numbers(out, widths, columns, &[at.blobs]),
        Row::InterfaceImpl(i) => {
            push_numbers(
                out,
                widths,
                columns,
                &[row_of(i.class), type_of(i.interface)],
            )
        }
        Row::NestedClass(n) => {
            push_numbers(
                out,
                widths,
                columns,
                &[row_of(n.nested), row_of(n.enclosing)],
            )
        }
        Row::ClassLayout(l) => push_numbers(out, widths, columns, &[0, l.size, row_of(l.class)]),
        Row::Literal(_) => push_numbers(out, widths, columns, &[]),
    }
}

/// The row of FieldRVA of a field with data (II.22.18).
fn push_data(
    out: &mut Vec<u8>,
    widths: Widths,
    columns: &[Column],
    at: Places,
    row: &Row,
) -> Result<(), NoMemory>
    requires { reach at ≤ 5000000 }
    ensures { OnOk result (out.new.items ≡ out.old.items ++ flat_map (spelled (map (column_width widths) columns.now)) (data_row_of at row.now)) }
{
    match row {
        Row::Field(f) => match f.bytes.as_slice() {
            [] => Ok(()),
            [_, ..] => push_numbers(
                out,
                widths,
                columns,
                &[CONTENT_RVA + at.content, at.fields + 1],
            ),
        },
        _ => Ok(()),
    }
}

/// The rows of a table that one row makes.
fn push_rows_in(
    out: &mut Vec<u8>,
    table: u8,
    widths: Widths,
    columns: &[Column],
    at: Places,
    row: &Row,
) -> Result<(), NoMemory>
    requires { reach at + row_weight row.now ≤ 5000000 }
    ensures { OnOk result (out.new.items ≡ out.old.items ++ flat_map (spelled (map (column_width widths) columns.now)) (rows_in table at row.now)) }
{
    if row.table() == table {
        push_own(out, widths, columns, at, row)?;
    }
    if table == FIELD_RVA {
        push_data(out, widths, columns, at, row)?;
    }
    Ok(())
}

/// The rows of a table that are asked for, from a place on.
fn push_rows(
    out: &mut Vec<u8>,
    table: u8,
    widths: Widths,
    columns: &[Column],
    start: Places,
    rows: &[Row],
) -> Result<(), NoMemory>
    requires { reach start + sum_by row_weight rows.now ≤ 5000000 }
    ensures { OnOk result (out.new.items ≡ out.old.items ++ flat_map (spelled (map (column_width widths) columns.now)) (rows_from table start rows.now)) }
{
    let mut at = start;
    for row in rows {
        push_rows_in(out, table, widths, columns, at, row)?;
        at = next_places(at, row);
    }
    Ok(())
}

/// What the rows of an assembly are made of.
#[derive(Clone, Copy)]
pub struct Source<'a> {
    pub name: &'a str,
    pub version: [u16; 4],
    pub rows: &'a [Row],
}

/// The rows that stand in each assembly: of Module, of TypeDef, and of Assembly (II.22.30, II.22.37, II.22.2).
fn push_fixed(
    out: &mut Vec<u8>,
    table: u8,
    widths: Widths,
    columns: &[Column],
    source: Source<'_>,
) -> Result<(), NoMemory>
    ensures { OnOk result (out.new.items ≡ out.old.items ++ flat_map (spelled (map (column_width widths) columns.now)) (fixed_rows source.entry.name.now source.entry.version table)) }
{
    let name = place_of(FIRST_NAME, source.name);
    match table {
        MODULE => push_numbers(out, widths, columns, &[0, name, 1, 0, 0]),
        TYPE_DEF => push_numbers(out, widths, columns, &[0, 1, 0, 0, 1, 1]),
        ASSEMBLY => {
            let [major, minor, build, revision] = source.version.map(u32::from);
            let numbers = [HASH_ALGORITHM, major, minor, build, revision, 0, 0, name, 0];
            push_numbers(out, widths, columns, &numbers)
        }
        _ => Ok(()),
    }
}

/// All rows of a table.
#[tactic(auto, unfolding(cil_layout::specs::Layout::all_spelled))]
fn push_table(
    out: &mut Vec<u8>,
    table: u8,
    widths: Widths,
    source: Source<'_>,
) -> Result<(), NoMemory>
    requires table { table < 64 }
    requires room { 96 + length source.name.now + sum_by row_weight source.rows.now ≤ 4194304 }
    ensures { OnOk result (out.new.items ≡ out.old.items ++ all_spelled widths source.entry.name.now source.entry.version source.entry.rows.now table) }
{
    let start = Places {
        strings: FIRST_NAME + name_len(source.name),
        blobs: 1,
        content: 0,
        fields: 0,
        methods: 0,
    };
    let columns = columns(table);
    push_fixed(out, table, widths, columns, source)?;
    push_rows(out, table, widths, columns, start, source.rows)
}

/// The rows of all tables, each column as wide as it is.
pub fn push_tables(out: &mut Vec<u8>, widths: Widths, source: Source<'_>) -> Result<(), NoMemory>
    requires { 96 + length source.name.now + sum_by row_weight source.rows.now ≤ 4194304 }
    ensures { OnOk result (out.new.items ≡ out.old.items ++ flat_map (all_spelled widths source.entry.name.now source.entry.version source.entry.rows.now) TABLES) }
{
    for table in &TABLES {
        push_table(out, *table, widths, source)?;
    }
    Ok(())
}
