//! Types (ECMA-335 II.22.37).

ghost use Rattle.std.specs.Prelude.{◌≡◌, ◌+◌, ◌++◌, ◌∷◌, [], if◌then◌else◌, IfOk, OnOk, length, map, slice_index_or};
ghost use Rattle.file_tables.specs.Metadata.{row_count};
ghost use Rattle.assemblies.specs.Chosen.{first_of};
ghost use Rattle.world_rows.specs.Tokens.{type_defs};
ghost use Rattle.image_form.specs.Signatures.{elem_byte};
ghost use Rattle.image_form.specs.Form.{bit_word, is_reference_elem, kind_word};
ghost use Rattle.class_table.specs.Seen.{kind_seen};
ghost use Rattle.kept_marks.specs.Masks.{masks_of};
ghost use Rattle.image_rows.specs.Types.{tokens_of, type_with, enclosing_kept, superclass_kept, flags_seen, count_kept, first_kept, type_numbers, type_made, types_at, type_rows};

use crate::columns::{number, push_numbers, text_name};
use crate::interfaces::{columns_at, interface_columns};
use crate::walk::{RangedParts, ranged_parts};
use cil_rows::{TypeDefRow, read_row};
use cil_tables::Tables;
use class_table::{ClassRow, TypeKind};
use file_tables::numbers::TYPE_DEF;
use file_tables::schema::Coded;
use image_signatures::{element_byte, type_word};
use kept_marks::FileChoice;
use msspot_write::{Column, PartRow};
use plain_types::elem::Elem;
use plain_types::fault::NoMemory;
use plain_types::list::Items;
use row_numbers::Table;
use std::alloc::Global;
use type_names::split;

/// The number of a row that isn't there.
const NONE: u64 = 0xFFFF;

/// The flag of a value type.
const VALUE: u16 = 0x200;

/// The flags of an enum.
const ENUM: u16 = 0x300;

/// The flag of an interface.
const INTERFACE: u64 = 0x20;

/// The flag of an abstract class.
const ABSTRACT: u64 = 0x40;

/// The flag of a class that is started at its first field (beforefieldinit).
const LAZY: u64 = 0x80;

/// Some rows of a table: the first, or 0 where there are none, and how many there are.
#[derive(Clone, Copy)]
struct RowRange {
    first: u64,
    count: u64,
}

/// So many rows from a first one on.
#[tactic(auto, using(crate::proofs::TypeLaws::first_none, crate::proofs::TypeLaws::first_some))]
fn rows_from(first: u64, count: u64) -> RowRange
    ensures first { result.first ≡ first_of first count }
    ensures count { result.count ≡ count }
{
    RowRange {
        first: if count == 0 { 0 } else { first },
        count,
    }
}

/// Those of a range of rows that are kept, by their numbers among the kept ones.
#[tactic(auto, using(assemblies::proofs::Owners::below_add))]
fn kept_range(choice: &FileChoice<'_>, table: Table, first: u32, count: u32) -> RowRange
    ensures first { result.first ≡ first_kept (masks_of choice.now) table first count }
    ensures count { result.count ≡ count_kept (masks_of choice.now) table first count }
{
    let before = choice.below(table, u64::from(first));
    let end = choice.below(table, u64::from(first) + u64::from(count));
    rows_from(u64::from(before), u64::from(end - before))
}

/// The number of the type that a type is nested in, or 0xFFFF.
fn enclosing_word(choice: &FileChoice<'_>, enclosing: Option<u32>) -> u64
    ensures { result ≡ enclosing_kept (masks_of choice.now) enclosing }
{
    match enclosing {
        Some(row) => u64::from(choice.below(Table::TypeDef, u64::from(row))),
        None => NONE,
    }
}

/// The number of the class that a type extends, or 0xFFFF.
#[tactic(auto, using(crate::proofs::TypeLaws::no_superclass, crate::proofs::TypeLaws::some_superclass))]
fn superclass_word(choice: &FileChoice<'_>, tables: &Tables<'_>, extends: u32) -> u64
    ensures { result ≡ superclass_kept (masks_of choice.now) tables.now extends }
{
    let token = split(Coded::TypeDefOrRef, extends);
    if token.row == 0 {
        NONE
    } else {
        type_word(choice, tables, token)
    }
}

/// The element is that of a class.
fn is_reference(elem: Elem) -> bool
    ensures { result ≡ is_reference_elem elem }
{
    matches!(elem, Elem::String | Elem::Object)
}

/// The bits of the class of an element.
fn builtin_word(elem: Elem) -> u16
    ensures { result ≡ elem_byte elem + (if is_reference_elem elem then 0 else 512) }
{
    let byte = u16::from(element_byte(elem));
    if is_reference(elem) {
        byte
    } else {
        byte + VALUE
    }
}

/// The bits of a type that say what it is as the type of a place.
fn kind_word(kind: TypeKind) -> u16
    ensures { result ≡ kind_word (kind_seen kind) }
{
    match kind {
        TypeKind::Reference => 0,
        TypeKind::Builtin(elem) => builtin_word(elem),
        TypeKind::Enumeration(elem) => u16::from(element_byte(elem)) + ENUM,
        TypeKind::OtherValue => VALUE,
    }
}

/// A bit.
fn bit(flag: bool) -> u8
    ensures { result ≡ bit_word flag }
{
    if flag { 1 } else { 0 }
}

/// The flags of a type.
fn flags(row: &ClassRow<'_>) -> u64
    ensures { result ≡ flags_seen row.now }
{
    u64::from(kind_word(row.kind))
        + INTERFACE * u64::from(bit(row.is_interface))
        + ABSTRACT * u64::from(bit(row.is_abstract))
        + LAZY * u64::from(bit(row.is_lazy))
}

/// The numbers of a type, with its column of the class that it extends and the range of its interfaces.
fn type_numbers(
    choice: &FileChoice<'_>,
    tables: &Tables<'_>,
    row: &ClassRow<'_>,
    extends: u32,
    interfaces: RowRange,
) -> [u64; 9]
    ensures { result ≡ type_numbers (masks_of choice.now) tables.now row.now extends interfaces.first interfaces.count }
{
    let fields = kept_range(choice, Table::Field, row.first_field, row.field_count);
    let methods = kept_range(choice, Table::MethodDef, row.first_method, row.method_count);
    [
        enclosing_word(choice, row.enclosing),
        superclass_word(choice, tables, extends),
        flags(row),
        interfaces.first,
        interfaces.count,
        fields.first,
        fields.count,
        methods.first,
        methods.count,
    ]
}

/// What a type is in the image, with its column of the class that it extends, the columns of its interfaces and the next row of these.
#[tactic(auto, using(crate::proofs::TypeLaws::type_is))]
fn type_part(
    alloc: Global,
    choice: &FileChoice<'_>,
    tables: &Tables<'_>,
    row: &ClassRow<'_>,
    extends: u32,
    interfaces: &[u32],
    next: u64,
) -> Result<PartRow, NoMemory>
    ensures { IfOk result (λ p. p ≡ type_made (masks_of choice.now) next (type_with tables.now row.now extends (tokens_of tables.now interfaces.now))) }
{
    let range = rows_from(next, interfaces.len() as u64);
    let numbers = type_numbers(choice, tables, row, extends, range);
    let mut columns = Vec::with_capacity(alloc, 11)?;
    columns.push(text_name(alloc, row.namespace)?)?;
    columns.push(text_name(alloc, row.name)?)?;
    push_numbers(&mut columns, &numbers)?;
    Ok(PartRow {
        columns: Items::from_vec(columns),
    })
}

/// The types of a file.
#[derive(Drop)]
struct Types<'k, 't, 'a> {
    choice: &'t FileChoice<'k>,
    tables: &'t Tables<'a>,
    rows: &'t [ClassRow<'a>],
    interfaces: &'t [Vec<u32>],
}

impl<'k, 't, 'a> RangedParts for Types<'k, 't, 'a> {
    ghost rows = { λ f. row_count f.tables.now type_defs };

    ghost parts = { λ f. types_at (masks_of f.choice.now) f.tables.now f.rows.now (map (λ list. list.items) f.interfaces.now) };

    ghost range = { λ f n. length (slice_index_or (map (λ list. list.items) f.interfaces.now) n []) };

    fn push(
        &self,
        alloc: Global,
        out: &mut Vec<PartRow>,
        n: u32,
        first: u64,
    ) -> Result<u64, NoMemory> {
        let interfaces = columns_at(self.interfaces, n);
        let _few = self.tables.rows(TYPE_DEF);
        let columns: TypeDefRow = read_row(self.tables, n + 1);
        let Some(row) = self.rows.get(n as usize) else {
            return Ok(interfaces.len() as u64);
        };
        out.push(type_part(
            alloc,
            self.choice,
            self.tables,
            row,
            columns.extends,
            interfaces,
            first,
        )?)?;
        Ok(interfaces.len() as u64)
    }
}

/// For each kept type (ECMA-335 II.22.37) its names, the type around it and the class that it extends, its flags, and the ranges of its
/// interfaces, which lie in the order of the types, of its fields and of its methods. The rows of the table of classes have to be
/// those of the file.
pub fn type_parts(
    alloc: Global,
    choice: &FileChoice<'_>,
    tables: &Tables<'_>,
    rows: &[ClassRow<'_>],
) -> Result<Items<PartRow>, NoMemory>
    requires { length rows.now ≡ row_count tables.now type_defs }
    ensures { IfOk result (λ parts. parts ≡ type_rows (masks_of choice.now) tables.now rows.now) }
{
    let interfaces = interface_columns(alloc, tables)?;
    let of = Types {
        choice,
        tables,
        rows,
        interfaces: &interfaces,
    };
    let count = tables.rows(TYPE_DEF);
    ranged_parts(alloc, choice, Table::TypeDef, &of, count)
}
