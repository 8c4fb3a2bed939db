//! Fields (ECMA-335 II.22.15).

ghost use Rattle.std.specs.Prelude.{◌≡◌, ℕ, ◌+◌, ◌<◌, ◌^◌, IfOk, Some, [], length, map, slice_get, unwrap_or};
ghost use Rattle.std.specs.Option.{option_map};
ghost use Rattle.file_tables.specs.Metadata.{row_count};
ghost use Rattle.machine.specs.Throw.{on_some};
ghost use Rattle.assemblies.specs.Binding.{id_at, numbered, own_field, field_owner};
ghost use Rattle.world_rows.specs.Rows as rows;
ghost use Rattle.world_rows.specs.Tokens as tokens;
ghost use Rattle.world_rows.specs.Kinds.{data_of};
ghost use Rattle.world_rows.specs.World.{rows_alone, assemblies_of};
ghost use Rattle.member_keys.specs.Seen.{type_seen};
ghost use Rattle.class_table.specs.declared.rows.FieldRow.{FieldRow as Row};
ghost use Rattle.class_table.specs.Seen.{field_seen, field_kind_seen};
ghost use Rattle.class_table.specs.Whole.{HasData};
ghost use Rattle.member_reading.specs.Data.{AreTypes, FindsData, data_by};
ghost use Rattle.member_reading.specs.Meant.{scopes};
ghost use Rattle.member_reading.specs.Members.{fields_in, field_meant};

use crate::data::{Types, data_places, read_data};
use crate::member::bytes;
use crate::owner::{Span, find_owners};
use crate::signature::read_field_type;
use cil_rows::read_row;
use cil_tables::Tables;
use class_table::{FieldKind, FieldRow};
use file_tables::bytes::has_bit;
use file_tables::numbers::{FIELD, TYPE_DEF};
use member_keys::TypeKey;
use plain_types::fault::NoMemory;
use std::alloc::Global;
use std::collections::BTreeMap;
use type_names::text;

/// Where a field with these flags is kept (ECMA-335 II.23.1.5), with the bytes that it has if it is one with data.
fn read_kind<'a>(
    types: &Types<'_, 'a>,
    places: &BTreeMap<u32, u32>,
    file: u16,
    n: u32,
    flags: u32,
    of: Option<TypeKey>,
) -> FieldKind<'a>
    requires types { AreTypes types.now }
    requires file { file < length types.now.names.now }
    requires row { n + 1 < 2 ^ 32 }
    requires places { FindsData types.now.names.now file places.now }
    ensures kind { field_kind_seen result ≡ rows.field_kind flags (unwrap_or (data_by types.now.names.now file n (option_map type_seen of)) []) }
    ensures bytes { HasData result (data_by types.now.names.now file n (option_map type_seen of)) }
{
    let flags = u64::from(flags);
    if !has_bit(flags, 4) {
        FieldKind::Instance
    } else if has_bit(flags, 8) {
        FieldKind::Data(read_data(types, places, file, n, of))
    } else if has_bit(flags, 6) {
        FieldKind::Literal
    } else {
        FieldKind::Static
    }
}

/// The field of a row, from 0.
#[tactic(auto, using(crate::proofs::FieldLaws::field_read))]
fn read_field<'a>(
    types: &Types<'_, 'a>,
    tables: &Tables<'a>,
    places: &BTreeMap<u32, u32>,
    file: u16,
    n: u32,
    owner: Option<u32>,
) -> FieldRow<'a>
    requires types { AreTypes types.now }
    requires file { file < length types.now.names.now }
    requires tables { option_map (λ p. p.metadata) (slice_get types.now.names.now file) ≡ Some tables.now }
    requires row { n < row_count tables.now tokens.fields }
    requires places { FindsData types.now.names.now file places.now }
    ensures row { field_seen file n result ≡ field_meant types.now.names.now file tables.now n }
    ensures owner { result.owner ≡ owner }
    ensures bytes { HasData result.kind (data_of (scopes types.now.names.now) types.now.names.now (rows_alone types.now.names.now) (id_at file n)) }
{
    let _few = tables.rows(FIELD);
    let row: cil_rows::FieldRow = read_row(tables, n + 1);
    let signature = read_field_type(types.names, file, bytes(tables, row.signature));
    FieldRow {
        name: text(tables, row.name),
        signature,
        kind: read_kind(types, places, file, n, row.flags, signature),
        owner,
    }
}

/// The type of a file that has each of its fields.
fn field_owners(
    alloc: Global,
    types: &Types<'_, '_>,
    tables: &Tables<'_>,
    file: u16,
) -> Result<Vec<Option<u32>>, NoMemory>
    requires types { AreTypes types.now }
    requires file { file < length types.now.names.now }
    requires tables { option_map (λ p. p.metadata) (slice_get types.now.names.now file) ≡ Some tables.now }
    ensures size { IfOk result (λ owners. length owners.items ≡ row_count tables.now tokens.fields) }
    ensures each { IfOk result (λ owners. (n : ℕ) → on_some (slice_get owners.items n) (option_map (id_at file)) ≡ field_owner (assemblies_of types.now.names.now) (id_at file n)) }
{
    let _few = tables.rows(TYPE_DEF);
    let mut spans = Vec::new(alloc);
    for row in &types.classes[file as usize] {
        spans.push(Span {
            first: row.first_field,
            count: row.field_count,
        })?;
    }
    let owners = find_owners(alloc, &spans, tables.rows(FIELD))?;
    Ok(owners)
}

/// The fields of a file in the order of their rows: names, signatures and kinds as the world's assemblies have them, and the first type
/// of the file in whose range each lies; a field with data says its bytes, and `None` where it has none in a section (II.16.3.2).
pub fn read_fields<'a>(
    alloc: Global,
    types: &Types<'_, 'a>,
    file: u16,
) -> Result<Vec<FieldRow<'a>>, NoMemory>
    requires types { AreTypes types.now }
    requires file { file < length types.now.names.now }
    ensures rows { IfOk result (λ rows. numbered (field_seen file) 0 rows.items ≡ numbered (own_field (scopes types.now.names.now) (assemblies_of types.now.names.now) file) 0 (fields_in types.now.names.now file)) }
    ensures owners { IfOk result (λ rows. (n : ℕ) → on_some (slice_get rows.items n) (λ row. option_map (id_at file) row.owner) ≡ field_owner (assemblies_of types.now.names.now) (id_at file n)) }
    ensures bytes { IfOk result (λ rows. (n : ℕ) (row : Row) → slice_get rows.items n ≡ Some row → HasData row.kind (data_of (scopes types.now.names.now) types.now.names.now (rows_alone types.now.names.now) (id_at file n))) }
{
    let tables = types.names.tables(file);
    let places = data_places(alloc, types.names, file)?;
    let owners = field_owners(alloc, types, tables, file)?;
    let mut rows = Vec::new(alloc);
    for n in 0..tables.rows(FIELD) {
        let owner = owners[n as usize];
        rows.push(read_field(types, tables, &places, file, n, owner))?;
    }
    Ok(rows)
}
