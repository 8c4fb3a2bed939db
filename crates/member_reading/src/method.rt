//! Methods (ECMA-335 II.22.26).

ghost use Rattle.std.specs.Prelude.{◌≡◌, ℕ, ◌+◌, ◌<◌, ◌^◌, IfOk, Some, length, map, slice_get};
ghost use Rattle.std.specs.Option.{option_map};
ghost use Rattle.file_tables.specs.Metadata.{row_count};
ghost use Rattle.file_tables.specs.File.{FilePart};
ghost use Rattle.machine.specs.Throw.{on_some};
ghost use Rattle.assemblies.specs.Binding.{id_at, numbered, own_method, method_owner};
ghost use Rattle.world_rows.specs.Tokens as tokens;
ghost use Rattle.world_rows.specs.World.{assemblies_of};
ghost use Rattle.member_keys.specs.Seen.{class_seen};
ghost use Rattle.class_table.specs.Seen.{method_seen, body_seen};
ghost use Rattle.member_reading.specs.Data.{AreTypes};
ghost use Rattle.member_reading.specs.Meant.{scopes};
ghost use Rattle.member_reading.specs.Natives.{AreNatives};
ghost use Rattle.member_reading.specs.Members.{methods_in, method_meant, body_meant};

use crate::data::Types;
use crate::member::bytes;
use crate::native::{NativeMember, find_native};
use crate::owner::{Span, find_owners};
use crate::signature::read_method_signature;
use cil_rows::{MethodDefRow, read_row};
use cil_tables::Tables;
use class_table::{Body, MethodRow};
use file_tables::bytes::has_bit;
use file_tables::numbers::{METHOD_DEF, TYPE_DEF};
use member_keys::{ClassId, SignatureKey};
use plain_types::fault::NoMemory;
use std::alloc::Global;
use type_names::text;

/// What runs where a method is called.
fn read_body(
    natives: &[NativeMember],
    row: &MethodDefRow,
    name: &str,
    owner: Option<ClassId>,
    signature: &Option<SignatureKey>,
) -> Body
    ensures { body_seen result ≡ body_meant natives.now row.now name.now owner signature.now }
{
    if has_bit(u64::from(row.impl_flags), 12) {
        find_native(natives, name, owner, signature)
    } else if row.rva == 0 {
        Body::Missing
    } else {
        Body::Code
    }
}

/// The type of a file with a row, if there is one.
fn class_of(file: u16, row: Option<u32>) -> Option<ClassId>
    ensures { option_map class_seen result ≡ option_map (id_at file) row }
{
    match row {
        Some(row) => Some(ClassId {
            file: u32::from(file),
            row,
        }),
        None => None,
    }
}

/// The method of a row, from 0.
fn read_method<'a>(
    alloc: Global,
    types: &Types<'_, 'a>,
    natives: &[NativeMember],
    tables: &Tables<'a>,
    file: u16,
    n: u32,
    owner: Option<u32>,
) -> Result<MethodRow<'a>, NoMemory>
    requires types { AreTypes types.now }
    requires natives { AreNatives types.now.names.now natives.now }
    requires file { file < length types.now.names.now }
    requires tables { option_map (λ p. p.metadata) (slice_get types.now.names.now file) ≡ Some tables.now }
    requires row { n < row_count tables.now tokens.methods }
    requires owner { option_map (id_at file) owner ≡ method_owner (assemblies_of types.now.names.now) (id_at file n) }
    ensures row { IfOk result (λ row. (f : FilePart) → slice_get types.now.names.now file ≡ Some f → method_seen file n row ≡ method_meant types.now.names.now file f n) }
    ensures owner { IfOk result (λ row. row.owner ≡ owner) }
{
    let _few = tables.rows(METHOD_DEF);
    let row: MethodDefRow = read_row(tables, n + 1);
    let name = text(tables, row.name);
    let signature = read_method_signature(alloc, types.names, file, bytes(tables, row.signature))?;
    let class = class_of(file, owner);
    let body = read_body(natives, &row, name, class, &signature);
    let flags = u64::from(row.flags);
    Ok(MethodRow {
        name,
        signature,
        is_static: has_bit(flags, 4),
        is_virtual: has_bit(flags, 6),
        is_newslot: has_bit(flags, 8),
        is_abstract: has_bit(flags, 10),
        body,
        owner,
    })
}

/// The type of a file that has each of its methods.
fn method_owners(
    alloc: Global,
    types: &Types<'_, '_>,
    tables: &Tables<'_>,
    file: u16,
) -> Result<Vec<Option<u32>>, NoMemory>
    requires types { AreTypes types.now }
    requires file { file < length types.now.names.now }
    requires tables { option_map (λ p. p.metadata) (slice_get types.now.names.now file) ≡ Some tables.now }
    ensures size { IfOk result (λ owners. length owners.items ≡ row_count tables.now tokens.methods) }
    ensures each { IfOk result (λ owners. (n : ℕ) → on_some (slice_get owners.items n) (option_map (id_at file)) ≡ method_owner (assemblies_of types.now.names.now) (id_at file n)) }
{
    let _few = tables.rows(TYPE_DEF);
    let mut spans = Vec::new(alloc);
    for row in &types.classes[file as usize] {
        spans.push(Span {
            first: row.first_method,
            count: row.method_count,
        })?;
    }
    let owners = find_owners(alloc, &spans, tables.rows(METHOD_DEF))?;
    Ok(owners)
}

/// The methods of a file in the order of their rows, as the world's assemblies have them, and the first type of the file in whose range
/// each lies.
pub fn read_methods<'a>(
    alloc: Global,
    types: &Types<'_, 'a>,
    natives: &[NativeMember],
    file: u16,
) -> Result<Vec<MethodRow<'a>>, NoMemory>
    requires types { AreTypes types.now }
    requires natives { AreNatives types.now.names.now natives.now }
    requires file { file < length types.now.names.now }
    ensures rows { IfOk result (λ rows. numbered (method_seen file) 0 rows.items ≡ numbered (own_method (scopes types.now.names.now) (assemblies_of types.now.names.now) file) 0 (methods_in types.now.names.now file)) }
    ensures owners { IfOk result (λ rows. (n : ℕ) → on_some (slice_get rows.items n) (λ row. option_map (id_at file) row.owner) ≡ method_owner (assemblies_of types.now.names.now) (id_at file n)) }
{
    let tables = types.names.tables(file);
    let owners = method_owners(alloc, types, tables, file)?;
    let mut rows = Vec::new(alloc);
    for n in 0..tables.rows(METHOD_DEF) {
        let owner = owners[n as usize];
        rows.push(read_method(alloc, types, natives, tables, file, n, owner)?)?;
    }
    Ok(rows)
}
