//! The types of a body's locals.

ghost use Rattle.std.specs.Prelude.{◌≡◌, ◌<◌, ◌==◌, true, if◌then◌else◌, IfOk, None, Some, length, map, slice_get};
ghost use Rattle.std.specs.List.{filter_map};
ghost use Rattle.file_tables.specs.File.{FilePart};
ghost use Rattle.file_tables.specs.Metadata.{column_of, is_row_in};
ghost use Rattle.classes.specs.Queries.{type_of};
ghost use Rattle.world_rows.specs.Lines.{is_locals_token};
ghost use Rattle.world_rows.specs.Tokens.{locals_signatures, number_of};
ghost use Rattle.world_rows.specs.World.{ecma_sources};
ghost use Rattle.method_facts.specs.Places.{type_to};
ghost use Rattle.local_places.specs.Locals.{blob_meant, local_meant, locals_meant};

use cil_rows::{StandAloneSigRow, find_row};
use cil_sig::{SigFault, SigType, locals_sig};
use cil_tables::Tables;
use cil_world::World;
use ecma_types::stack::PlaceType;
use member_reading::{bytes, read_type};
use method_facts::place_type;
use plain_types::fault::NoMemory;
use std::alloc::Global;
use type_names::split_token;

/// The type of a local; `None` exactly where its token names no class of the world.
fn local_type(world: &World<'_>, file: u16, of: &SigType) -> Result<Option<PlaceType>, NoMemory>
    requires { file < length world.now }
    ensures { IfOk result (λ place. place ≡ local_meant world.now file of.now) }
{
    match read_type(world.names(), file, of) {
        Some(key) => Ok(Some(place_type(world.classes(), key)?)),
        None => Ok(None),
    }
}

/// The types of a signature of locals.
#[tactic(auto, using(crate::proofs::BlobLaws::next_kept, crate::proofs::BlobLaws::next_left))]
fn local_types(
    alloc: Global,
    world: &World<'_>,
    file: u16,
    types: &[SigType],
) -> Result<Vec<PlaceType>, NoMemory>
    requires { file < length world.now }
    ensures { IfOk result (λ places. places.items ≡ filter_map (local_meant world.now file) types.now) }
{
    let mut places = Vec::new(alloc);
    for of in types {
        if let Some(place) = local_type(world, file, of)? {
            places.push(place)?;
        }
    }
    Ok(places)
}

/// The types that the blob of a signature of locals says; none where it has no form.
#[tactic(auto, using(crate::proofs::BlobLaws::formed, crate::proofs::BlobLaws::faulty))]
fn read_signature(
    alloc: Global,
    world: &World<'_>,
    file: u16,
    blob: &[u8],
) -> Result<Vec<PlaceType>, NoMemory>
    requires { file < length world.now }
    ensures { IfOk result (λ places. (x : FilePart) → slice_get world.now file ≡ Some x → places.items ≡ map (λ s. type_to (type_of (ecma_sources world.now).classes s)) (blob_meant world.now file x blob.now)) }
{
    match locals_sig(alloc, blob) {
        Ok(types) => local_types(alloc, world, file, types.as_slice()),
        Err(SigFault::Bad { .. }) => Ok(Vec::new(alloc)),
        Err(SigFault::NoMemory) => Err(NoMemory),
    }
}

/// The row of the signature that a token of locals names; none of token 0.
fn find_signature(tables: &Tables<'_>, token: u32) -> Option<StandAloneSigRow>
    ensures { result ≡ (if token == 0 then None else (if is_row_in tables.now locals_signatures (number_of token) then Some (record { signature = column_of tables.now locals_signatures (number_of token) 0 }) else None)) }
{
    if token == 0 {
        None
    } else {
        find_row(tables, split_token(token).row)
    }
}

/// The types of a body's locals, by the token of their signature (ECMA-335 II.23.2.6, II.25.4.3); none of token 0. Rows of types count
/// from 1. Nothing is told of a token that is neither 0 nor a row of the file's signatures.
///
/// # Errors
///
/// [`NoMemory`] where the host has none left.
#[tactic(auto, using(crate::proofs::BlobLaws::found))]
pub fn read_locals(
    alloc: Global,
    world: &World<'_>,
    file: u16,
    token: u32,
) -> Result<Vec<PlaceType>, NoMemory>
    requires { file < length world.now }
    ensures { IfOk result (λ locals. (x : FilePart) → slice_get world.now file ≡ Some x → is_locals_token x.metadata token ≡ true → locals.items ≡ map (λ s. type_to (type_of (ecma_sources world.now).classes s)) (locals_meant world.now file x token)) }
{
    let tables = world.tables(file);
    match find_signature(tables, token) {
        Some(row) => read_signature(alloc, world, file, bytes(tables, row.signature)),
        None => Ok(Vec::new(alloc)),
    }
}
