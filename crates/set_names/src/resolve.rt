//! What all references of a set name.

ghost use Rattle.std.specs.Prelude.{◌≡◌, IfOk};
ghost use Rattle.set_names.specs.Names.{seen_all};
ghost use Rattle.set_names.specs.Resolved.{count_at, AreAssemblies, AreTypes};

use crate::names::Names;
use crate::referenced::find_referenced;
use member_keys::ClassId;
use plain_types::fault::NoMemory;
use scope_walk::resolve_references;
use std::alloc::Global;
use tiny_rows::assembly_ref_count;

/// How many assemblies an assembly refers to.
#[tactic(auto, using(crate::proofs::ReferenceLaws::assemblies_in, crate::proofs::ReferenceLaws::no_assemblies))]
fn count(names: &Names<'_, '_>, file: u32) -> u32
    ensures { result ≡ count_at (seen_all names.now) file }
{
    match names.image(file) {
        Some(image) => u32::from(assembly_ref_count(image)),
        None => 0,
    }
}

/// The assemblies that the rows of one assembly refer to, each by its number in the set; `None` where the set has none of
/// that name and version.
pub fn resolve_assemblies(
    alloc: Global,
    names: &Names<'_, '_>,
    file: u32,
) -> Result<Vec<Option<u32>>, NoMemory>
    ensures { IfOk result (λ found. AreAssemblies (seen_all names.now) file found.items) }
{
    let mut found = Vec::new(alloc);
    for n in 0..count(names, file) {
        found.push(find_referenced(names, file, n))?;
    }
    Ok(found)
}

/// The types that the references of one assembly name: the first one of the name in the first assembly of the name and
/// version, or inside the type of the reference that encloses it; `None` where there is none.
pub fn resolve_types(
    alloc: Global,
    names: &Names<'_, '_>,
    file: u32,
) -> Result<Vec<Option<ClassId>>, NoMemory>
    ensures { IfOk result (λ found. AreTypes (seen_all names.now) file found.items) }
{
    resolve_references(alloc, names, file)
}
