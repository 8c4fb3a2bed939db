//! The tests of assemblies (ECMA-335 II.22.2).

ghost use Rattle.std.specs.Prelude.{◌≡◌, ◌<◌, IfOk, List, Some, length, map, slice_get};
ghost use Rattle.std.specs.Option.{option_map};
ghost use Rattle.file_tables.specs.File.{FilePart};
ghost use Rattle.world_rows.specs.Tokens.{assemblies};
ghost use Rattle.world_rows.specs.World.{assemblies_of};
ghost use Rattle.verdict_rules.specs.World.{world_of};
ghost use Rattle.verdict_rules.specs.Types.{assembly_tests, is_named_before};
ghost use Rattle.profile_subject.specs.Faults.{row_fault};
ghost use Rattle.type_tests.specs.Names.{AreNames, name_in};

use crate::refusal::unless_kept;
use cil_tables::Tables;
use cil_world::World;
use file_tables::numbers::ASSEMBLY;
use first_places::first_places;
use plain_types::fault::{Fault, NoMemory, Place};
use profile_subject::Subject;
use std::alloc::Global;
use std::collections::BTreeMap;
use type_names::assembly_key;

/// The name of an assembly.
#[derive(Clone, Copy, PartialEq, Eq, PartialOrd, Ord)]
pub struct AssemblyName<'a> {
    pub name: &'a str,
}

/// For each name of an assembly the first file that has it.
#[derive(Drop)]
pub struct AssemblyNames<'a> {
    pub places: BTreeMap<AssemblyName<'a>, u32>,
}

/// The names of the files' assemblies.
fn name_keys<'a>(alloc: Global, world: &World<'a>) -> Result<Vec<AssemblyName<'a>>, NoMemory>
    ensures { IfOk result (λ keys. map (λ k. k.name.now) keys.items ≡ map name_in world.now) }
{
    let mut keys = Vec::new(alloc);
    for file in 0..world.files() {
        let name = assembly_key(world.tables(file)).name;
        keys.push(AssemblyName { name })?;
    }
    Ok(keys)
}

impl<'a> AssemblyNames<'a> {
    /// The names of the assemblies of a world's files (ECMA-335 II.22.2).
    #[tactic(auto, using(crate::proofs::NameLaws::names_found, crate::proofs::NameLaws::few_names))]
    pub fn new(alloc: Global, world: &World<'a>) -> Result<AssemblyNames<'a>, NoMemory>
        ensures { IfOk result (AreNames world.now) }
    {
        let _few = world.files();
        let keys = name_keys(alloc, world)?;
        let places = first_places(alloc, keys)?;
        Ok(AssemblyNames { places })
    }
}

/// Whether an earlier file has the name of an assembly.
fn is_named_before<'a>(names: &AssemblyNames<'a>, tables: &Tables<'a>, file: u16) -> bool
    ensures { (files : List FilePart) → AreNames files names.now → option_map (λ p. p.metadata) (slice_get files file) ≡ Some tables.now → result ≡ is_named_before (assemblies_of files) file }
{
    let key = AssemblyName {
        name: assembly_key(tables).name,
    };
    match names.places.get(&key) {
        Some(first) => *first < u32::from(file),
        None => false,
    }
}

/// What rule 22 says of a row of a file's table of assemblies, counted from 0: no earlier file has the assembly's name (ECMA-335
/// II.22.2). `None` where the row keeps it or isn't there.
pub fn assembly_fault<'a>(
    subject: &Subject<'_, 'a>,
    names: &AssemblyNames<'a>,
    file: u16,
    n: u32,
) -> Option<Fault>
    requires file { file < length subject.now.world.now }
    requires names { AreNames subject.now.world.now names.now }
    ensures { (x : FilePart) → slice_get subject.now.world.now file ≡ Some x → result ≡ row_fault file x.metadata (record { table = assemblies; tests = assembly_tests (world_of subject.now.world.now) file }) n }
{
    let tables = subject.world.tables(file);
    if n >= tables.rows(ASSEMBLY) {
        return None;
    }
    let place = Place {
        file,
        table: ASSEMBLY,
        row: n + 1,
        offset: 0,
    };
    unless_kept(!is_named_before(names, tables, file), 22, place)
}
