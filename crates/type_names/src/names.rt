//! What names a type and an assembly among the files of a world.

ghost use Rattle.std.specs.Prelude.{◌≡◌, ◌<◌, ◌^◌, IfOk, length, map, slice_get};
ghost use Rattle.std.specs.Option.{option_copied, option_map};
ghost use Rattle.assemblies.specs.Binding.{first_number, same_assembly, type_in};
ghost use Rattle.world_rows.specs.World.{rows_alone};
ghost use Rattle.member_keys.specs.Seen.{class_seen};
ghost use Rattle.type_names.specs.Names.{assembly_seen, assembly_row, FindsTypes, FindsTypesOf, Each, ref_of};
ghost use Rattle.type_names.specs.Files.{parts_of};

use crate::file::File;
use crate::keys::{AssemblyKey, NameKey};
use crate::read::{assembly_key, type_keys};
use cil_tables::Tables;
use first_places::first_places;
use member_keys::ClassId;
use plain_types::fault::NoMemory;
use std::alloc::Global;
use std::collections::BTreeMap;
use std::marker::Model;

/// Where each name of a world stands.
#[derive(Drop)]
pub struct Names<'w, 'a> {
    files: &'w [File<'a>],
    assemblies: BTreeMap<AssemblyKey<'a>, u32>,
    types: Vec<BTreeMap<NameKey<'a>, u32>>,
}

impl<'w, 'a> Model for Names<'w, 'a> {
    ghost use Rattle.std.specs.Prelude.{List};
    ghost use Rattle.file_tables.specs.File.{FilePart};
    ghost use Rattle.type_names.specs.Files.{parts_of};

    ghost Value = { List FilePart };

    ghost use Rattle.type_names.specs.Index.{IsIndex};

    ghost view = { λ n. parts_of n.files.now };

    ghost invariant = { IsIndex };
}

/// The names and versions of the files' assemblies.
fn assembly_keys<'a>(alloc: Global, files: &[File<'a>]) -> Result<Vec<AssemblyKey<'a>>, NoMemory>
    ensures { IfOk result (λ keys. map assembly_seen keys.items ≡ map assembly_row (parts_of files.now)) }
{
    let mut keys = Vec::new(alloc);
    for file in files {
        keys.push(assembly_key(&file.metadata))?;
    }
    Ok(keys)
}

/// Where each name of a file's types stands first.
#[tactic(auto, using(crate::proofs::KeyLaws::types_found))]
pub fn type_places<'a>(
    alloc: Global,
    tables: &Tables<'a>,
) -> Result<BTreeMap<NameKey<'a>, u32>, NoMemory>
    ensures { IfOk result (FindsTypes tables.now) }
{
    let keys = type_keys(alloc, tables)?;
    Ok(first_places(alloc, keys)?)
}

/// Where each name of each file's types stands.
fn all_type_places<'a>(
    alloc: Global,
    files: &[File<'a>],
) -> Result<Vec<BTreeMap<NameKey<'a>, u32>>, NoMemory>
    ensures count { IfOk result (λ types. length types.items ≡ length files.now) }
    ensures each { IfOk result (λ types. Each FindsTypesOf files.now types.items) }
{
    let mut types = Vec::new(alloc);
    for file in files {
        types.push(type_places(alloc, &file.metadata)?)?;
    }
    Ok(types)
}

impl<'w, 'a> Names<'w, 'a> {
    /// The names of the files' assemblies and types.
    pub fn new(alloc: Global, files: &'w [File<'a>]) -> Result<Names<'w, 'a>, NoMemory>
        requires { length files.now < 2 ^ 32 }
        ensures { IfOk result (λ names. names ≡ parts_of files.now) }
    {
        let assemblies = first_places(alloc, assembly_keys(alloc, files)?)?;
        let types = all_type_places(alloc, files)?;
        Ok(Names {
            files,
            assemblies,
            types,
        })
    }

    /// The tables of a file.
    pub fn metadata(&self, file: u32) -> Option<&'w Tables<'a>>
        ensures { option_copied result ≡ option_map (λ p. p.metadata) (slice_get self.now file) }
    {
        match self.files.get(file as usize) {
            Some(file) => Some(&file.metadata),
            None => None,
        }
    }

    /// The first type of a file with a name; `None` where there is none.
    pub fn find_type(&self, file: u32, key: NameKey<'a>) -> Option<ClassId>
        ensures { option_map class_seen result ≡ type_in (rows_alone self.now) file key.entry.enclosing (ref_of key.entry) }
    {
        let places = self.types.get(file as usize)?;
        let row = *places.get(&key)?;
        Some(ClassId { file, row })
    }

    /// The first file with an assembly's name and version; `None` where there is none.
    pub fn find_assembly(&self, key: AssemblyKey<'a>) -> Option<u32>
        ensures { result ≡ first_number (same_assembly (assembly_seen key.entry)) (rows_alone self.now) }
    {
        self.assemblies.get(&key).copied()
    }
}
