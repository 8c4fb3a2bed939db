//! Where each name of a set stands.

ghost use Rattle.std.specs.Prelude.{◌≡◌, ◌<◌, ◌^◌, IfOk, length, slice_get};
ghost use Rattle.std.specs.Option.{option_copied, option_map};
ghost use Rattle.assemblies.specs.Binding.{first_number, same_assembly, type_in};
ghost use Rattle.member_keys.specs.Seen.{class_seen};
ghost use Rattle.tiny_rows.specs.Rows.{assembly_seen};
ghost use Rattle.set_names.specs.Names.{seen_all, FindsTypes, Each, ref_of};

use crate::listed::{assembly_names, type_names};
use first_places::first_places;
use member_keys::ClassId;
use msspot_read::Image;
use plain_types::fault::NoMemory;
use std::alloc::Global;
use std::collections::BTreeMap;
use std::marker::Model;
use tiny_rows::{AssemblyName, TypeName};

/// The images of a set, with the places of their assemblies' and types' names. Contracts see the list of the images.
#[derive(Drop)]
pub struct Names<'w, 'a> {
    images: &'w [Image<'a>],
    assemblies: BTreeMap<AssemblyName<'a>, u32>,
    types: Vec<BTreeMap<TypeName<'a>, u32>>,
}

impl<'w, 'a> Model for Names<'w, 'a> {
    ghost use Rattle.std.specs.Prelude.{List};
    ghost use Rattle.image_bytes.specs.Layout as layout;

    ghost Value = { List layout.Image };

    ghost use Rattle.set_names.specs.Inside.{IsIndex};

    ghost view = { λ n. n.images.now };

    ghost invariant = { IsIndex };
}

/// Where each name of an image's types stands first.
#[tactic(auto, using(crate::proofs::KeyLaws::types_found))]
fn type_places<'a>(
    alloc: Global,
    image: &Image<'a>,
) -> Result<BTreeMap<TypeName<'a>, u32>, NoMemory>
    ensures { IfOk result (FindsTypes image.now) }
{
    let names = type_names(alloc, image)?;
    Ok(first_places(alloc, names)?)
}

/// Where each name of each image's types stands first.
fn all_type_places<'a>(
    alloc: Global,
    images: &[Image<'a>],
) -> Result<Vec<BTreeMap<TypeName<'a>, u32>>, NoMemory>
    ensures count { IfOk result (λ types. length types.items ≡ length images.now) }
    ensures each { IfOk result (λ types. Each FindsTypes images.now types.items) }
{
    let mut types = Vec::new(alloc);
    for image in images {
        types.push(type_places(alloc, image)?)?;
    }
    Ok(types)
}

impl<'w, 'a> Names<'w, 'a> {
    /// The names of a set's images.
    pub fn new(alloc: Global, images: &'w [Image<'a>]) -> Result<Names<'w, 'a>, NoMemory>
        requires { length images.now < 2 ^ 32 }
        ensures { IfOk result (λ names. names ≡ images.now) }
    {
        let assemblies = first_places(alloc, assembly_names(alloc, images)?)?;
        let types = all_type_places(alloc, images)?;
        Ok(Names {
            images,
            assemblies,
            types,
        })
    }

    /// The image of an assembly.
    pub fn image(&self, file: u32) -> Option<&'w Image<'a>>
        ensures { option_copied result ≡ slice_get self.now file }
    {
        self.images.get(file as usize)
    }

    /// How many assemblies there are.
    pub fn count(&self) -> usize
        ensures { result ≡ length self.now }
    {
        self.images.len()
    }

    /// The first type of an assembly with a name; `None` where there is none.
    pub fn find_type(&self, file: u32, key: TypeName<'a>) -> Option<ClassId>
        ensures { option_map class_seen result ≡ type_in (seen_all self.now) file key.entry.enclosing (ref_of key.entry) }
    {
        let places = self.types.get(file as usize)?;
        let row = *places.get(&key)?;
        Some(ClassId { file, row })
    }

    /// The first assembly with a name and version; `None` where there is none.
    pub fn find_assembly(&self, key: AssemblyName<'a>) -> Option<u32>
        ensures { result ≡ first_number (same_assembly (assembly_seen key.entry)) (seen_all self.now) }
    {
        self.assemblies.get(&key).copied()
    }
}
