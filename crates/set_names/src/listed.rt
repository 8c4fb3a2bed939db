//! The names of a set's assemblies and types, in the order of their rows.

ghost use Rattle.std.specs.Prelude.{◌≡◌, ◌<◌, ◌^◌, IfOk, length, map};
ghost use Rattle.tiny_rows.specs.Rows.{rows_seen, assembly_seen, own_name, type_name_seen, name_of};

use msspot_read::Image;
use plain_types::fault::NoMemory;
use std::alloc::Global;
use tiny_rows::{AssemblyName, TypeName, assembly_name, type_count, type_name};

/// The names and versions of the images' assemblies.
pub fn assembly_names<'a>(
    alloc: Global,
    images: &[Image<'a>],
) -> Result<Vec<AssemblyName<'a>>, NoMemory>
    ensures { IfOk result (λ names. map assembly_seen names.items ≡ map (λ i. own_name (rows_seen i)) images.now) }
{
    let mut names = Vec::new(alloc);
    for image in images {
        names.push(assembly_name(image))?;
    }
    Ok(names)
}

/// The names of an image's types.
pub fn type_names<'a>(alloc: Global, image: &Image<'a>) -> Result<Vec<TypeName<'a>>, NoMemory>
    ensures names { IfOk result (λ names. map type_name_seen names.items ≡ map name_of (rows_seen image.now).types) }
    ensures few { IfOk result (λ names. length names.items < 2 ^ 32) }
{
    let mut names = Vec::new(alloc);
    for n in 0..type_count(image) {
        match type_name(image, u32::from(n)) {
            Some(name) => names.push(name)?,
            None => break,
        }
    }
    Ok(names)
}
