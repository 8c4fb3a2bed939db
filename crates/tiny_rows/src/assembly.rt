//! Assemblies and references to them (ECMA-335 II.22.2, II.22.5).

ghost use Rattle.std.specs.Prelude.{◌≡◌, ◌<◌, Some, length, slice_get};
ghost use Rattle.std.specs.Option.{option_map};
ghost use Rattle.image_bytes.specs.Layout.{rows_of};
ghost use Rattle.tiny_rows.specs.Rows.{rows_seen, version_seen, assembly_seen, own_name};

use crate::text::name;
use msspot_read::Image;

/// The table of references to assemblies.
const ASSEMBLY_REF: u8 = 0;

/// The four numbers of a version.
#[derive(Clone, Copy, PartialEq, Eq, PartialOrd, Ord)]
pub struct Version {
    pub major: u16,
    pub minor: u16,
    pub build: u16,
    pub revision: u16,
}

/// An assembly's name, in UTF-8, and its version.
#[derive(Clone, Copy, PartialEq, Eq, PartialOrd, Ord)]
pub struct AssemblyName<'a> {
    pub name: &'a [u8],
    pub version: Version,
}

/// A version by its numbers.
#[tactic(auto, using(crate::proofs::RowLaws::four))]
fn version_of(numbers: [u16; 4]) -> Version
    ensures { version_seen result ≡ numbers }
{
    Version {
        major: numbers[0],
        minor: numbers[1],
        build: numbers[2],
        revision: numbers[3],
    }
}

/// The name and version of an image's own assembly.
pub fn assembly_name<'a>(image: &Image<'a>) -> AssemblyName<'a>
    ensures { assembly_seen result ≡ own_name (rows_seen image.now) }
{
    image.has_rows();
    AssemblyName {
        name: name(image, image.name()),
        version: version_of(image.version()),
    }
}

/// How many assemblies an image refers to.
pub fn assembly_ref_count(image: &Image<'_>) -> u16
    ensures { result ≡ length (rows_seen image.now).assemblies }
{
    image.has_rows();
    image.rows(ASSEMBLY_REF)
}

/// The assembly that a row refers to.
fn read_assembly_ref<'a>(image: &Image<'a>, n: u16) -> AssemblyName<'a>
    requires { n < rows_of image.now 0 }
    ensures { Some (assembly_seen result) ≡ slice_get (rows_seen image.now).assemblies n }
{
    image.has_rows();
    let row = image.row(ASSEMBLY_REF, n);
    AssemblyName {
        name: name(image, row.columns[0]),
        version: Version {
            major: row.columns[1],
            minor: row.columns[2],
            build: row.columns[3],
            revision: row.columns[4],
        },
    }
}

/// The assembly that a row refers to, from 0; `None` where there is no such row.
#[tactic(auto, using(crate::proofs::RowLaws::assembly_past))]
pub fn assembly_ref<'a>(image: &Image<'a>, n: u32) -> Option<AssemblyName<'a>>
    ensures { option_map assembly_seen result ≡ slice_get (rows_seen image.now).assemblies n }
{
    image.has_rows();
    if n >= u32::from(image.rows(ASSEMBLY_REF)) {
        return None;
    }
    Some(read_assembly_ref(image, n as u16))
}
