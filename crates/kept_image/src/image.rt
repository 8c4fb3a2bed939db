//! The image of a file's kept rows.

ghost use Rattle.std.specs.Prelude.{◌≡◌, ℕ, Bool, List, [], ◌∷◌, IfOk, IfErr, OnOk, None, length};
ghost use Rattle.std.specs.List.{flat_map};
ghost use Rattle.std.specs.Option.{option_or};
ghost use Rattle.file_tables.specs.File.{FilePart};
ghost use Rattle.assemblies.specs.Rows.{Assembly};
ghost use Rattle.looked_rows.specs.Looked.{file_with};
ghost use Rattle.kept_marks.specs.Masks.{masks_of};
ghost use Rattle.image_bytes.specs.Layout.{onto};
ghost use Rattle.msspot_write.specs.Parts.{image_of_parts, over_of_parts, pools_of};
ghost use Rattle.msspot_write.specs.Written.{codes_of};
ghost use Rattle.converted.specs.Images.{image_at};
ghost use Rattle.converted.specs.Over.{limit_in, over_at, over_distances, over_switches};
ghost use Rattle.image_codes.specs.Codes.{AllCanShrink, IsPast};
ghost use Rattle.kept_image.specs.Kept.{IsKeptFile, of_file, Refuses};

use crate::law::{images_are_those_of_parts, limits_are_those_of_parts};
use crate::refusal::ImageRefusal;
use cil_tables::Tables;
use converted::law::limits_go_by_bytes;
use image_codes::{CodesRefusal, code_length, image_codes};
use image_numbers::FileNumbers;
use kept_marks::FileChoice;
use msspot_write::counts::{counted, passed};
use msspot_write::{Parts, Pools, WriteRefusal, pools, write};
use pe_reader::Pe;
use plain_types::fault::{Limit, NoMemory};
use std::alloc::Global;

/// The limit of distances of a branch or a switch.
const DISTANCES: u8 = 15;

/// The limit of targets of a switch.
const TARGETS: u8 = 16;

/// A limit, as one of an assembly.
fn limit_of(limit: Limit, file: u16) -> Limit
    ensures { result ≡ limit_in file limit.number limit.count }
{
    Limit {
        number: limit.number,
        count: limit.count,
        assembly: file,
    }
}

/// So many zeros.
fn zeros(alloc: Global, size: u64) -> Result<Vec<u8>, NoMemory>
    ensures { IfOk result (λ code. length code.items ≡ size) }
{
    let mut code = Vec::new(alloc);
    for _ in 0..size {
        code.push(0)?;
    }
    Ok(code)
}

/// One code.
fn only(alloc: Global, code: Vec<u8>) -> Result<Vec<Vec<u8>>, NoMemory>
    ensures { IfOk result (λ codes. codes_of codes.items ≡ code.items ∷ []) }
{
    let mut codes = Vec::new(alloc);
    codes.push(code)?;
    Ok(codes)
}

/// The image of parts, as that of an assembly.
fn written(
    alloc: Global,
    parts: &Parts,
    pools: &Pools,
    codes: &[Vec<u8>],
    file: u16,
) -> Result<Vec<u8>, ImageRefusal>
    requires { pools.now ≡ pools_of parts.now }
    ensures image { IfOk result (λ image. image.items ≡ onto (image_of_parts parts.now (codes_of codes.now)) []) }
    ensures within { OnOk result (over_of_parts parts.now (codes_of codes.now) ≡ None) }
    ensures refused { IfErr result (Refuses (of_file file (over_of_parts parts.now (codes_of codes.now)))) }
{
    match write(alloc, parts, pools, codes) {
        Ok(image) => Ok(image),
        Err(WriteRefusal::Limit(limit)) => Err(ImageRefusal::Limit(limit_of(limit, file))),
        Err(WriteRefusal::NoMemory) => Err(ImageRefusal::NoMemory),
    }
}

/// The limit that codes pass.
fn codes_limit(refusal: CodesRefusal, file: u16) -> ImageRefusal
    ensures { (codes : List (List ℕ)) → IsPast file codes refusal → Refuses (option_or (over_distances file codes) (over_switches file codes)) result }
{
    match refusal {
        CodesRefusal::Distance { size } => ImageRefusal::Limit(Limit {
            number: DISTANCES,
            count: size,
            assembly: file,
        }),
        CodesRefusal::Switch { targets } => ImageRefusal::Limit(Limit {
            number: TARGETS,
            count: u64::from(targets),
            assembly: file,
        }),
        CodesRefusal::NoMemory => ImageRefusal::NoMemory,
    }
}

/// The first of the limits 0 to 14 that parts pass with codes of so many bytes.
fn parts_limit(
    alloc: Global,
    parts: &Parts,
    pools: &Pools,
    size: u64,
) -> Result<Option<Limit>, NoMemory>
    requires { pools.now ≡ pools_of parts.now }
    ensures { IfOk result (λ limit. (codes : List (List ℕ)) → length (flat_map (λ c. c) codes) ≡ size → over_of_parts parts.now codes ≡ limit) }
{
    limits_go_by_bytes();
    let codes = only(alloc, zeros(alloc, size)?)?;
    let counts = counted(parts, pools, codes.as_slice())?;
    Ok(passed(&counts))
}

/// The first limit that is passed where codes of so many bytes pass one: the limits of the parts come first.
fn first_limit(
    alloc: Global,
    parts: &Parts,
    pools: &Pools,
    size: u64,
    refusal: CodesRefusal,
    file: u16,
) -> ImageRefusal
    requires { pools.now ≡ pools_of parts.now }
    ensures { (codes long : List (List ℕ)) → length (flat_map (λ c. c) codes) ≡ size → IsPast file long refusal → Refuses (option_or (of_file file (over_of_parts parts.now codes)) (option_or (over_distances file long) (over_switches file long))) result }
{
    match parts_limit(alloc, parts, pools, size) {
        Ok(Some(limit)) => ImageRefusal::Limit(limit_of(limit, file)),
        Ok(None) => codes_limit(refusal, file),
        Err(NoMemory) => ImageRefusal::NoMemory,
    }
}

/// The bytes of the image of a file's kept rows, of which these are the parts with their numbers cut to two bytes.
///
/// [`ImageRefusal::Limit`] exactly where one of the limits 0 to 16 is passed, with the first of them: those of rows and bytes, 0 to 14,
/// come before that of distances, 15, and that of targets of a switch, 16.
pub fn parts_image(
    alloc: Global,
    choice: &FileChoice<'_>,
    file: u16,
    tables: &Tables<'_>,
    pe: &Pe<'_>,
    parts: &Parts,
) -> Result<Vec<u8>, ImageRefusal>
    requires { AllCanShrink (masks_of choice.now) (file_with pe.now tables.now) }
    ensures image { IfOk result (λ image. (files : List FilePart) (marks : List Bool) (p : Assembly) → IsKeptFile files marks file (file_with pe.now tables.now) p choice.now parts.now → image.items ≡ onto (image_at files marks file (file_with pe.now tables.now, p)) []) }
    ensures within { OnOk result ((files : List FilePart) (marks : List Bool) (p : Assembly) → IsKeptFile files marks file (file_with pe.now tables.now) p choice.now parts.now → over_at files marks file (file_with pe.now tables.now, p) ≡ None) }
    ensures refused { IfErr result (λ refusal. (files : List FilePart) (marks : List Bool) (p : Assembly) → IsKeptFile files marks file (file_with pe.now tables.now) p choice.now parts.now → Refuses (over_at files marks file (file_with pe.now tables.now, p)) refusal) }
{
    limits_are_those_of_parts();
    images_are_those_of_parts();
    let pools = pools(alloc, parts)?;
    let numbers = FileNumbers::new(alloc, choice, tables, &pools)?;
    match image_codes(alloc, choice, tables, pe, &numbers) {
        Ok(codes) => written(alloc, parts, &pools, codes.as_slice(), file),
        Err(refusal) => {
            let size = code_length(choice, tables, pe);
            Err(first_limit(alloc, parts, &pools, size, refusal, file))
        }
    }
}
