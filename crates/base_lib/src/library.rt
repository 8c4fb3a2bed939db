//! The two files, and the names of natives.

ghost use Rattle.std.specs.Prelude.{◌≡◌, ◌≤◌, IfOk, IsTrue, IsSome, IfSome, [], ◌∷◌, ◌↔◌, ◌-◌, length, map, slice_index_or};
ghost use Rattle.cil_layout.specs.Layout.{built};
ghost use Rattle.base_tables.specs.Shape.{items_of};
ghost use Rattle.base_tables.specs.Tables.{mscorlib_items, native_items};
ghost use Rattle.base_lib.specs.Fits.{all_fit};
ghost use Rattle.base_lib.specs.Files.{library_of};

use crate::items::all_of_mscorlib;
use crate::rows::add_item;
use base_tables::library::{MSCORLIB_NAME, NATIVE_NAME, NATIVES, VERSION};
use base_tables::parts::natives;
use base_tables::shape::Item;
use cil_build::build::{Build, BuildRefusal};
use plain_types::fault::NoMemory;
use std::alloc::Global;

/// All that the items ask for.
#[tactic(auto, using(crate::proofs::Walks::fold_step), unfolding(crate::specs::Files::library_of))]
fn library(alloc: Global, name: &str, items: &[Item]) -> Result<Build, NoMemory>
    requires fit { IsTrue (all_fit (items_of items.now)) }
    requires name { length name.now ≤ 100 }
    ensures { IfOk result (λ build. build ≡ library_of name.now (items_of items.now)) }
{
    let mut build = Build::new(alloc, name, VERSION)?;
    for item in items {
        add_item(&mut build, alloc, items, item)?;
    }
    Ok(build)
}

/// The bytes of an assembly of these items.
fn file(alloc: Global, name: &str, items: &[Item]) -> Result<Vec<u8>, NoMemory>
    requires fit { IsTrue (all_fit (items_of items.now)) }
    requires name { length name.now ≤ 100 }
    ensures { IfOk result (λ file. file.items ≡ built (library_of name.now (items_of items.now))) }
{
    match library(alloc, name, items)?.finish(alloc) {
        Ok(bytes) => Ok(bytes),
        Err(BuildRefusal::NoMemory) => Err(NoMemory),
        Err(BuildRefusal::Full) => unreachable!(),
    }
}

/// The files of `mscorlib` and `Microsoft.SPOT.Native`, in this order.
pub fn files(alloc: Global) -> Result<Vec<Vec<u8>>, NoMemory>
    ensures { IfOk result (λ files. map (λ f. f.items) files.items ≡ built (library_of MSCORLIB_NAME.now mscorlib_items) ∷ built (library_of NATIVE_NAME.now native_items) ∷ []) }
{
    let items = all_of_mscorlib(alloc)?;
    let mscorlib = file(alloc, MSCORLIB_NAME, items.as_slice())?;
    let native = file(alloc, NATIVE_NAME, natives())?;
    let mut files = Vec::new(alloc);
    files.push(mscorlib)?;
    files.push(native)?;
    Ok(files)
}

/// The name of a native by its number, as `Type.Method`.
pub fn native(number: u16) -> Option<&'static str>
    ensures some { IsSome result ↔ ((1 ≤ number) × (number ≤ 17)) }
    ensures name { IfSome result (λ name. name.now ≡ slice_index_or (map (λ n. n.now) NATIVES) (number - 1) []) }
{
    if number == 0 || number > 17 {
        return None;
    }
    Some(NATIVES[number as usize - 1])
}
