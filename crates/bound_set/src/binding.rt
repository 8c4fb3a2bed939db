//! Binding a found set.

ghost use Rattle.std.specs.Prelude.{◌≡◌, ◌<◌, ◌^◌, None, List, IfOk, IfErr, map, length, slice_get, unwrap_or};
ghost use Rattle.deploy_model.specs.Banks.{Image};
ghost use Rattle.board_model.specs.Bound.{named, first_lacking, first_circle, set_rows};
ghost use Rattle.set_names.specs.Names.{seen_all};
ghost use Rattle.set_binding.specs.Columns.{named_by};
ghost use Rattle.set_binding.specs.Refused.{IsRefused as IsUnbound};
ghost use Rattle.board_program.specs.Parts.{set_parts};
ghost use Rattle.boot_scan.specs.Sets.{images_in};
ghost use Rattle.bound_set.specs.Set.{IsFound};
ghost use Rattle.bound_set.specs.Inside.{kept_in};
ghost use Rattle.bound_set.specs.Bound.{IsBound, IsRefused};

use crate::bound::Bound;
use crate::library::{find_basic, find_known};
use crate::small::{check_few, check_small};
use crate::view::{is_sized, view_set};
use board_program::law::sets_have_the_rows_of_their_parts;
use boot_scan::Set;
use plain_types::fault::NoMemory;
use set_binding::{Bindings, LackingRow};
use set_names::Names;
use set_table::read_table;
use std::alloc::Global;

/// Why a set isn't bound.
#[derive(Debug, Drop)]
pub enum BindRefusal {
    /// The first reference that names nothing, by assembly, table and row.
    Unresolved(LackingRow),
    /// Each reference names something, but types go in a circle: of superclasses, of interfaces or of enclosing types. The place in
    /// the flash of the image with the first one.
    Circle { at: u32 },
    /// The host has no memory left.
    NoMemory,
}

impl From<NoMemory> for BindRefusal {
    ghost use Rattle.std.specs.Prelude.{◌≡◌};
    ghost use Rattle.bound_set.specs.declared.binding.BindRefusal.TheVariants as refusals;

    ghost from_gives = { λ _ e. e ≡ refusals.NoMemory };

    fn from(_error: NoMemory) -> BindRefusal {
        BindRefusal::NoMemory
    }
}

/// Where the images of a set begin.
fn places_of(alloc: Global, flash: &[u8], set: &Set) -> Result<Vec<u32>, NoMemory>
    requires { IsFound flash.now set.now }
    ensures { IfOk result (λ places. places.items ≡ map (λ (x : Image). x.at) (images_in flash.now set.now)) }
{
    is_sized(set);
    let mut places = Vec::new(alloc);
    for k in 0..set.count {
        places.push(set.at[usize::from(k)])?;
    }
    Ok(places)
}

/// The place of an image of a number.
fn place_at(places: &[u32], assembly: u32) -> u32
    ensures { result ≡ unwrap_or (slice_get places.now assembly) 0 }
{
    match places.get(assembly as usize) {
        Some(place) => *place,
        None => 0,
    }
}

/// Why a set isn't bound, with the places of its images.
fn refusal(places: &[u32], refusal: set_binding::BindRefusal) -> BindRefusal
    ensures { (images : List Image) → places.now ≡ map (λ (x : Image). x.at) images → IsUnbound (set_rows images) refusal → IsRefused images result }
{
    match refusal {
        set_binding::BindRefusal::Unresolved(row) => BindRefusal::Unresolved(row),
        set_binding::BindRefusal::Circle { assembly } => BindRefusal::Circle {
            at: place_at(places, assembly),
        },
        set_binding::BindRefusal::NoMemory => BindRefusal::NoMemory,
    }
}

/// What the references of a set name, or why it isn't bound.
fn bind_references(
    alloc: Global,
    names: &Names<'_, '_>,
    places: &[u32],
) -> Result<Bindings, BindRefusal>
    requires { length names.now < 2 ^ 32 }
    ensures bound { IfOk result (λ bindings. named_by bindings.files.items ≡ named (seen_all names.now)) }
    ensures whole { IfOk result (λ bindings. (first_lacking (seen_all names.now) ≡ None) × (first_circle (seen_all names.now) ≡ None)) }
    ensures refused { (images : List Image) → places.now ≡ map (λ (x : Image). x.at) images → set_rows images ≡ seen_all names.now → IfErr result (IsRefused images) }
{
    match set_binding::bind(alloc, names) {
        Ok(bindings) => Ok(bindings),
        Err(error) => Err(refusal(places, error)),
    }
}

/// Binds a set that was found in the flash, by the names of its images. It is refused by its first reference that has no definition by
/// name and version, or else by its first circle of types.
///
/// # Errors
///
/// [`BindRefusal::Unresolved`] and [`BindRefusal::Circle`] exactly where that is so.
pub fn bind_set(
    alloc: Global,
    flash: &[u8],
    set: &Set,
    names: &Names<'_, '_>,
) -> Result<Bound, BindRefusal>
    requires found { IsFound flash.now set.now }
    requires names { names.now ≡ set_parts (images_in flash.now set.now) }
    ensures bound { IfOk result (λ bound. IsBound (images_in flash.now set.now) (kept_in bound)) }
    ensures refused { IfErr result (IsRefused (images_in flash.now set.now)) }
{
    sets_have_the_rows_of_their_parts();
    is_sized(set);
    let places = places_of(alloc, flash, set)?;
    let bindings = bind_references(alloc, names, &places)?;
    check_small(&bindings)?;
    let table = read_table(alloc, names)?;
    check_few(&table)?;
    let known = find_known(&table)?;
    let basic = find_basic(&table)?;
    Ok(Bound {
        places,
        bindings,
        known,
        basic,
    })
}

/// Binds a set that was found in the flash, in about the time of its size.
///
/// # Errors
///
/// Those of [`bind_set`].
pub fn bind(alloc: Global, flash: &[u8], set: &Set) -> Result<Bound, BindRefusal>
    requires { IsFound flash.now set.now }
    ensures bound { IfOk result (λ bound. IsBound (images_in flash.now set.now) (kept_in bound)) }
    ensures refused { IfErr result (IsRefused (images_in flash.now set.now)) }
{
    let images = view_set(alloc, flash, set)?;
    let names = Names::new(alloc, &images)?;
    bind_set(alloc, flash, set, &names)
}
