//! The pass over a method.

ghost use Rattle.std.specs.Prelude.{◌≡◌, ◌<◌, ℕ, IfOk, length, map};
ghost use Rattle.std.specs.Option.{option_map};
ghost use Rattle.verify_ops.specs.Facts.{result_of};
ghost use Rattle.ecma_effects.specs.Known.{AllLoaded};
ghost use Rattle.file_tables.specs.File.{FilePart};
ghost use Rattle.machine.specs.Data.{ClassOf};
ghost use Rattle.machine.specs.Program.{Method};
ghost use Rattle.place_types.specs.Types.{place_of, place_up, type_of, type_up};
ghost use Rattle.member_keys.specs.Seen.{class_seen};
ghost use Rattle.class_table.specs.Seen.{classes_seen};
ghost use Rattle.world_rows.specs.World.{ecma_sources};
ghost use Rattle.code_rules.specs.Judgement.{lattice_of};
ghost use Rattle.code_rules.specs.Verdict.{passed};
ghost use Rattle.verdict_rules.specs.World.{exception_of, world_of};
ghost use Rattle.code_tests.specs.Tests.{code_meant};
ghost use Rattle.forward_pass.specs.Answer.{told};
ghost use Rattle.method_pass.specs.Known.{IsKnownMethod};

use crate::method::MethodSteps;
use cil_world::World;
use class_table::ClassTable;
use code_places::Listing;
use ecma_types::stack::PlaceType;
use forward_pass::{Broken, pass};
use local_places::read_locals;
use member_keys::ClassId;
use method_facts::{class_place, method_places};
use plain_types::elem::Elem;
use plain_types::fault::NoMemory;
use std::alloc::Global;
use world_lattice::WorldLattice;

/// A class as a type by its row alone.
fn reference(table: &ClassTable<'_>, class: ClassId) -> Result<PlaceType, NoMemory>
    ensures { IfOk result (λ of. type_of of ≡ type_up (ClassOf (class_seen class))) }
{
    let of = class_place(table, class)?;
    Ok(PlaceType {
        elem: Elem::Class,
        ..of
    })
}

/// The pass over a method whose places are told.
fn pass_with<'m, 'a>(
    alloc: Global,
    world: &'m World<'a>,
    lattice: &'m WorldLattice<'m, 'a>,
    file: u16,
    listing: &'m Listing<'a>,
    arguments: &'m [PlaceType],
    locals: &'m [PlaceType],
    returns: PlaceType,
    exception: PlaceType,
) -> Result<Option<Broken>, NoMemory>
    requires { classes_seen lattice.now ≡ (ecma_sources world.now).classes }
    ensures { IfOk result (λ broken. (row : ℕ) (x : FilePart) (m : Method) → IsKnownMethod world.now file row x m listing.now → AllLoaded m.arguments → map place_of arguments.now ≡ map place_up m.arguments → map place_of locals.now ≡ map place_up m.locals → result_of returns ≡ option_map place_up m.returns → type_of exception ≡ type_up (ClassOf (exception_of (world_of world.now))) → broken ≡ told (passed (world_of world.now).sources (lattice_of (world_of world.now).sources) (ClassOf (exception_of (world_of world.now))) m (code_meant (world_of world.now) file x listing.now))) }
{
    let steps = MethodSteps {
        world,
        file,
        listing,
        lattice,
        arguments,
        locals,
        result: returns,
        exception,
    };
    pass(alloc, &steps, lattice, listing.body().code_size())
}

/// The first offset at which a method that is known breaks a rule, and the lowest rule there.
pub fn pass_over(
    alloc: Global,
    world: &World<'_>,
    lattice: &WorldLattice<'_, '_>,
    exception: ClassId,
    file: u16,
    row: u32,
    listing: &Listing<'_>,
) -> Result<Option<Broken>, NoMemory>
    requires lattice { classes_seen lattice.now ≡ (ecma_sources world.now).classes }
    requires exception { class_seen exception ≡ exception_of (world_of world.now) }
    requires file { file < length world.now }
    ensures { IfOk result (λ broken. (x : FilePart) (m : Method) → IsKnownMethod world.now file row x m listing.now → broken ≡ told (passed (world_of world.now).sources (lattice_of (world_of world.now).sources) (ClassOf (exception_of (world_of world.now))) m (code_meant (world_of world.now) file x listing.now))) }
{
    let method = ClassId {
        file: u32::from(file),
        row,
    };
    let table = world.classes();
    let Some(places) = method_places(alloc, table, method)? else {
        return Ok(None);
    };
    let locals = read_locals(alloc, world, file, listing.body().locals_token())?;
    let exception = reference(table, exception)?;
    pass_with(
        alloc,
        world,
        lattice,
        file,
        listing,
        &places.arguments,
        &locals,
        places.result,
        exception,
    )
}
