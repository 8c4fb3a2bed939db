//! How handlers begin (ECMA-335 III.1.7.5).

ghost use Rattle.std.specs.Prelude.{◌≡◌, ◌<◌, IfOk, Some, length, slice_get};
ghost use Rattle.std.specs.Option.{option_map};
ghost use Rattle.file_tables.specs.File.{FilePart};
ghost use Rattle.machine.specs.Data.{Id};
ghost use Rattle.classes.specs.Code.{CatchOf};
ghost use Rattle.world_rows.specs.World.{ecma_sources};
ghost use Rattle.member_keys.specs.Seen.{class_seen};
ghost use Rattle.type_names.specs.Resolved.{type_id, type_resolved};
ghost use Rattle.cil_types.specs.Spelt.{AreSpelt};
ghost use Rattle.code_rules.specs.Verdict.{begun_by};
ghost use Rattle.verdict_rules.specs.World.{world_of};
ghost use Rattle.code_tests.specs.Tests.{kind_meant};
ghost use Rattle.forward_pass.specs.Told.{begun};
ghost use Rattle.pass_steps.specs.Listed.{handler_at};
ghost use Rattle.pass_steps.specs.Seen.{stack_seen};

use cil_code::Clause;
use cil_world::World;
use code_places::{Listing, handler_at};
use ecma_types::id::TypeId;
use ecma_types::stack::StackType;
use forward_pass::Begins;
use member_keys::{ClassId, ElementKey, TypeKey};
use method_facts::place_type;
use plain_types::fault::NoMemory;

/// A type as a class, whose row counts from 0.
#[tactic(auto, using(operand_facts::proofs::RowLaws::from_one))]
fn class_of(of: TypeId) -> ClassId
    requires { 0 < of.row }
    ensures { (c : Id) → of ≡ type_id c → class_seen result ≡ c }
{
    ClassId {
        file: u32::from(of.file),
        row: of.row - 1,
    }
}

/// The class that a token of a catch names.
fn find_class(world: &World<'_>, file: u16, token: u32) -> Option<ClassId>
    requires { file < length world.now }
    ensures { option_map class_seen result ≡ type_resolved world.now file token }
{
    match world.resolve_type(file, token) {
        Ok(of) => Some(class_of(of)),
        Err(_) => None,
    }
}

/// How the handler of a catch of a class begins.
fn catch_begins(world: &World<'_>, class: ClassId) -> Result<Begins, NoMemory>
    ensures { IfOk result (λ begins. AreSpelt (ecma_sources world.now).classes → begun stack_seen begins ≡ Some (begun_by (ecma_sources world.now).classes (CatchOf (Some (class_seen class))))) }
{
    let key = TypeKey {
        ranks: 0,
        element: ElementKey::Class(class),
    };
    let of = place_type(world.classes(), key)?;
    Ok(Begins::Exception(StackType::O(of)))
}

/// How the handler of a catch begins that names a class; of none it begins as a finally.
fn caught(world: &World<'_>, class: Option<ClassId>) -> Result<Begins, NoMemory>
    ensures { IfOk result (λ begins. AreSpelt (ecma_sources world.now).classes → begun stack_seen begins ≡ Some (begun_by (ecma_sources world.now).classes (CatchOf (option_map class_seen class)))) }
{
    match class {
        Some(class) => catch_begins(world, class),
        None => Ok(Begins::Empty),
    }
}

/// How the handler of a clause begins.
fn handler_begins(world: &World<'_>, file: u16, clause: &Clause) -> Result<Begins, NoMemory>
    requires { file < length world.now }
    ensures { IfOk result (λ begins. (x : FilePart) → slice_get world.now file ≡ Some x → AreSpelt (ecma_sources world.now).classes → begun stack_seen begins ≡ Some (begun_by (ecma_sources world.now).classes (kind_meant (world_of world.now) file x clause.now))) }
{
    if clause.kind == 0 {
        caught(world, find_class(world, file, clause.token))
    } else {
        Ok(Begins::Empty)
    }
}

/// How the first handler begins that begins at an offset, if one does.
pub fn begins_at(
    world: &World<'_>,
    file: u16,
    listing: &Listing<'_>,
    at: u32,
) -> Result<Begins, NoMemory>
    requires { file < length world.now }
    ensures { IfOk result (λ begins. (x : FilePart) → slice_get world.now file ≡ Some x → AreSpelt (ecma_sources world.now).classes → begun stack_seen begins ≡ option_map (λ c. begun_by (ecma_sources world.now).classes (kind_meant (world_of world.now) file x c)) (handler_at listing.now.clauses at)) }
{
    let Some(n) = handler_at(listing.clauses(), at) else {
        return Ok(Begins::Nothing);
    };
    match listing.clauses().get(n) {
        Some(clause) => handler_begins(world, file, clause),
        None => Ok(Begins::Nothing),
    }
}
