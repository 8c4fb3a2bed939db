//! The bodies that virtual calls have found before.

ghost use Rattle.std.specs.Prelude.{◌≡◌, ◌<◌, IfOk, IfSome, IsTrue, None, slice_get, unwrap_or};
ghost use Rattle.std.specs.Option.{option_map};
ghost use Rattle.classes.specs.Classes.{Classes};
ghost use Rattle.classes.specs.Queries.{target};
ghost use Rattle.class_table.specs.Seen.{classes_seen};
ghost use Rattle.board_ids.specs.Ids.{id_of};
ghost use Rattle.tiny_types.specs.Found.{AreFound};

use crate::bodies::target;
use crate::bound::BoundTypes;
use board_types::board::TypeAt;
use plain_types::fault::NoMemory;
use std::alloc::Global;

/// How many answers are kept.
const KEPT: u32 = 1024;

/// What a call of a method found on an object of a class.
#[derive(Clone, Copy, Debug)]
pub struct FoundTarget {
    pub class: TypeAt,
    pub method: TypeAt,
    pub body: Option<TypeAt>,
}

/// Answers found before, each at the place that its class and method have.
#[derive(Debug, Drop)]
pub struct FoundTargets {
    pub found: Vec<Option<FoundTarget>>,
}

/// The place of a class and a method.
fn place(class: TypeAt, method: TypeAt) -> usize
    ensures { result < 1024 }
{
    let both = u32::from(class.row) * 31 + u32::from(method.row);
    let files = u32::from(class.assembly) * 257 + u32::from(method.assembly) * 7;
    ((both + files) % KEPT) as usize
}

/// No answers.
pub fn no_targets(alloc: Global) -> Result<FoundTargets, NoMemory>
    ensures { IfOk result (λ targets. (cs : Classes) → AreFound cs targets.found.items) }
{
    let mut found = Vec::new(alloc);
    for _place in 0..KEPT {
        found.push(None)?;
    }
    Ok(FoundTargets { found })
}

/// What stands at a place.
fn at(found: &[Option<FoundTarget>], place: usize) -> Option<FoundTarget>
    ensures { result ≡ unwrap_or (slice_get found.now place) None }
{
    found.get(place).copied().unwrap_or(None)
}

/// Whether an answer is one for the class and the method.
fn is_for(kept: FoundTarget, class: TypeAt, method: TypeAt) -> bool
    ensures { IsTrue result → (kept.class ≡ class) × (kept.method ≡ method) }
{
    kept.class == class && kept.method == method
}

/// The answer for a class and a method, if it stands at its place.
fn known(found: &[Option<FoundTarget>], class: TypeAt, method: TypeAt) -> Option<FoundTarget>
    ensures { (cs : Classes) → AreFound cs found.now → IfSome result (λ f. option_map id_of f.body ≡ target cs (id_of class) (id_of method)) }
{
    let kept = at(found, place(class, method))?;
    if is_for(kept, class, method) {
        Some(kept)
    } else {
        None
    }
}

/// Keeps an answer at a place.
fn keep(found: &mut [Option<FoundTarget>], place: usize, new: FoundTarget)
    ensures { (cs : Classes) → AreFound cs found.old → option_map id_of new.body ≡ target cs (id_of new.class) (id_of new.method) → AreFound cs found.new }
{
    if place < found.len() {
        found[place] = Some(new);
    }
}

/// What [`target`] gives, in constant time where it was found before.
pub fn find_target(
    targets: &mut FoundTargets,
    types: &BoundTypes<'_, '_>,
    class: TypeAt,
    method: TypeAt,
) -> Option<TypeAt>
    requires { AreFound (classes_seen types.now) targets.old.found.items }
    ensures body { option_map id_of result ≡ target (classes_seen types.now) (id_of class) (id_of method) }
    ensures found { AreFound (classes_seen types.now) targets.new.found.items }
{
    if let Some(kept) = known(&targets.found, class, method) {
        return kept.body;
    }
    let body = target(types, class, method);
    let new = FoundTarget {
        class,
        method,
        body,
    };
    keep(&mut targets.found, place(class, method), new);
    body
}
