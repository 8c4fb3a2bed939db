//! Classes that were found, each once.

ghost use Rattle.std.specs.Prelude.{◌≡◌, [], ◌∷◌, IfOk, OnOk, map};
ghost use Rattle.std.specs.Option.{option_map};
ghost use Rattle.classes.specs.Queries.{listed};
ghost use Rattle.member_keys.specs.Seen.{class_seen};
ghost use Rattle.class_reach.specs.Found.{IsFound, Adds};

use member_keys::ClassId;
use plain_types::fault::NoMemory;
use std::alloc::Global;
use std::collections::BTreeSet;

/// Classes in the order in which they were found, and the same as a set.
#[derive(Debug, Drop)]
pub struct Found {
    pub items: Vec<ClassId>,
    pub seen: BTreeSet<ClassId>,
}

/// No class.
fn nothing(alloc: Global) -> Found
    ensures items { result.items.items ≡ [] }
    ensures found { IsFound result }
{
    Found {
        items: Vec::new(alloc),
        seen: BTreeSet::new(alloc),
    }
}

/// Adds a class, unless it was found.
fn add(found: &mut Found, class: ClassId) -> Result<(), NoMemory>
    requires { IsFound found.old }
    ensures { OnOk result (Adds (class_seen class ∷ []) found.old found.new) }
{
    if found.seen.insert(class)? {
        found.items.push(class)?;
    }
    Ok(())
}

/// Adds a class, if there is one.
pub fn add_some(found: &mut Found, class: Option<ClassId>) -> Result<(), NoMemory>
    requires { IsFound found.old }
    ensures { OnOk result (Adds (listed (option_map class_seen class)) found.old found.new) }
{
    match class {
        Some(class) => add(found, class),
        None => Ok(()),
    }
}

/// Adds classes, each unless it was found.
pub fn add_all(found: &mut Found, classes: &[ClassId]) -> Result<(), NoMemory>
    requires { IsFound found.old }
    ensures { OnOk result (Adds (map class_seen classes.now) found.old found.new) }
{
    for class in classes {
        add(found, *class)?;
    }
    Ok(())
}

/// One class alone.
pub fn begin(alloc: Global, class: ClassId) -> Result<Found, NoMemory>
    ensures items { IfOk result (λ found. found.items.items ≡ class ∷ []) }
    ensures found { IfOk result IsFound }
{
    let mut found = nothing(alloc);
    found.seen.insert(class)?;
    found.items.push(class)?;
    Ok(found)
}
