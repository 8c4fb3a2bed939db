//! How the references of an assembly are resolved: those outside other references first, then those inside what is found.

ghost use Rattle.std.specs.Prelude.{◌≡◌, ℕ, ◌+◌, ◌<◌, ◌≤◌, None, IfOk, OnOk, count_by, is_some, length, map, slice_get};
ghost use Rattle.assemblies.specs.Binding.{resolve_ref};
ghost use Rattle.member_keys.specs.Seen.{class_seen};
ghost use Rattle.scope_walk.specs.Scopes.{reference_at, references_in};
ghost use Rattle.scope_walk.specs.Walk.{value_at, pushed_at, AreEmpty, IsStarted, AreNested, IsWalked};
ghost use Rattle.scope_walk.specs.Visits.{Settles, Visits};

use crate::references::References;
use member_keys::ClassId;
use plain_types::fault::NoMemory;
use std::alloc::Global;

/// What is resolved so far: the type of each row, and the rows that have one in the order in which they were found.
#[derive(Drop)]
pub struct Walk {
    pub resolved: Vec<Option<ClassId>>,
    pub found: Vec<u32>,
}

/// Gives a row its type.
fn settle(walk: &mut Walk, n: u32, class: ClassId) -> Result<(), NoMemory>
    requires { n < length walk.old.resolved.items }
    ensures { OnOk result (Settles walk.old walk.new n class) }
{
    walk.found.push(n)?;
    walk.resolved[n as usize] = Some(class);
    Ok(())
}

/// Notes a row among those inside another one.
fn nest(nested: &mut Vec<Vec<u32>>, outer: u32, n: u32) -> Result<(), NoMemory>
    ensures { OnOk result (map (λ rows. rows.items) nested.new.items ≡ pushed_at (map (λ rows. rows.items) nested.old.items) outer n) }
{
    if (outer as usize) < nested.len() {
        nested[outer as usize].push(n)?;
    }
    Ok(())
}

/// Gives a row the type that it names inside another type, unless it has one.
fn visit<R: References>(
    walk: &mut Walk,
    references: &R,
    file: u32,
    outer: ClassId,
    n: u32,
) -> Result<(), NoMemory>
    ensures { OnOk result (Visits (R.rows references.now) file (class_seen outer) n walk.old walk.new) }
{
    if (n as usize) >= walk.resolved.len() || walk.resolved[n as usize].is_some() {
        return Ok(());
    }
    match references.find_inside(file, outer, n) {
        Some(class) => settle(walk, n, class),
        None => Ok(()),
    }
}

/// Begins with a row: gives it the type that it names where it isn't inside another one, else notes it there.
fn begin<R: References>(
    walk: &mut Walk,
    nested: &mut Vec<Vec<u32>>,
    references: &R,
    file: u32,
    n: u32,
) -> Result<(), NoMemory>
    requires row { n < length walk.old.resolved.items }
    requires started { IsStarted (R.rows references.now) file walk.old.resolved.items walk.old.found.items n }
    requires inside { AreNested (R.rows references.now) file (map (λ rows. rows.items) nested.old.items) n }
    ensures size { OnOk result (length walk.new.resolved.items ≡ length walk.old.resolved.items) }
    ensures sizes { OnOk result (length nested.new.items ≡ length nested.old.items) }
    ensures started { OnOk result (IsStarted (R.rows references.now) file walk.new.resolved.items walk.new.found.items (n + 1)) }
    ensures inside { OnOk result (AreNested (R.rows references.now) file (map (λ rows. rows.items) nested.new.items) (n + 1)) }
{
    if let Some(outer) = references.outer(file, n) {
        return nest(nested, outer, n);
    }
    match references.find_alone(file, n) {
        Some(class) => settle(walk, n, class),
        None => Ok(()),
    }
}

/// Goes on from a row that was found to the rows inside it.
fn expand<R: References>(
    walk: &mut Walk,
    nested: &[Vec<u32>],
    references: &R,
    file: u32,
    at: usize,
) -> Result<(), NoMemory>
    requires place { at < length walk.old.found.items }
    requires walked { IsWalked (R.rows references.now) file walk.old.resolved.items walk.old.found.items at }
    requires size { length nested.now ≡ length walk.old.resolved.items }
    requires inside { AreNested (R.rows references.now) file (map (λ rows. rows.items) nested.now) (length walk.old.resolved.items) }
    requires whole { (n : ℕ) → length walk.old.resolved.items ≤ n → reference_at (R.rows references.now) file n ≡ None }
    ensures size { OnOk result (length walk.new.resolved.items ≡ length walk.old.resolved.items) }
    ensures walked { OnOk result (IsWalked (R.rows references.now) file walk.new.resolved.items walk.new.found.items (at + 1)) }
{
    let row = walk.found[at] as usize;
    if let Some(outer) = walk.resolved[row] {
        for n in &nested[row] {
            visit(walk, references, file, outer, *n)?;
        }
    }
    Ok(())
}

/// Begins with each row.
fn begin_all<R: References>(
    walk: &mut Walk,
    nested: &mut Vec<Vec<u32>>,
    references: &R,
    file: u32,
    count: u32,
) -> Result<(), NoMemory>
    requires count { count ≡ length walk.old.resolved.items }
    requires started { IsStarted (R.rows references.now) file walk.old.resolved.items walk.old.found.items 0 }
    requires inside { AreNested (R.rows references.now) file (map (λ rows. rows.items) nested.old.items) 0 }
    ensures size { OnOk result (length walk.new.resolved.items ≡ length walk.old.resolved.items) }
    ensures sizes { OnOk result (length nested.new.items ≡ length nested.old.items) }
    ensures started { OnOk result (IsStarted (R.rows references.now) file walk.new.resolved.items walk.new.found.items (length walk.new.resolved.items)) }
    ensures inside { OnOk result (AreNested (R.rows references.now) file (map (λ rows. rows.items) nested.new.items) (length walk.new.resolved.items)) }
{
    for n in 0..count {
        begin(walk, nested, references, file, n)?;
    }
    Ok(())
}

/// Goes on from each row that is found.
fn expand_all<R: References>(
    walk: &mut Walk,
    nested: &[Vec<u32>],
    references: &R,
    file: u32,
) -> Result<(), NoMemory>
    requires walked { IsWalked (R.rows references.now) file walk.old.resolved.items walk.old.found.items 0 }
    requires size { length nested.now ≡ length walk.old.resolved.items }
    requires inside { AreNested (R.rows references.now) file (map (λ rows. rows.items) nested.now) (length walk.old.resolved.items) }
    requires whole { (n : ℕ) → length walk.old.resolved.items ≤ n → reference_at (R.rows references.now) file n ≡ None }
    ensures size { OnOk result (length walk.new.resolved.items ≡ length walk.old.resolved.items) }
    ensures resolved { OnOk result ((most n : ℕ) → length walk.new.resolved.items ≤ most → value_at walk.new.resolved.items n ≡ resolve_ref most (R.rows references.now) file n) }
{
    let mut at = 0;
    while at < walk.found.len() {
        expand(walk, nested, references, file, at)?;
        at += 1;
    }
    Ok(())
}

/// No type for each row.
fn unresolved(alloc: Global, count: u32) -> Result<Vec<Option<ClassId>>, NoMemory>
    ensures size { IfOk result (λ types. length types.items ≡ count) }
    ensures counted { IfOk result (λ types. count_by is_some types.items ≡ 0) }
    ensures unset { IfOk result (λ types. (n : ℕ) → value_at types.items n ≡ None) }
{
    let mut types = Vec::new(alloc);
    for _n in 0..count {
        types.push(None)?;
    }
    Ok(types)
}

/// No rows inside each row.
fn unnested(alloc: Global, count: u32) -> Result<Vec<Vec<u32>>, NoMemory>
    ensures size { IfOk result (λ nested. length nested.items ≡ count) }
    ensures empty { IfOk result (λ nested. AreEmpty (map (λ rows. rows.items) nested.items)) }
{
    let mut nested = Vec::new(alloc);
    for _n in 0..count {
        nested.push(Vec::new(alloc))?;
    }
    Ok(nested)
}

/// The type that each reference of an assembly names, if any, by at least as many scopes as it has references.
pub fn resolve_references<R: References>(
    alloc: Global,
    references: &R,
    file: u32,
) -> Result<Vec<Option<ClassId>>, NoMemory>
    ensures size { IfOk result (λ types. length types.items ≡ references_in (R.rows references.now) file) }
    ensures types { IfOk result (λ types. (most n : ℕ) → references_in (R.rows references.now) file ≤ most → value_at types.items n ≡ resolve_ref most (R.rows references.now) file n) }
{
    let count = references.count(file);
    let mut walk = Walk {
        resolved: unresolved(alloc, count)?,
        found: Vec::new(alloc),
    };
    let mut nested = unnested(alloc, count)?;
    begin_all(&mut walk, &mut nested, references, file, count)?;
    expand_all(&mut walk, &nested, references, file)?;
    Ok(walk.resolved)
}
