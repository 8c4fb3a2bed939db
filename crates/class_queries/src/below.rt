//! Which classes are a class or below it.

ghost use Rattle.std.specs.Prelude.{◌≡◌, ℕ, true, IfOk, None, Some, length, slice_get, unwrap_or};
ghost use Rattle.machine.specs.Data.{Id, id_eq};
ghost use Rattle.classes.specs.Queries.{above, ends, is_sub};
ghost use Rattle.member_keys.specs.Seen.{class_seen};
ghost use Rattle.class_table.specs.declared.rows.ClassTable.{ClassTable};
ghost use Rattle.class_table.specs.Seen.{classes_seen};
ghost use Rattle.class_queries.specs.declared.chains.Way.TheVariants as way;
ghost use Rattle.class_queries.specs.Numbers.{number_of, total_of, AreNumbers};
ghost use Rattle.class_queries.specs.Heights.{AreHeights};
ghost use Rattle.class_queries.specs.Below.{AreBelow};

use crate::chains::{Heights, ends};
use crate::graph::list_classes;
use crate::numbers::{Numbers, number};
use crate::rows::superclass;
use class_table::ClassTable;
use member_keys::ClassId;
use plain_types::fault::NoMemory;
use std::alloc::Global;

/// Whether two classes are the same.
fn is_same(a: ClassId, b: ClassId) -> bool
    ensures { result ≡ id_eq (class_seen a) (class_seen b) }
{
    a == b
}

/// Whether a class is the other one, or below it. It goes up at most as many classes as the table has.
pub fn is_sub(table: &ClassTable<'_>, class: ClassId, other: ClassId) -> bool
    ensures { result ≡ is_sub (classes_seen table.now) (class_seen class) (class_seen other) }
{
    let mut class = class;
    for _step in 0..table.size {
        if is_same(class, other) {
            return true;
        }
        match superclass(table, class) {
            Some(next) => class = next,
            None => return false,
        }
    }
    is_same(class, other)
}

/// What stands at a number, if it was decided.
fn at(known: &[Option<bool>], number: u32) -> Option<bool>
    ensures { result ≡ unwrap_or (slice_get known.now number) None }
{
    known.get(number as usize).copied().unwrap_or(None)
}

/// What was decided of a class.
fn known_at(
    known: &[Option<bool>],
    numbers: &Numbers,
    table: &ClassTable<'_>,
    class: ClassId,
) -> Option<bool>
    requires { AreNumbers table.now numbers.now }
    ensures { result ≡ unwrap_or (slice_get known.now (number_of table.now (class_seen class))) None }
{
    at(known, number(numbers, table, class))
}

/// Notes what was decided of a class of the table.
fn note(
    known: &mut [Option<bool>],
    numbers: &Numbers,
    table: &ClassTable<'_>,
    class: ClassId,
    answer: bool,
)
    requires { AreNumbers table.now numbers.now }
    ensures { (other : Id) → AreBelow table.now other known.old → is_sub (classes_seen table.now) (class_seen class) other ≡ answer → AreBelow table.now other known.new }
{
    let place = number(numbers, table, class) as usize;
    if place < known.len() {
        known[place] = Some(answer);
    }
}

/// Whether a class is the other one or below it, by the first class on its way up of which it is known.
fn decide(
    known: &[Option<bool>],
    numbers: &Numbers,
    table: &ClassTable<'_>,
    class: ClassId,
    other: ClassId,
) -> bool
    requires numbers { AreNumbers table.now numbers.now }
    requires below { AreBelow table.now (class_seen other) known.now }
    requires ends { ends table.now.size (above (classes_seen table.now)) (class_seen class) ≡ true }
    ensures { result ≡ is_sub (classes_seen table.now) (class_seen class) (class_seen other) }
{
    let mut class = class;
    for _step in 0..table.size {
        if is_same(class, other) {
            return true;
        }
        if let Some(answer) = known_at(known, numbers, table, class) {
            return answer;
        }
        match superclass(table, class) {
            Some(next) => class = next,
            None => return false,
        }
    }
    is_sub(table, class, other)
}

/// Notes the answer of a class, and of those on its way up to the first one of which it is known.
fn mark_way(
    known: &mut [Option<bool>],
    numbers: &Numbers,
    table: &ClassTable<'_>,
    class: ClassId,
    other: ClassId,
    answer: bool,
)
    requires numbers { AreNumbers table.now numbers.now }
    requires below { AreBelow table.now (class_seen other) known.old }
    requires ends { ends table.now.size (above (classes_seen table.now)) (class_seen class) ≡ true }
    requires answer { is_sub (classes_seen table.now) (class_seen class) (class_seen other) ≡ answer }
    ensures { AreBelow table.now (class_seen other) known.new }
{
    let mut class = class;
    for _step in 0..table.size {
        if known_at(known, numbers, table, class).is_some() {
            return;
        }
        note(known, numbers, table, class, answer);
        if is_same(class, other) {
            return;
        }
        match superclass(table, class) {
            Some(next) => class = next,
            None => return,
        }
    }
}

/// Decides a class whose way up ends, and those on its way.
fn settle(
    known: &mut [Option<bool>],
    heights: &Heights,
    table: &ClassTable<'_>,
    class: ClassId,
    other: ClassId,
)
    requires above { AreHeights table.now way.Above heights.now }
    requires below { AreBelow table.now (class_seen other) known.old }
    ensures { AreBelow table.now (class_seen other) known.new }
{
    if ends(heights, table, class, table.size) {
        let answer = decide(known, &heights.numbers, table, class, other);
        mark_way(known, &heights.numbers, table, class, other, answer);
    }
}

/// So many classes of which nothing is known.
fn undecided(alloc: Global, count: u32) -> Result<Vec<Option<bool>>, NoMemory>
    ensures { IfOk result (λ known. (t : ClassTable) → total_of t ≡ count → (other : Id) → AreBelow t other known.items) }
{
    let mut known = Vec::new(alloc);
    for _class in 0..count {
        known.push(None)?;
    }
    Ok(known)
}

/// For each class of a table by its number whether it is the other one or below it, where its way up ends: in the time of the
/// number of classes.
pub fn classes_below(
    alloc: Global,
    table: &ClassTable<'_>,
    heights: &Heights,
    other: ClassId,
) -> Result<Vec<Option<bool>>, NoMemory>
    requires { AreHeights table.now way.Above heights.now }
    ensures { IfOk result (λ known. AreBelow table.now (class_seen other) known.items) }
{
    let classes = list_classes(alloc, table, &heights.numbers)?;
    let mut known = undecided(alloc, heights.numbers.total)?;
    for class in &classes {
        settle(&mut known, heights, table, *class, other);
    }
    Ok(known)
}

/// Whether a class is the other one or below it, by what is known.
pub fn is_below(
    known: &[Option<bool>],
    numbers: &Numbers,
    table: &ClassTable<'_>,
    class: ClassId,
    other: ClassId,
) -> bool
    requires numbers { AreNumbers table.now numbers.now }
    requires below { AreBelow table.now (class_seen other) known.now }
    ensures { result ≡ is_sub (classes_seen table.now) (class_seen class) (class_seen other) }
{
    match known_at(known, numbers, table, class) {
        Some(answer) => answer,
        None => is_sub(table, class, other),
    }
}
