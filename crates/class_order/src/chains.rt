//! Chains of superclasses.

ghost use Rattle.std.specs.Prelude.{◌≡◌, ◌+◌, length};
ghost use Rattle.std.specs.Option.{option_map};
ghost use Rattle.machine.specs.Data.{id_eq};
ghost use Rattle.classes.specs.Queries.{chain, common_superclass};
ghost use Rattle.member_keys.specs.Seen.{class_seen};
ghost use Rattle.class_table.specs.Seen.{classes_seen};
ghost use Rattle.class_order.specs.Order.{ChainsEnd, climbed};

use class_queries::superclass;
use class_table::ClassTable;
use member_keys::ClassId;

/// Whether two classes are the same.
pub fn is_same(a: ClassId, b: ClassId) -> bool
    ensures { result ≡ id_eq (class_seen a) (class_seen b) }
{
    a == b
}

/// How many classes stand above a class.
fn count_above(table: &ClassTable<'_>, class: ClassId) -> u64
    ensures { result + 1 ≡ length (chain (classes_seen table.now) (class_seen class)) }
{
    let mut class = class;
    for step in 0..table.size {
        match superclass(table, class) {
            Some(next) => class = next,
            None => return step,
        }
    }
    table.size
}

/// The class that stands so many steps above a class.
fn climb(table: &ClassTable<'_>, class: ClassId, steps: u64) -> Option<ClassId>
    ensures { option_map class_seen result ≡ climbed steps (classes_seen table.now) (class_seen class) }
{
    let mut class = class;
    for _step in 0..steps {
        class = superclass(table, class)?;
    }
    Some(class)
}

/// The nearest class above two that stand equally far below their topmost ones.
fn meet(table: &ClassTable<'_>, a: ClassId, b: ClassId) -> Option<ClassId>
    requires ends { ChainsEnd (classes_seen table.now) }
    requires level { length (chain (classes_seen table.now) (class_seen a)) ≡ length (chain (classes_seen table.now) (class_seen b)) }
    ensures { option_map class_seen result ≡ common_superclass (classes_seen table.now) (class_seen a) (class_seen b) }
{
    let mut a = a;
    let mut b = b;
    'up: while !is_same(a, b) {
        a = superclass(table, a)?;
        b = superclass(table, b)?;
    }
    Some(a)
}

/// The nearest class that is above both, or one of them (ECMA-335 III.1.8.1.3), in a table where no chain of superclasses goes in a
/// circle. In the time of the chains' length.
pub fn common_superclass(table: &ClassTable<'_>, a: ClassId, b: ClassId) -> Option<ClassId>
    requires { ChainsEnd (classes_seen table.now) }
    ensures { option_map class_seen result ≡ common_superclass (classes_seen table.now) (class_seen a) (class_seen b) }
{
    let above_a = count_above(table, a);
    let above_b = count_above(table, b);
    let level_a = climb(table, a, above_a.saturating_sub(above_b))?;
    let level_b = climb(table, b, above_b.saturating_sub(above_a))?;
    meet(table, level_a, level_b)
}
