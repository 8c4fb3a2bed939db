//! The bodies that a class has for the methods of its interfaces (ECMA-335 II.12.2).

ghost use Rattle.std.specs.Prelude.{◌≡◌, ℕ, Some, IfOk, OnOk, map};
ghost use Rattle.std.specs.List.{flat_map};
ghost use Rattle.std.specs.Option.{option_map};
ghost use Rattle.classes.specs.Classes.{OwnMethod};
ghost use Rattle.classes.specs.Queries.{chain, first_some, is_interface, methods_of, own_virtual};
ghost use Rattle.member_keys.specs.Seen.{class_seen};
ghost use Rattle.member_search.specs.declared.sort.Sort.TheVariants.{Method};
ghost use Rattle.class_table.specs.Seen.{classes_seen, method_row, method_seen};
ghost use Rattle.class_targets.specs.Virtual.{AreApart};
ghost use Rattle.row_rules.specs.Links.{Adds};
ghost use Rattle.slot_links.specs.Slots.{for_some, filled_by, fills, implements};

use crate::places::{method_place, type_place};
use class_queries::is_interface;
use class_slots::own_rows;
use class_table::{ClassTable, MethodRow};
use class_targets::{find_method, implementing};
use member_keys::ClassId;
use member_search::{MemberIndex, method_key};
use plain_types::fault::NoMemory;
use row_rules::RowRules;
use std::alloc::Global;

/// The class that has a method.
fn method_owner(table: &ClassTable<'_>, method: ClassId) -> Option<ClassId>
    ensures { option_map class_seen result ≡ (classes_seen table.now).method_owner (class_seen method) }
{
    let row = find_method(table, method)?;
    let owner = row.owner?;
    Some(ClassId {
        file: method.file,
        row: owner,
    })
}

/// Adds that a method is filled by a body of a type.
fn add_filled(
    rules: &mut RowRules,
    method: ClassId,
    body: ClassId,
    owner: ClassId,
) -> Result<(), NoMemory>
    ensures { OnOk result (Adds (filled_by (class_seen method) (class_seen body) (class_seen owner)) rules.old rules.new) }
{
    let holder = type_place(owner)?;
    let asked = method_place(method)?;
    let filler = method_place(body)?;
    rules.add(holder, asked, filler)
}

/// The same, of the class that has the body.
fn add_body(
    rules: &mut RowRules,
    table: &ClassTable<'_>,
    method: ClassId,
    body: ClassId,
) -> Result<(), NoMemory>
    ensures { OnOk result (Adds (for_some (filled_by (class_seen method) (class_seen body)) ((classes_seen table.now).method_owner (class_seen body))) rules.old rules.new) }
{
    match method_owner(table, body) {
        Some(owner) => add_filled(rules, method, body, owner),
        None => Ok(()),
    }
}

/// The first virtual method of a method's name and signature from a class upwards.
fn find_first<'a>(
    alloc: Global,
    methods: &MemberIndex<'_, 'a>,
    class: ClassId,
    row: &MethodRow<'a>,
) -> Result<Option<ClassId>, NoMemory>
    requires sort { methods.now.sort ≡ Method }
    requires apart { AreApart (classes_seen methods.now.table) }
    ensures { IfOk result (λ found. (file n : ℕ) → let cs = classes_seen methods.now.table in option_map class_seen found ≡ option_map (λ x. x.id) (first_some (own_virtual cs (method_seen file n row.now)) (chain cs (class_seen class)))) }
{
    let key = method_key(alloc, row)?;
    Ok(implementing(methods, &key, class))
}

/// Adds that a method of an interface is filled by the first virtual one of its name and signature from a class upwards.
fn add_first<'a>(
    alloc: Global,
    rules: &mut RowRules,
    methods: &MemberIndex<'_, 'a>,
    class: ClassId,
    method: ClassId,
    row: &MethodRow<'a>,
) -> Result<(), NoMemory>
    requires sort { methods.now.sort ≡ Method }
    requires apart { AreApart (classes_seen methods.now.table) }
    ensures { OnOk result (Adds (fills (classes_seen methods.now.table) (class_seen class) (method_seen method.file method.row row.now)) rules.old rules.new) }
{
    let found = find_first(alloc, methods, class, row)?;
    match found {
        Some(body) => add_body(rules, methods.table(), method, body),
        None => Ok(()),
    }
}

/// The same of a method by its number.
fn add_fill<'a>(
    alloc: Global,
    rules: &mut RowRules,
    methods: &MemberIndex<'_, 'a>,
    class: ClassId,
    method: ClassId,
) -> Result<(), NoMemory>
    requires sort { methods.now.sort ≡ Method }
    requires apart { AreApart (classes_seen methods.now.table) }
    ensures { OnOk result ((m : OwnMethod) → method_row methods.now.table (class_seen method) ≡ Some m → Adds (fills (classes_seen methods.now.table) (class_seen class) m) rules.old rules.new) }
{
    match find_method(methods.table(), method) {
        Some(row) => add_first(alloc, rules, methods, class, method, row),
        None => Ok(()),
    }
}

/// Adds what fills each method of an interface in a class.
fn add_fills<'a>(
    alloc: Global,
    rules: &mut RowRules,
    methods: &MemberIndex<'_, 'a>,
    class: ClassId,
    interface: ClassId,
) -> Result<(), NoMemory>
    requires sort { methods.now.sort ≡ Method }
    requires apart { AreApart (classes_seen methods.now.table) }
    ensures { OnOk result (Adds (flat_map (fills (classes_seen methods.now.table) (class_seen class)) (methods_of (classes_seen methods.now.table) (class_seen interface))) rules.old rules.new) }
{
    let own = own_rows(methods.table(), interface)?;
    for row in own.start..own.end {
        let method = ClassId {
            file: interface.file,
            row,
        };
        add_fill(alloc, rules, methods, class, method)?;
    }
    Ok(())
}

/// The same, of a class or an interface: a class asks for nothing.
fn add_implements<'a>(
    alloc: Global,
    rules: &mut RowRules,
    methods: &MemberIndex<'_, 'a>,
    class: ClassId,
    above: ClassId,
) -> Result<(), NoMemory>
    requires sort { methods.now.sort ≡ Method }
    requires apart { AreApart (classes_seen methods.now.table) }
    ensures { OnOk result (Adds (implements (classes_seen methods.now.table) (class_seen class) (class_seen above)) rules.old rules.new) }
{
    if is_interface(methods.table(), above) {
        add_fills(alloc, rules, methods, class, above)
    } else {
        Ok(())
    }
}

/// Adds what fills each method of the interfaces among what a class reaches.
pub fn add_reached<'a>(
    alloc: Global,
    rules: &mut RowRules,
    methods: &MemberIndex<'_, 'a>,
    class: ClassId,
    reached: &[ClassId],
) -> Result<(), NoMemory>
    requires sort { methods.now.sort ≡ Method }
    requires apart { AreApart (classes_seen methods.now.table) }
    ensures { OnOk result (Adds (flat_map (implements (classes_seen methods.now.table) (class_seen class)) (map class_seen reached.now)) rules.old rules.new) }
{
    for above in reached {
        add_implements(alloc, rules, methods, class, *above)?;
    }
    Ok(())
}
