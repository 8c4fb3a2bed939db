//! The rules of the slots of a class and of a file.

ghost use Rattle.std.specs.Prelude.{◌≡◌, IfOk, OnOk, length, slice_get};
ghost use Rattle.std.specs.Option.{option_map_or};
ghost use Rattle.member_keys.specs.Seen.{class_seen};
ghost use Rattle.member_search.specs.declared.sort.Sort.TheVariants.{Method};
ghost use Rattle.class_table.specs.declared.rows.FileRows.{FileRows};
ghost use Rattle.class_table.specs.Seen.{classes_seen};
ghost use Rattle.class_targets.specs.Virtual.{AreApart};
ghost use Rattle.slot_links.specs.Slots.{AddsClass, AddsSlots};

use crate::fills::add_reached;
use crate::overrides::add_overrides;
use class_queries::is_interface;
use class_reach::reached;
use class_table::ClassTable;
use member_keys::ClassId;
use member_search::MemberIndex;
use plain_types::fault::NoMemory;
use row_rules::RowRules;
use std::alloc::Global;

/// Adds the rules of the slots that a class takes, and of the methods of interfaces that it fills.
fn add_class<'a>(
    alloc: Global,
    rules: &mut RowRules,
    methods: &MemberIndex<'_, 'a>,
    class: ClassId,
) -> Result<(), NoMemory>
    requires sort { methods.now.sort ≡ Method }
    requires apart { AreApart (classes_seen methods.now.table) }
    ensures { OnOk result (AddsClass (classes_seen methods.now.table) (class_seen class) rules.old rules.new) }
{
    add_overrides(alloc, rules, methods, class)?;
    let above = reached(alloc, methods.table(), class)?;
    if is_interface(methods.table(), class) {
        return Ok(());
    }
    add_reached(alloc, rules, methods, class, above.as_slice())
}

/// How many types a file has. There is no room for 2^32 of them.
fn count_types(table: &ClassTable<'_>, file: u16) -> Result<u32, NoMemory>
    ensures { IfOk result (λ count. count ≡ option_map_or (λ (f : FileRows). length f.classes.items) (slice_get table.now.files.items file) 0) }
{
    match table.files.get(file as usize) {
        Some(rows) => {
            if rows.classes.len() > u32::MAX as usize {
                return Err(NoMemory);
            }
            Ok(rows.classes.len() as u32)
        }
        None => Ok(0),
    }
}

/// Adds the rules of the virtual methods of a file's classes. A method without a new slot keeps the nearest one above whose slot
/// it takes, and is kept where that one and its own type are (ECMA-335 II.10.3.1). In a class that is no interface, the first
/// virtual method of the name and signature of an interface's one, from the class upwards, is kept where the interface's one
/// and the type that has the body are (II.12.2). The index is one of methods, and no class has two methods of one name and
/// signature. In the time of what each class reaches, with a search up its superclasses for each method of that.
pub fn add_slots<'a>(
    alloc: Global,
    rules: &mut RowRules,
    methods: &MemberIndex<'_, 'a>,
    file: u16,
) -> Result<(), NoMemory>
    requires sort { methods.now.sort ≡ Method }
    requires apart { AreApart (classes_seen methods.now.table) }
    ensures { OnOk result (AddsSlots (classes_seen methods.now.table) file rules.old rules.new) }
{
    let count = count_types(methods.table(), file)?;
    for row in 0..count {
        let class = ClassId {
            file: u32::from(file),
            row,
        };
        add_class(alloc, rules, methods, class)?;
    }
    Ok(())
}
