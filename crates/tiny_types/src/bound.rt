//! The types of a bound set, and what is known of them beforehand.

ghost use Rattle.std.specs.Prelude.{◌≡◌, IfOk, length};
ghost use Rattle.std.specs.List.{list_any};
ghost use Rattle.std.specs.Option.{option_map};
ghost use Rattle.machine.specs.Data.{id_eq};
ghost use Rattle.classes.specs.Queries.{array, basic, instance_fields, is_or_implements};
ghost use Rattle.member_keys.specs.Seen.{class_seen};
ghost use Rattle.class_table.specs.Seen.{classes_seen};
ghost use Rattle.tiny_types.specs.Small.{IsSmall};

use crate::answers::{FileAnswers, answer_all, answer_of};
use crate::small::check_small;
use crate::up::is_same;
use class_order::{BasicClasses, find_basic};
use class_table::ClassTable;
use member_keys::ClassId;
use plain_types::elem::Elem;
use plain_types::fault::NoMemory;
use std::alloc::Global;
use std::marker::Model;

/// The types of a bound set, with what is asked of them often. Contracts see the table, which tells the set's classes.
#[derive(Drop)]
pub struct BoundTypes<'t, 'a> {
    table: &'t ClassTable<'a>,
    basic: BasicClasses,
    answers: Vec<FileAnswers>,
}

impl<'t, 'a> Model for BoundTypes<'t, 'a> {
    ghost use Rattle.class_table.specs.declared.rows.ClassTable.{ClassTable};

    ghost Value = { ClassTable };

    ghost use Rattle.tiny_types.specs.Bound.{AreTypes};

    ghost view = { λ b. b.table.now };

    ghost invariant = { AreTypes };
}

/// Whether a class is among some.
fn is_among(classes: &[ClassId], wanted: ClassId) -> bool
    ensures { result ≡ list_any (λ c. id_eq (class_seen wanted) (class_seen c)) classes.now }
{
    for class in classes {
        if is_same(wanted, *class) {
            return true;
        }
    }
    false
}

/// The types of a bound set by its table: how many fields each class's objects have, and which classes and interfaces it
/// reaches, are found here once, in the time and memory of what the classes declare and reach.
///
/// # Errors
///
/// [`NoMemory`] also where the table has more than 65,535 files, or a file more than so many types or methods, which no image has,
/// and where objects of a class have 2^32 fields and more.
pub fn bind_types<'t, 'a>(
    alloc: Global,
    table: &'t ClassTable<'a>,
) -> Result<BoundTypes<'t, 'a>, NoMemory>
    ensures { IfOk result (λ types. types ≡ table.now) }
{
    check_small(table)?;
    let answers = answer_all(alloc, table)?;
    Ok(BoundTypes {
        table,
        basic: find_basic(table),
        answers,
    })
}

impl<'t, 'a> BoundTypes<'t, 'a> {
    /// What the set's images say of types and members, in rows with numbers of 16 bits.
    pub fn table(&self) -> &'t ClassTable<'a>
        ensures table { result.now ≡ self.now }
        ensures small { IsSmall result.now }
    {
        self.table
    }

    /// How many instance fields objects of a class have.
    pub(crate) fn count_fields(&self, class: ClassId) -> u32
        ensures { result ≡ length (instance_fields (classes_seen self.now) (class_seen class)) }
    {
        match answer_of(&self.answers, class) {
            Some(answer) => answer.field_count,
            None => 0,
        }
    }

    /// Whether a class is the other one, stands below it or implements it (ECMA-335 I.8.7).
    pub(crate) fn is_or_implements(&self, class: ClassId, other: ClassId) -> bool
        ensures { result ≡ is_or_implements (classes_seen self.now) (class_seen class) (class_seen other) }
    {
        match answer_of(&self.answers, class) {
            Some(answer) => is_among(&answer.reached, other),
            None => is_same(class, other),
        }
    }

    /// The base library's class of an element; `None` where it has none.
    pub(crate) fn class_of_elem(&self, elem: Elem) -> Option<ClassId>
        ensures { option_map class_seen result ≡ basic (classes_seen self.now) elem }
    {
        match elem {
            Elem::Bool => self.basic.boolean,
            Elem::Char => self.basic.char,
            Elem::I1 => self.basic.sbyte,
            Elem::U1 => self.basic.byte,
            Elem::I2 => self.basic.int16,
            Elem::U2 => self.basic.uint16,
            Elem::I4 => self.basic.int32,
            Elem::U4 => self.basic.uint32,
            Elem::I8 => self.basic.int64,
            Elem::U8 => self.basic.uint64,
            Elem::String => self.basic.string,
            Elem::Object => self.basic.object,
            Elem::Void | Elem::Class | Elem::Value => None,
        }
    }

    /// The base library's class of arrays.
    pub(crate) fn array_class(&self) -> Option<ClassId>
        ensures { option_map class_seen result ≡ array (classes_seen self.now) }
    {
        self.basic.array
    }
}
