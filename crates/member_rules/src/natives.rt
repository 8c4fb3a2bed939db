//! The exceptions that natives throw.

ghost use Rattle.std.specs.Prelude.{◌≡◌, ◌<◌, ◌^◌, IfOk, OnOk};
ghost use Rattle.board_types.specs.declared.board.Known.TheVariants.{Argument, ArgumentNull, ArgumentOutOfRange};
ghost use Rattle.classes.specs.Classes.{Classes};
ghost use Rattle.class_table.specs.Seen.{body_seen, classes_seen, native_seen};
ghost use Rattle.class_queries.specs.Numbers.{total_of};
ghost use Rattle.row_rules.specs.Links.{row_at, row_if, keeps_each, Adds};
ghost use Rattle.member_rules.specs.Members.{rows_where, throws_in, thrown_by};
ghost use Rattle.member_rules.specs.Thrown.{IsThrown};

use crate::library::{known_name, library_place};
use crate::places::keep_if;
use board_types::board::Known;
use class_table::{Body, ClassTable};
use plain_types::fault::NoMemory;
use row_rules::{RowPlace, RowRules};

/// The numbers of the natives that throw one of these exceptions.
const ARRAY_COPY: u16 = 5;

const STRING_SUBSTRING: u16 = 9;

const STRING_FROM_CHARS: u16 = 12;

const INITIALIZE_ARRAY: u16 = 16;

/// The classes of the exceptions that natives alone throw; `None` where the base library lacks one.
#[derive(Clone, Copy, Debug)]
pub struct Thrown {
    pub argument: Option<RowPlace>,
    pub argument_null: Option<RowPlace>,
    pub argument_out_of_range: Option<RowPlace>,
}

/// The classes of the exceptions that natives alone throw.
pub fn find_thrown(table: &ClassTable<'_>) -> Result<Thrown, NoMemory>
    requires { total_of table.now < 2 ^ 32 }
    ensures { IfOk result (IsThrown (classes_seen table.now)) }
{
    Ok(Thrown {
        argument: library_place(table, known_name(Known::Argument))?,
        argument_null: library_place(table, known_name(Known::ArgumentNull))?,
        argument_out_of_range: library_place(table, known_name(Known::ArgumentOutOfRange))?,
    })
}

/// Which of these exceptions a native throws.
#[derive(Clone, Copy, Debug)]
struct Exceptions {
    argument: bool,
    argument_null: bool,
    argument_out_of_range: bool,
}

/// Which of these exceptions the native of a number throws.
#[tactic(auto, using(crate::proofs::NativeLaws::at_copy, crate::proofs::NativeLaws::at_substring, crate::proofs::NativeLaws::at_chars, crate::proofs::NativeLaws::at_elements, crate::proofs::NativeLaws::at_others))]
fn exceptions_of(native: u16) -> Exceptions
    ensures { result ≡ record { argument = throws_in (native_seen native) Argument; argument_null = throws_in (native_seen native) ArgumentNull; argument_out_of_range = throws_in (native_seen native) ArgumentOutOfRange } }
{
    match native {
        ARRAY_COPY => Exceptions {
            argument: true,
            argument_null: true,
            argument_out_of_range: true,
        },
        STRING_SUBSTRING => Exceptions {
            argument: false,
            argument_null: false,
            argument_out_of_range: true,
        },
        STRING_FROM_CHARS => Exceptions {
            argument: false,
            argument_null: true,
            argument_out_of_range: true,
        },
        INITIALIZE_ARRAY => Exceptions {
            argument: true,
            argument_null: false,
            argument_out_of_range: false,
        },
        _ => Exceptions {
            argument: false,
            argument_null: false,
            argument_out_of_range: false,
        },
    }
}

/// Adds that a method keeps a class, if there is one, where it throws it.
fn keep_class(
    rules: &mut RowRules,
    place: RowPlace,
    throws: bool,
    class: Option<RowPlace>,
) -> Result<(), NoMemory>
    ensures { OnOk result (Adds (keeps_each (row_at place) (rows_where throws (row_if class))) rules.old rules.new) }
{
    match class {
        Some(then) => keep_if(rules, place, throws, then),
        None => Ok(()),
    }
}

/// Adds that a native keeps the classes of the exceptions that it throws.
fn keep_native(
    rules: &mut RowRules,
    place: RowPlace,
    thrown: &Thrown,
    native: u16,
) -> Result<(), NoMemory>
    ensures { (cs : Classes) → IsThrown cs thrown.now → OnOk result (Adds (keeps_each (row_at place) (thrown_by cs (native_seen native))) rules.old rules.new) }
{
    let throws = exceptions_of(native);
    keep_class(rules, place, throws.argument, thrown.argument)?;
    keep_class(rules, place, throws.argument_null, thrown.argument_null)?;
    keep_class(
        rules,
        place,
        throws.argument_out_of_range,
        thrown.argument_out_of_range,
    )
}

/// Adds that a method keeps the classes of the exceptions that its native throws, if it is one.
pub fn keep_thrown(
    rules: &mut RowRules,
    place: RowPlace,
    thrown: &Thrown,
    body: Body,
) -> Result<(), NoMemory>
    ensures { (cs : Classes) → IsThrown cs thrown.now → OnOk result (Adds (keeps_each (row_at place) (thrown_by cs (body_seen body))) rules.old rules.new) }
{
    match body {
        Body::Native(native) => keep_native(rules, place, thrown, native),
        Body::Code => Ok(()),
        Body::Missing => Ok(()),
    }
}
