//! Classes of the base library by their names, as rows.

ghost use Rattle.std.specs.Prelude.{◌≡◌, ◌<◌, ◌^◌, IfOk};
ghost use Rattle.kept_rules.specs.Row.{in_option};
ghost use Rattle.classes.specs.Queries.{known_name, library_class};
ghost use Rattle.class_table.specs.Seen.{classes_seen};
ghost use Rattle.class_queries.specs.Numbers.{total_of};
ghost use Rattle.row_rules.specs.Links.{row_if};
ghost use Rattle.member_rules.specs.Members.{class_row};

use crate::places::class_place;
use board_types::board::Known;
use class_checks::library_class;
use class_table::ClassTable;
use plain_types::fault::NoMemory;
use row_rules::RowPlace;

/// The name, in the namespace System, of the class of an exception that instructions or natives throw.
pub fn known_name(known: Known) -> &'static str
    ensures { result.now ≡ known_name known }
{
    match known {
        Known::NullReference => "NullReferenceException",
        Known::IndexOutOfRange => "IndexOutOfRangeException",
        Known::Overflow => "OverflowException",
        Known::Arithmetic => "ArithmeticException",
        Known::DivideByZero => "DivideByZeroException",
        Known::InvalidCast => "InvalidCastException",
        Known::ArrayTypeMismatch => "ArrayTypeMismatchException",
        Known::Argument => "ArgumentException",
        Known::ArgumentNull => "ArgumentNullException",
        Known::ArgumentOutOfRange => "ArgumentOutOfRangeException",
    }
}

/// The row of the first class of the base library with a name in the namespace System, if it has one.
///
/// # Errors
///
/// [`NoMemory`] where the class is of the file 2^16 or a later one; no world has so many.
pub fn library_place(table: &ClassTable<'_>, name: &str) -> Result<Option<RowPlace>, NoMemory>
    requires { total_of table.now < 2 ^ 32 }
    ensures { IfOk result (λ place. row_if place ≡ in_option class_row (library_class (classes_seen table.now) name.now)) }
{
    match library_class(table, name) {
        Some(class) => Ok(Some(class_place(class)?)),
        None => Ok(None),
    }
}
