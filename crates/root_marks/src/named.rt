//! The classes that are kept of any program.

ghost use Rattle.std.specs.Prelude.{◌≡◌, ◌<◌, ◌^◌, List, OnOk, map};
ghost use Rattle.assemblies.specs.Rows.{Assembly};
ghost use Rattle.row_numbers.specs.Tables.{AreCounts};
ghost use Rattle.classes.specs.Queries.{library_class};
ghost use Rattle.class_table.specs.Seen.{classes_seen};
ghost use Rattle.class_queries.specs.Numbers.{total_of};
ghost use Rattle.kept_rules.specs.Row.{in_option};
ghost use Rattle.member_rules.specs.Members.{class_row};
ghost use Rattle.root_marks.specs.Roots.{marked, rows_named, root_names};

use crate::entries::mark;
use class_table::ClassTable;
use member_rules::library_place;
use plain_types::fault::NoMemory;
use row_numbers::RowNumbers;

/// The names, in the namespace System, of the classes of elements (ECMA-335 II.23.1.16), of arrays, of exceptions, and of the
/// exceptions that instructions throw.
const ROOT_CLASSES: [&str; 21] = [
    "Boolean",
    "Char",
    "SByte",
    "Byte",
    "Int16",
    "UInt16",
    "Int32",
    "UInt32",
    "Int64",
    "UInt64",
    "String",
    "Object",
    "Array",
    "Exception",
    "NullReferenceException",
    "IndexOutOfRangeException",
    "OverflowException",
    "ArithmeticException",
    "DivideByZeroException",
    "InvalidCastException",
    "ArrayTypeMismatchException",
];

/// Marks the class of a name, if the base library has it.
fn mark_class(
    table: &ClassTable<'_>,
    numbers: &RowNumbers,
    marks: &mut [bool],
    name: &str,
) -> Result<(), NoMemory>
    requires { total_of table.now < 2 ^ 32 }
    ensures { OnOk result ((ps : List Assembly) → AreCounts ps numbers.now → marks.new ≡ marked ps (in_option class_row (library_class (classes_seen table.now) name.now)) marks.old) }
{
    let found = library_place(table, name)?;
    match found {
        Some(place) => mark(numbers, marks, place),
        None => {}
    }
    Ok(())
}

/// Marks the classes of names, those of them that the base library has.
fn mark_names(
    table: &ClassTable<'_>,
    numbers: &RowNumbers,
    marks: &mut [bool],
    names: &[&str],
) -> Result<(), NoMemory>
    requires { total_of table.now < 2 ^ 32 }
    ensures { OnOk result ((ps : List Assembly) → AreCounts ps numbers.now → marks.new ≡ marked ps (rows_named (classes_seen table.now) (map (λ name. name.now) names.now)) marks.old) }
{
    for name in names {
        mark_class(table, numbers, marks, name)?;
    }
    Ok(())
}

/// Marks the classes that are kept of any program, those of them that the base library has.
pub fn mark_classes(
    table: &ClassTable<'_>,
    numbers: &RowNumbers,
    marks: &mut [bool],
) -> Result<(), NoMemory>
    requires { total_of table.now < 2 ^ 32 }
    ensures { OnOk result ((ps : List Assembly) → AreCounts ps numbers.now → marks.new ≡ marked ps (rows_named (classes_seen table.now) root_names) marks.old) }
{
    mark_names(table, numbers, marks, &ROOT_CLASSES)
}
