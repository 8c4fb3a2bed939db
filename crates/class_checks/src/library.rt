//! The classes of the base library that rules name.

ghost use Rattle.std.specs.Prelude.{◌≡◌, ◌<◌, ◌^◌, slice_get};
ghost use Rattle.std.specs.List.{find};
ghost use Rattle.std.specs.Option.{option_copied, option_map};
ghost use Rattle.classes.specs.Queries.{library_class, has_name};
ghost use Rattle.member_keys.specs.Seen.{class_seen};
ghost use Rattle.class_table.specs.Seen.{classes_seen};
ghost use Rattle.class_queries.specs.Numbers.{total_of};
ghost use Rattle.class_checks.specs.Library.{IsLibrary, rows_from, file_rows};

use class_queries::find_class;
use class_table::{ClassTable, FileRows};
use member_keys::ClassId;

/// Classes of the base library; `None` where it lacks one.
#[derive(Clone, Copy, Debug)]
pub struct Library {
    pub object: Option<ClassId>,
    pub string: Option<ClassId>,
    pub array: Option<ClassId>,
    /// System.RuntimeFieldHandle
    pub handle: Option<ClassId>,
}

/// Whether a class has a name in the namespace System.
fn is_named(table: &ClassTable<'_>, class: ClassId, name: &str) -> bool
    ensures { result ≡ has_name (classes_seen table.now) name.now (class_seen class) }
{
    match find_class(table, class) {
        Some(row) => row.namespace == "System" && row.name == name,
        None => false,
    }
}

/// The file of a number.
fn find_file<'t, 'a>(table: &'t ClassTable<'a>, file: u32) -> Option<&'t FileRows<'a>>
    ensures { option_copied result ≡ slice_get table.now.files.items file }
{
    table.files.get(file as usize)
}

/// The first of so many classes of a file with a name in the namespace System.
fn class_among(table: &ClassTable<'_>, file: u32, count: usize, name: &str) -> Option<ClassId>
    requires { count < 2 ^ 32 }
    ensures { option_map class_seen result ≡ find (has_name (classes_seen table.now) name.now) (rows_from file 0 count) }
{
    for row in 0..count {
        let class = ClassId {
            file,
            row: row as u32,
        };
        if is_named(table, class, name) {
            return Some(class);
        }
    }
    None
}

/// The first class of a file with a name in the namespace System.
fn class_in(table: &ClassTable<'_>, file: u32, name: &str) -> Option<ClassId>
    requires { total_of table.now < 2 ^ 32 }
    ensures { option_map class_seen result ≡ find (has_name (classes_seen table.now) name.now) (file_rows table.now file) }
{
    match find_file(table, file) {
        Some(rows) => class_among(table, file, rows.classes.len(), name),
        None => None,
    }
}

/// The first class of the base library's file with a name in the namespace System, in a table of fewer than 2^32 classes.
pub fn library_class(table: &ClassTable<'_>, name: &str) -> Option<ClassId>
    requires { total_of table.now < 2 ^ 32 }
    ensures { option_map class_seen result ≡ library_class (classes_seen table.now) name.now }
{
    match table.library {
        Some(file) => class_in(table, file, name),
        None => None,
    }
}

/// The classes of the base library that rules name, in a table of fewer than 2^32 classes.
pub fn find_library(table: &ClassTable<'_>) -> Library
    requires { total_of table.now < 2 ^ 32 }
    ensures { IsLibrary table.now result }
{
    Library {
        object: library_class(table, "Object"),
        string: library_class(table, "String"),
        array: library_class(table, "Array"),
        handle: library_class(table, "RuntimeFieldHandle"),
    }
}
