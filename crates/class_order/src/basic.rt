//! The classes of the base library by the types that they are.

ghost use Rattle.std.specs.Prelude.{◌≡◌, ◌<◌, ◌^◌};
ghost use Rattle.std.specs.Option.{option_map};
ghost use Rattle.classes.specs.Queries.{basic};
ghost use Rattle.member_keys.specs.Seen.{class_seen};
ghost use Rattle.class_table.specs.declared.rows.ClassTable.{ClassTable};
ghost use Rattle.class_table.specs.Seen.{classes_seen};
ghost use Rattle.class_queries.specs.Numbers.{total_of};
ghost use Rattle.class_order.specs.Basic.{AreBasic};

use class_checks::library_class;
use class_table::ClassTable;
use member_keys::ClassId;
use plain_types::elem::Elem;

/// The base library's classes of primitives, of String and Object, and of arrays; `None` where it lacks one.
#[derive(Clone, Copy, Debug)]
pub struct BasicClasses {
    pub boolean: Option<ClassId>,
    pub char: Option<ClassId>,
    pub sbyte: Option<ClassId>,
    pub byte: Option<ClassId>,
    pub int16: Option<ClassId>,
    pub uint16: Option<ClassId>,
    pub int32: Option<ClassId>,
    pub uint32: Option<ClassId>,
    pub int64: Option<ClassId>,
    pub uint64: Option<ClassId>,
    pub string: Option<ClassId>,
    pub object: Option<ClassId>,
    pub array: Option<ClassId>,
}

/// The base library's classes that have elements of their own, and that of arrays, in a table of fewer than 2^32 classes.
pub fn find_basic(table: &ClassTable<'_>) -> BasicClasses
    requires { total_of table.now < 2 ^ 32 }
    ensures { AreBasic table.now result }
{
    BasicClasses {
        boolean: library_class(table, "Boolean"),
        char: library_class(table, "Char"),
        sbyte: library_class(table, "SByte"),
        byte: library_class(table, "Byte"),
        int16: library_class(table, "Int16"),
        uint16: library_class(table, "UInt16"),
        int32: library_class(table, "Int32"),
        uint32: library_class(table, "UInt32"),
        int64: library_class(table, "Int64"),
        uint64: library_class(table, "UInt64"),
        string: library_class(table, "String"),
        object: library_class(table, "Object"),
        array: library_class(table, "Array"),
    }
}

/// The class of an element; `None` where it has none.
pub fn class_of_elem(classes: &BasicClasses, elem: Elem) -> Option<ClassId>
    ensures { (t : ClassTable) → AreBasic t classes.now → option_map class_seen result ≡ basic (classes_seen t) elem }
{
    match elem {
        Elem::Bool => classes.boolean,
        Elem::Char => classes.char,
        Elem::I1 => classes.sbyte,
        Elem::U1 => classes.byte,
        Elem::I2 => classes.int16,
        Elem::U2 => classes.uint16,
        Elem::I4 => classes.int32,
        Elem::U4 => classes.uint32,
        Elem::I8 => classes.int64,
        Elem::U8 => classes.uint64,
        Elem::String => classes.string,
        Elem::Object => classes.object,
        Elem::Void | Elem::Class | Elem::Value => None,
    }
}
