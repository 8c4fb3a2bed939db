//! The classes of the base library that the machine needs by their names.

ghost use Rattle.std.specs.Prelude.{◌≡◌, ◌<◌, ◌^◌, IfOk};
ghost use Rattle.std.specs.Option.{option_map};
ghost use Rattle.classes.specs.Queries.{library_class};
ghost use Rattle.class_table.specs.Seen.{classes_seen};
ghost use Rattle.class_queries.specs.Numbers.{total_of};
ghost use Rattle.board_ids.specs.Ids.{id_of};
ghost use Rattle.bound_set.specs.Library.{AreKnown, AreBasic, known_in, basic_in};

use crate::ids::row_of;
use board_types::board::{Known, TypeAt};
use class_checks::library_class;
use class_table::ClassTable;
use plain_types::elem::Elem;
use plain_types::fault::NoMemory;

/// The classes of the exceptions that instructions and natives throw; `None` where the base library lacks one.
#[derive(Clone, Copy, Debug)]
pub struct KnownClasses {
    pub null_reference: Option<TypeAt>,
    pub index_out_of_range: Option<TypeAt>,
    pub overflow: Option<TypeAt>,
    pub arithmetic: Option<TypeAt>,
    pub divide_by_zero: Option<TypeAt>,
    pub invalid_cast: Option<TypeAt>,
    pub array_type_mismatch: Option<TypeAt>,
    pub argument: Option<TypeAt>,
    pub argument_null: Option<TypeAt>,
    pub argument_out_of_range: Option<TypeAt>,
}

/// The classes of primitives, of String and Object, and of arrays; `None` where the base library lacks one.
#[derive(Clone, Copy, Debug)]
pub struct BasicRows {
    pub boolean: Option<TypeAt>,
    pub char: Option<TypeAt>,
    pub sbyte: Option<TypeAt>,
    pub byte: Option<TypeAt>,
    pub int16: Option<TypeAt>,
    pub uint16: Option<TypeAt>,
    pub int32: Option<TypeAt>,
    pub uint32: Option<TypeAt>,
    pub int64: Option<TypeAt>,
    pub uint64: Option<TypeAt>,
    pub string: Option<TypeAt>,
    pub object: Option<TypeAt>,
    pub array: Option<TypeAt>,
}

/// The first class of the base library with a name in the namespace System.
fn row_named(table: &ClassTable<'_>, name: &str) -> Result<Option<TypeAt>, NoMemory>
    requires { total_of table.now < 2 ^ 32 }
    ensures { IfOk result (λ row. option_map id_of row ≡ library_class (classes_seen table.now) name.now) }
{
    row_of(library_class(table, name))
}

/// The classes of exceptions of a table of fewer than 2^32 classes.
pub fn find_known(table: &ClassTable<'_>) -> Result<KnownClasses, NoMemory>
    requires { total_of table.now < 2 ^ 32 }
    ensures { IfOk result (AreKnown (classes_seen table.now)) }
{
    Ok(KnownClasses {
        null_reference: row_named(table, "NullReferenceException")?,
        index_out_of_range: row_named(table, "IndexOutOfRangeException")?,
        overflow: row_named(table, "OverflowException")?,
        arithmetic: row_named(table, "ArithmeticException")?,
        divide_by_zero: row_named(table, "DivideByZeroException")?,
        invalid_cast: row_named(table, "InvalidCastException")?,
        array_type_mismatch: row_named(table, "ArrayTypeMismatchException")?,
        argument: row_named(table, "ArgumentException")?,
        argument_null: row_named(table, "ArgumentNullException")?,
        argument_out_of_range: row_named(table, "ArgumentOutOfRangeException")?,
    })
}

/// The classes of basic types and of arrays of a table of fewer than 2^32 classes.
pub fn find_basic(table: &ClassTable<'_>) -> Result<BasicRows, NoMemory>
    requires { total_of table.now < 2 ^ 32 }
    ensures { IfOk result (AreBasic (classes_seen table.now)) }
{
    Ok(BasicRows {
        boolean: row_named(table, "Boolean")?,
        char: row_named(table, "Char")?,
        sbyte: row_named(table, "SByte")?,
        byte: row_named(table, "Byte")?,
        int16: row_named(table, "Int16")?,
        uint16: row_named(table, "UInt16")?,
        int32: row_named(table, "Int32")?,
        uint32: row_named(table, "UInt32")?,
        int64: row_named(table, "Int64")?,
        uint64: row_named(table, "UInt64")?,
        string: row_named(table, "String")?,
        object: row_named(table, "Object")?,
        array: row_named(table, "Array")?,
    })
}

impl KnownClasses {
    /// The class of an exception.
    pub fn class(&self, which: Known) -> Option<TypeAt>
        ensures { option_map id_of result ≡ known_in self.now which }
    {
        match which {
            Known::NullReference => self.null_reference,
            Known::IndexOutOfRange => self.index_out_of_range,
            Known::Overflow => self.overflow,
            Known::Arithmetic => self.arithmetic,
            Known::DivideByZero => self.divide_by_zero,
            Known::InvalidCast => self.invalid_cast,
            Known::ArrayTypeMismatch => self.array_type_mismatch,
            Known::Argument => self.argument,
            Known::ArgumentNull => self.argument_null,
            Known::ArgumentOutOfRange => self.argument_out_of_range,
        }
    }
}

impl BasicRows {
    /// The class of an element; `None` where it has none.
    pub fn class(&self, elem: Elem) -> Option<TypeAt>
        ensures { option_map id_of result ≡ basic_in self.now elem }
    {
        match elem {
            Elem::Bool => self.boolean,
            Elem::Char => self.char,
            Elem::I1 => self.sbyte,
            Elem::U1 => self.byte,
            Elem::I2 => self.int16,
            Elem::U2 => self.uint16,
            Elem::I4 => self.int32,
            Elem::U4 => self.uint32,
            Elem::I8 => self.int64,
            Elem::U8 => self.uint64,
            Elem::String => self.string,
            Elem::Object => self.object,
            Elem::Void | Elem::Class | Elem::Value => None,
        }
    }
}
