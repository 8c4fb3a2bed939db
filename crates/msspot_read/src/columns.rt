//! What the columns of the tables hold.

ghost use Rattle.std.specs.Prelude.{◌≡◌, ◌<◌};
ghost use Rattle.msspot_read.specs.Columns.{columns_of};

use crate::parts::TABLES;

/// What a number of a row has to be. Where a column speaks of two numbers, the second is the one behind it.
#[derive(Clone, Copy, Debug)]
pub enum Column {
    /// Any number.
    Number,
    /// A text in UTF-8.
    Name,
    /// The signature of a field.
    Type,
    /// The signature of a method.
    Method,
    /// The signature of a TypeSpec, an array.
    Array,
    /// An assembly reference, or the reference of an enclosing type.
    Scope,
    /// A type token.
    Token,
    /// A type token, or none.
    TokenOrNone,
    /// The row of a type, or none.
    TypeOrNone,
    /// The row of data, or none.
    DataOrNone,
    /// The first row of a range of interfaces, and how many.
    Interfaces,
    /// The first row of a range of fields, and how many.
    Fields,
    /// The first row of a range of methods, and how many.
    Methods,
    /// The kind of a clause, and its type.
    Kind,
    /// The place of bytes in the pool of data, and how many.
    Bytes,
}

/// The columns of tables 0 to 10 as far as a row of them is asked for something.
const COLUMNS: [&[Column]; TABLES] = [
    // AssemblyRef
    &[Column::Name],
    // TypeRef
    &[Column::Scope, Column::Name, Column::Name],
    // FieldRef
    &[Column::Token, Column::Name, Column::Type],
    // MethodRef
    &[Column::Token, Column::Name, Column::Method],
    // TypeDef
    &[
        Column::Name,
        Column::Name,
        Column::TypeOrNone,
        Column::TokenOrNone,
        Column::Number,
        Column::Interfaces,
        Column::Number,
        Column::Fields,
        Column::Number,
        Column::Methods,
    ],
    // Interface
    &[Column::Token],
    // FieldDef
    &[
        Column::Name,
        Column::Type,
        Column::Number,
        Column::DataOrNone,
    ],
    // MethodDef; its code, locals and clauses are looked at together
    &[Column::Name, Column::Method],
    // Clause
    &[Column::Kind],
    // TypeSpec
    &[Column::Array],
    // Data
    &[Column::Bytes],
];

/// The columns of a table.
pub fn columns(table: u8) -> &'static [Column]
    requires { table < 11 }
    ensures { result.now ≡ columns_of table }
{
    COLUMNS[table as usize]
}
