//! What the tables are made of. Each type, field, method and literal has a key, by which bodies and signatures name it.

use crate::op::Op;

/// What a line of a body is.
#[derive(Clone, Copy, Debug, PartialEq, Eq)]
pub enum Form {
    /// A place that branches name.
    At,
    /// An instruction without operand.
    Do,
    /// An instruction with a number of one byte, from 0 to 127.
    Small,
    /// A short branch to the place of a name.
    Jump,
    /// An instruction with the token of a key.
    Name,
}

/// A line of a body: what it is, its opcode, its number, and the name or key.
pub type Line = (Form, Op, u8, &'static str);

/// What a type of a signature is (ECMA-335 II.23.2.12).
#[derive(Clone, Copy, Debug, PartialEq, Eq)]
pub enum Element {
    Void,
    Bool,
    Char,
    Int32,
    Int64,
    UInt64,
    String,
    Object,
    /// A class or an interface.
    Class,
    /// A value type.
    Value,
    /// char[].
    Chars,
    /// string[].
    Strings,
    /// object[].
    Objects,
}

/// A type of a signature, and the key of a class or a value type.
pub type Kind = (Element, &'static str);

/// A method's signature (ECMA-335 II.23.2.1): whether it has a `this`, its result, and its parameters. A field has its type as
/// the result.
pub type Signature = (bool, Kind, &'static [Kind]);

/// What a method does.
#[derive(Clone, Copy, Debug, PartialEq, Eq)]
pub enum Work {
    /// Code.
    Code,
    /// The native of a number.
    Native,
    /// Nothing: a method of an interface.
    Abstract,
}

/// What a method does, with the most values on its stack or the native's number, its locals, and its lines.
pub type Body = (Work, u16, &'static [Kind], &'static [Line]);

/// What an item asks for.
#[derive(Clone, Copy, Debug, PartialEq, Eq)]
pub enum Entry {
    /// A literal of the code, in ASCII; its key is its text.
    Literal,
    /// A type. Its base is the key of the superclass; one that nothing has where there is none.
    TypeDef,
    /// A field of the type before it.
    Field,
    /// A method of the type before it.
    Method,
    /// That the class of a name implements the interface that is its base.
    Implements,
    /// An assembly of the version of the base library.
    Assembly,
    /// A type of another assembly, which is its base.
    TypeOf,
    /// A method of a type of another assembly, which is its base.
    MethodOf,
}

/// One thing that is asked for: what it is, its key, its name, its namespace, its base, its flags, its signature and its body.
pub type Item = (
    Entry,
    &'static str,
    &'static str,
    &'static str,
    &'static str,
    u32,
    Signature,
    Body,
);

// Flags of types (II.23.1.15).
pub const CLASS: u32 = 0x0010_0001;

pub const ABSTRACT_CLASS: u32 = 0x0010_0081;

pub const SEALED_CLASS: u32 = 0x0010_0101;

pub const HIDDEN_CLASS: u32 = 0x0010_0100;

pub const INTERFACE: u32 = 0x0000_00A1;

pub const VALUE_TYPE: u32 = 0x0010_0109;

// Flags of fields (II.23.1.5).
pub const PRIVATE: u32 = 0x0001;

pub const PUBLIC_CONSTANT: u32 = 0x0036;

// Flags of methods (II.23.1.10).
pub const CONSTRUCTOR: u32 = 0x1886;

pub const INITIALISER: u32 = 0x1891;

pub const INSTANCE: u32 = 0x0086;

pub const HIDDEN_INSTANCE: u32 = 0x0081;

pub const GETTER: u32 = 0x0886;

pub const STATIC: u32 = 0x0096;

pub const HIDDEN_STATIC: u32 = 0x0093;

pub const OPERATOR: u32 = 0x0896;

pub const VIRTUAL: u32 = 0x01C6;

pub const VIRTUAL_GETTER: u32 = 0x09C6;

pub const OVERRIDE: u32 = 0x00C6;

pub const ABSTRACT: u32 = 0x05C6;

pub const ABSTRACT_GETTER: u32 = 0x0DC6;

/// A type of a signature.
macro_rules! kind {
    ($element:ident) => {
        (Element::$element, "")
    };
    ($element:ident ($key:literal)) => {
        (Element::$element, $key)
    };
}

pub(crate) use kind;

/// An instance method's signature: its result, and its parameters.
macro_rules! instance {
    ($result:ident $(($class:literal))? $(, $param:ident $(($key:literal))?)*) => {
        (true, kind!($result $(($class))?), &[$(kind!($param $(($key))?)),*])
    };
}

pub(crate) use instance;

/// A static method's signature.
macro_rules! fixed {
    ($result:ident $(($class:literal))? $(, $param:ident $(($key:literal))?)*) => {
        (false, kind!($result $(($class))?), &[$(kind!($param $(($key))?)),*])
    };
}

pub(crate) use fixed;

/// A line of a body.
macro_rules! one_line {
    (At, $name:literal) => {
        (Form::At, NO_OP, 0, $name)
    };
    (Do, $op:expr) => {
        (Form::Do, $op, 0, "")
    };
    (Small, $op:expr, $number:literal) => {
        (Form::Small, $op, $number, "")
    };
    (Jump, $op:expr, $name:literal) => {
        (Form::Jump, $op, 0, $name)
    };
    (Name, $op:expr, $key:literal) => {
        (Form::Name, $op, 0, $key)
    };
}

pub(crate) use one_line;

/// A body in CIL: the most values on its stack, its locals, and its lines.
macro_rules! code {
    ($max_stack:literal, [$($local:ident),*], $($form:ident($($part:tt)*)),* $(,)?) => {
        (Work::Code, $max_stack, &[$(kind!($local)),*], &[$(one_line!($form, $($part)*)),*])
    };
}

pub(crate) use code;

/// The body that a native's number stands for.
macro_rules! native {
    ($number:literal) => {
        (Work::Native, $number, &[], &[])
    };
}

pub(crate) use native;

/// No body.
macro_rules! bodiless {
    () => {
        (Work::Abstract, 0, &[], &[])
    };
}

pub(crate) use bodiless;

/// A literal of the code.
macro_rules! literal {
    ($text:literal) => {
        (Entry::Literal, $text, "", "", "", 0, fixed!(Void), bodiless!())
    };
}

pub(crate) use literal;

/// A type.
macro_rules! class {
    ($namespace:literal, $name:literal, $flags:expr, $base:literal) => {
        (Entry::TypeDef, $name, $name, $namespace, $base, $flags, fixed!(Void), bodiless!())
    };
}

pub(crate) use class;

/// A field.
macro_rules! field {
    ($key:literal, $flags:expr, $name:literal, $kind:ident $(($class:literal))?) => {
        (Entry::Field, $key, $name, "", "", $flags, fixed!($kind $(($class))?), bodiless!())
    };
}

pub(crate) use field;

/// A method.
macro_rules! method {
    ($key:literal, $flags:expr, $name:literal, $signature:expr, $body:expr) => {
        (Entry::Method, $key, $name, "", "", $flags, $signature, $body)
    };
}

pub(crate) use method;

/// That a class implements an interface.
macro_rules! implements {
    ($class:literal, $interface:literal) => {
        (Entry::Implements, "", $class, "", $interface, 0, fixed!(Void), bodiless!())
    };
}

pub(crate) use implements;

/// An assembly.
macro_rules! assembly {
    ($name:literal) => {
        (Entry::Assembly, $name, $name, "", "", 0, fixed!(Void), bodiless!())
    };
}

pub(crate) use assembly;

/// A type of another assembly.
macro_rules! class_of {
    ($assembly:literal, $namespace:literal, $name:literal) => {
        (Entry::TypeOf, $name, $name, $namespace, $assembly, 0, fixed!(Void), bodiless!())
    };
}

pub(crate) use class_of;

/// A method of a type of another assembly.
macro_rules! method_of {
    ($key:literal, $class:literal, $name:literal, $signature:expr) => {
        (Entry::MethodOf, $key, $name, "", $class, 0, $signature, bodiless!())
    };
}

pub(crate) use method_of;
