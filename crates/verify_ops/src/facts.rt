//! What is known of an instruction beside its bytes, and how it is refused.

ghost use Rattle.std.specs.Prelude.{◌≡◌};
ghost use Rattle.verify_ops.specs.declared.facts.OpRefusal.TheVariants.{NoMemory};

use ecma_types::stack::PlaceType;
use plain_types::fault::NoMemory;

/// What an instruction's token names, as far as the types on the stack depend on it.
#[derive(Clone, Copy, Debug)]
pub enum Operand<'a> {
    /// The instruction has no token.
    Nothing,
    /// The token names nothing.
    Unresolved,
    /// A literal text.
    Text,
    /// A type.
    OfType(PlaceType),
    /// A field.
    Field(FieldOperand),
    /// A method.
    Method(MethodOperand<'a>),
}

/// A field that a token names.
#[derive(Clone, Copy, Debug)]
pub struct FieldOperand {
    /// The type that has the field, with its row also where it is a library class with an element of its own.
    pub class: PlaceType,
    /// The type of the field.
    pub of: PlaceType,
    /// The flags of its row (ECMA-335 II.23.1.5).
    pub flags: u16,
}

/// A method that a token names.
#[derive(Clone, Copy, Debug)]
pub struct MethodOperand<'a> {
    /// The type that has the method, with its row also where it is a library class with an element of its own.
    pub class: PlaceType,
    /// The flags of that type's row (ECMA-335 II.23.1.15).
    pub class_flags: u32,
    /// Its name is `.ctor`.
    pub constructor: bool,
    /// Its signature has `this`.
    pub this: bool,
    /// The type of its result; void has the element Void.
    pub returns: PlaceType,
    /// The types of its parameters, without `this`.
    pub params: &'a [PlaceType],
    /// The flags of its row (ECMA-335 II.23.1.10).
    pub flags: u16,
}

/// What is known of an instruction of a method.
#[derive(Clone, Copy, Debug)]
pub struct Facts<'a> {
    /// The types of the method's arguments, with `this` first.
    pub arguments: &'a [PlaceType],
    /// The types of its locals.
    pub locals: &'a [PlaceType],
    /// The type of its result; void has the element Void.
    pub result: PlaceType,
    /// System.Exception.
    pub exception: PlaceType,
    /// How many values its stack may hold.
    pub max_stack: u16,
    /// What the instruction's token names.
    pub operand: Operand<'a>,
}

/// Why an instruction gives no types.
#[derive(Clone, Copy, Debug, PartialEq, Eq)]
pub enum OpRefusal {
    /// The lowest of the rules 46, 47, 50, 51, 53 and 54 that the instruction breaks by itself.
    Broken(u8),
    /// The host has no memory left.
    NoMemory,
}

impl From<NoMemory> for OpRefusal {
    ghost from_gives = { λ _ refusal. refusal ≡ NoMemory };

    fn from(_error: NoMemory) -> OpRefusal {
        OpRefusal::NoMemory
    }
}
