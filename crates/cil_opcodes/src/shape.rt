//! What a row of the table is made of.
ghost use Rattle.std.specs.Prelude.{◌≡◌};

/// An integer type, with its width in bytes (III.1.1.1). The native ints have 32 bits here, so `i` is `I4` and `u` is `U4`.
#[derive(Clone, Copy)]
pub enum IntegerType {
    I1,
    U1,
    I2,
    U2,
    I4,
    U4,
    I8,
    U8,
}

/// How the bits of a number are read.
#[derive(Clone, Copy)]
pub enum Sign {
    Signed,
    Unsigned,
}

/// An operator of two numbers of one width that gives a number of this width (III.1.5, tables 2, 5 and 7).
/// The checked ones throw where the exact result doesn't fit.
#[derive(Clone, Copy)]
pub enum Operator {
    Add,
    Subtract,
    Multiply,
    Divide,
    DivideUnsigned,
    Remainder,
    RemainderUnsigned,
    And,
    Or,
    Xor,
    AddChecked(Sign),
    SubtractChecked(Sign),
    MultiplyChecked(Sign),
}

/// An operator of one number (III.3.50 and III.3.51).
#[derive(Clone, Copy)]
pub enum UnaryOperator {
    Negate,
    Complement,
}

/// A shift of a number by an int32 (III.3.58 to III.3.60).
#[derive(Clone, Copy)]
pub enum ShiftOperator {
    Left,
    Right,
    RightUnsigned,
}

/// A comparison of two values (III.1.5, table 4). Each conditional branch takes one of them, or its opposite.
#[derive(Clone, Copy)]
pub enum Comparison {
    Equal,
    Greater,
    GreaterUnsigned,
    Less,
    LessUnsigned,
}

/// The type by which memory is read or written.
#[derive(Clone, Copy)]
pub enum Access {
    /// By an integer of this type.
    Integer(IntegerType),
    /// By a reference.
    Reference,
    /// By the type that the operand names.
    Typed,
}

/// The shape of instruction that an opcode stands for. Short and long forms, and forms with the operand in the opcode, share one.
#[derive(Clone, Copy)]
pub enum Shape {
    Nop,
    /// The argument of this number, or of the operand's.
    LoadArgument(Option<u8>),
    LoadArgumentAddress,
    StoreArgument,
    /// The local of this number, or of the operand's.
    LoadLocal(Option<u8>),
    /// The local of this number, or of the operand's.
    StoreLocal(Option<u8>),
    LoadLocalAddress,
    LoadNull,
    /// This number, or the operand.
    LoadInt32(Option<i8>),
    LoadInt64,
    Duplicate,
    Pop,
    Call,
    CallVirtual,
    NewObject,
    Return,
    Branch,
    /// Branches where the value is this truth: a number that isn't 0, or a reference that isn't null.
    BranchIf(bool),
    /// Branches where the comparison has this truth.
    BranchCompare(Comparison, bool),
    Switch,
    LoadIndirect(Access),
    StoreIndirect(Access),
    Binary(Operator),
    Shift(ShiftOperator),
    Unary(UnaryOperator),
    Compare(Comparison),
    /// Cut to the type, and extended to the stack.
    Convert(IntegerType),
    /// The same, of a source that is read so, where it fits.
    ConvertChecked(IntegerType, Sign),
    LoadString,
    CastClass,
    IsInstance,
    Box,
    Unbox,
    UnboxAny,
    Throw,
    Rethrow,
    Leave,
    EndFinally,
    LoadField,
    LoadFieldAddress,
    StoreField,
    LoadStatic,
    LoadStaticAddress,
    StoreStatic,
    NewArray,
    LoadLength,
    LoadElement(Access),
    StoreElement(Access),
    LoadElementAddress,
    LoadToken,
}

impl Shape {
    ghost use Rattle.cil_opcodes.specs.Rows.{is_transfer};

    /// Whether control never goes on behind the instruction: `br`, `ret`, `throw`, `rethrow`, `leave` and `endfinally` (III.1.7.5).
    pub fn is_unconditional_transfer(self) -> bool
        ensures { result ≡ is_transfer self }
    {
        matches!(
            self,
            Shape::Branch
                | Shape::Return
                | Shape::Throw
                | Shape::Rethrow
                | Shape::Leave
                | Shape::EndFinally
        )
    }
}

/// What stands behind an opcode in a file's code (II.25.4, III.1.9).
#[derive(Clone, Copy, PartialEq, Eq, Debug)]
pub enum Operand {
    Nothing,
    Int8,
    UInt8,
    UInt16,
    Int32,
    Int64,
    /// A distance of one byte, from the end of the instruction.
    BranchShort,
    /// A distance of four bytes, from the end of the instruction.
    BranchLong,
    /// A count of four bytes, and as many distances of four bytes.
    Switch,
    TypeToken,
    FieldToken,
    MethodToken,
    StringToken,
    /// A token of any kind.
    AnyToken,
}

impl Operand {
    ghost use Rattle.cil_opcodes.specs.Rows.{width_of};

    /// The operand's bytes; of a switch those of its count.
    pub fn width(self) -> u8
        ensures { result ≡ width_of self }
    {
        match self {
            Operand::Nothing => 0,
            Operand::Int8 | Operand::UInt8 | Operand::BranchShort => 1,
            Operand::UInt16 => 2,
            Operand::Int32 | Operand::BranchLong | Operand::Switch => 4,
            Operand::TypeToken
            | Operand::FieldToken
            | Operand::MethodToken
            | Operand::StringToken
            | Operand::AnyToken => 4,
            Operand::Int64 => 8,
        }
    }
}

/// An opcode with its operand and its shape.
#[derive(Clone, Copy)]
pub struct Row {
    /// The byte, or 0xFE00 and the byte behind FE.
    pub opcode: u16,
    pub operand: Operand,
    pub shape: Shape,
}
