//! The table.
ghost use Rattle.std.specs.Prelude.{◌≡◌};
ghost use Rattle.cil_opcodes.specs.Rows.{entry_of, row_of};

use super::shape::Access::{Integer, Reference, Typed};
use super::shape::Comparison::{Equal, Greater, GreaterUnsigned, Less, LessUnsigned};
use super::shape::IntegerType::{I1, I2, I4, I8, U1, U2, U4, U8};
use super::shape::Sign::{Signed, Unsigned};
use super::shape::{Operand, Operator, Row, Shape, ShiftOperator, UnaryOperator};

// The name is for the reader of the table.
macro_rules! row {
    ($opcode:literal, $name:literal, $operand:ident, $shape:expr) => {
        Some(Row { opcode: $opcode, operand: Operand::$operand, shape: $shape })
    };
}

/// The rows of one byte, by this byte.
pub static ONE_BYTE: [Option<Row>; 225] = [
    // 00
    row!(0x00, "nop", Nothing, Shape::Nop),
    None,
    row!(0x02, "ldarg.0", Nothing, Shape::LoadArgument(Some(0))),
    row!(0x03, "ldarg.1", Nothing, Shape::LoadArgument(Some(1))),
    row!(0x04, "ldarg.2", Nothing, Shape::LoadArgument(Some(2))),
    row!(0x05, "ldarg.3", Nothing, Shape::LoadArgument(Some(3))),
    row!(0x06, "ldloc.0", Nothing, Shape::LoadLocal(Some(0))),
    row!(0x07, "ldloc.1", Nothing, Shape::LoadLocal(Some(1))),
    row!(0x08, "ldloc.2", Nothing, Shape::LoadLocal(Some(2))),
    row!(0x09, "ldloc.3", Nothing, Shape::LoadLocal(Some(3))),
    row!(0x0A, "stloc.0", Nothing, Shape::StoreLocal(Some(0))),
    row!(0x0B, "stloc.1", Nothing, Shape::StoreLocal(Some(1))),
    row!(0x0C, "stloc.2", Nothing, Shape::StoreLocal(Some(2))),
    row!(0x0D, "stloc.3", Nothing, Shape::StoreLocal(Some(3))),
    row!(0x0E, "ldarg.s", UInt8, Shape::LoadArgument(None)),
    row!(0x0F, "ldarga.s", UInt8, Shape::LoadArgumentAddress),
    // 10
    row!(0x10, "starg.s", UInt8, Shape::StoreArgument),
    row!(0x11, "ldloc.s", UInt8, Shape::LoadLocal(None)),
    row!(0x12, "ldloca.s", UInt8, Shape::LoadLocalAddress),
    row!(0x13, "stloc.s", UInt8, Shape::StoreLocal(None)),
    row!(0x14, "ldnull", Nothing, Shape::LoadNull),
    row!(0x15, "ldc.i4.m1", Nothing, Shape::LoadInt32(Some(-1))),
    row!(0x16, "ldc.i4.0", Nothing, Shape::LoadInt32(Some(0))),
    row!(0x17, "ldc.i4.1", Nothing, Shape::LoadInt32(Some(1))),
    row!(0x18, "ldc.i4.2", Nothing, Shape::LoadInt32(Some(2))),
    row!(0x19, "ldc.i4.3", Nothing, Shape::LoadInt32(Some(3))),
    row!(0x1A, "ldc.i4.4", Nothing, Shape::LoadInt32(Some(4))),
    row!(0x1B, "ldc.i4.5", Nothing, Shape::LoadInt32(Some(5))),
    row!(0x1C, "ldc.i4.6", Nothing, Shape::LoadInt32(Some(6))),
    row!(0x1D, "ldc.i4.7", Nothing, Shape::LoadInt32(Some(7))),
    row!(0x1E, "ldc.i4.8", Nothing, Shape::LoadInt32(Some(8))),
    row!(0x1F, "ldc.i4.s", Int8, Shape::LoadInt32(None)),
    // 20
    row!(0x20, "ldc.i4", Int32, Shape::LoadInt32(None)),
    row!(0x21, "ldc.i8", Int64, Shape::LoadInt64),
    None,
    None,
    None,
    row!(0x25, "dup", Nothing, Shape::Duplicate),
    row!(0x26, "pop", Nothing, Shape::Pop),
    None,
    row!(0x28, "call", MethodToken, Shape::Call),
    None,
    row!(0x2A, "ret", Nothing, Shape::Return),
    row!(0x2B, "br.s", BranchShort, Shape::Branch),
    row!(0x2C, "brfalse.s", BranchShort, Shape::BranchIf(false)),
    row!(0x2D, "brtrue.s", BranchShort, Shape::BranchIf(true)),
    row!(
        0x2E,
        "beq.s",
        BranchShort,
        Shape::BranchCompare(Equal, true)
    ),
    row!(
        0x2F,
        "bge.s",
        BranchShort,
        Shape::BranchCompare(Less, false)
    ),
    // 30
    row!(
        0x30,
        "bgt.s",
        BranchShort,
        Shape::BranchCompare(Greater, true)
    ),
    row!(
        0x31,
        "ble.s",
        BranchShort,
        Shape::BranchCompare(Greater, false)
    ),
    row!(0x32, "blt.s", BranchShort, Shape::BranchCompare(Less, true)),
    row!(
        0x33,
        "bne.un.s",
        BranchShort,
        Shape::BranchCompare(Equal, false)
    ),
    row!(
        0x34,
        "bge.un.s",
        BranchShort,
        Shape::BranchCompare(LessUnsigned, false)
    ),
    row!(
        0x35,
        "bgt.un.s",
        BranchShort,
        Shape::BranchCompare(GreaterUnsigned, true)
    ),
    row!(
        0x36,
        "ble.un.s",
        BranchShort,
        Shape::BranchCompare(GreaterUnsigned, false)
    ),
    row!(
        0x37,
        "blt.un.s",
        BranchShort,
        Shape::BranchCompare(LessUnsigned, true)
    ),
    row!(0x38, "br", BranchLong, Shape::Branch),
    row!(0x39, "brfalse", BranchLong, Shape::BranchIf(false)),
    row!(0x3A, "brtrue", BranchLong, Shape::BranchIf(true)),
    row!(0x3B, "beq", BranchLong, Shape::BranchCompare(Equal, true)),
    row!(0x3C, "bge", BranchLong, Shape::BranchCompare(Less, false)),
    row!(0x3D, "bgt", BranchLong, Shape::BranchCompare(Greater, true)),
    row!(
        0x3E,
        "ble",
        BranchLong,
        Shape::BranchCompare(Greater, false)
    ),
    row!(0x3F, "blt", BranchLong, Shape::BranchCompare(Less, true)),
    // 40
    row!(
        0x40,
        "bne.un",
        BranchLong,
        Shape::BranchCompare(Equal, false)
    ),
    row!(
        0x41,
        "bge.un",
        BranchLong,
        Shape::BranchCompare(LessUnsigned, false)
    ),
    row!(
        0x42,
        "bgt.un",
        BranchLong,
        Shape::BranchCompare(GreaterUnsigned, true)
    ),
    row!(
        0x43,
        "ble.un",
        BranchLong,
        Shape::BranchCompare(GreaterUnsigned, false)
    ),
    row!(
        0x44,
        "blt.un",
        BranchLong,
        Shape::BranchCompare(LessUnsigned, true)
    ),
    row!(0x45, "switch", Switch, Shape::Switch),
    row!(0x46, "ldind.i1", Nothing, Shape::LoadIndirect(Integer(I1))),
    row!(0x47, "ldind.u1", Nothing, Shape::LoadIndirect(Integer(U1))),
    row!(0x48, "ldind.i2", Nothing, Shape::LoadIndirect(Integer(I2))),
    row!(0x49, "ldind.u2", Nothing, Shape::LoadIndirect(Integer(U2))),
    row!(0x4A, "ldind.i4", Nothing, Shape::LoadIndirect(Integer(I4))),
    row!(0x4B, "ldind.u4", Nothing, Shape::LoadIndirect(Integer(U4))),
    row!(0x4C, "ldind.i8", Nothing, Shape::LoadIndirect(Integer(I8))),
    None,
    None,
    None,
    // 50
    row!(0x50, "ldind.ref", Nothing, Shape::LoadIndirect(Reference)),
    row!(0x51, "stind.ref", Nothing, Shape::StoreIndirect(Reference)),
    row!(0x52, "stind.i1", Nothing, Shape::StoreIndirect(Integer(I1))),
    row!(0x53, "stind.i2", Nothing, Shape::StoreIndirect(Integer(I2))),
    row!(0x54, "stind.i4", Nothing, Shape::StoreIndirect(Integer(I4))),
    row!(0x55, "stind.i8", Nothing, Shape::StoreIndirect(Integer(I8))),
    None,
    None,
    row!(0x58, "add", Nothing, Shape::Binary(Operator::Add)),
    row!(0x59, "sub", Nothing, Shape::Binary(Operator::Subtract)),
    row!(0x5A, "mul", Nothing, Shape::Binary(Operator::Multiply)),
    row!(0x5B, "div", Nothing, Shape::Binary(Operator::Divide)),
    row!(
        0x5C,
        "div.un",
        Nothing,
        Shape::Binary(Operator::DivideUnsigned)
    ),
    row!(0x5D, "rem", Nothing, Shape::Binary(Operator::Remainder)),
    row!(
        0x5E,
        "rem.un",
        Nothing,
        Shape::Binary(Operator::RemainderUnsigned)
    ),
    row!(0x5F, "and", Nothing, Shape::Binary(Operator::And)),
    // 60
    row!(0x60, "or", Nothing, Shape::Binary(Operator::Or)),
    row!(0x61, "xor", Nothing, Shape::Binary(Operator::Xor)),
    row!(0x62, "shl", Nothing, Shape::Shift(ShiftOperator::Left)),
    row!(0x63, "shr", Nothing, Shape::Shift(ShiftOperator::Right)),
    row!(
        0x64,
        "shr.un",
        Nothing,
        Shape::Shift(ShiftOperator::RightUnsigned)
    ),
    row!(0x65, "neg", Nothing, Shape::Unary(UnaryOperator::Negate)),
    row!(
        0x66,
        "not",
        Nothing,
        Shape::Unary(UnaryOperator::Complement)
    ),
    row!(0x67, "conv.i1", Nothing, Shape::Convert(I1)),
    row!(0x68, "conv.i2", Nothing, Shape::Convert(I2)),
    row!(0x69, "conv.i4", Nothing, Shape::Convert(I4)),
    row!(0x6A, "conv.i8", Nothing, Shape::Convert(I8)),
    None,
    None,
    row!(0x6D, "conv.u4", Nothing, Shape::Convert(U4)),
    row!(0x6E, "conv.u8", Nothing, Shape::Convert(U8)),
    row!(0x6F, "callvirt", MethodToken, Shape::CallVirtual),
    // 70
    None,
    row!(0x71, "ldobj", TypeToken, Shape::LoadIndirect(Typed)),
    row!(0x72, "ldstr", StringToken, Shape::LoadString),
    row!(0x73, "newobj", MethodToken, Shape::NewObject),
    row!(0x74, "castclass", TypeToken, Shape::CastClass),
    row!(0x75, "isinst", TypeToken, Shape::IsInstance),
    None,
    None,
    None,
    row!(0x79, "unbox", TypeToken, Shape::Unbox),
    row!(0x7A, "throw", Nothing, Shape::Throw),
    row!(0x7B, "ldfld", FieldToken, Shape::LoadField),
    row!(0x7C, "ldflda", FieldToken, Shape::LoadFieldAddress),
    row!(0x7D, "stfld", FieldToken, Shape::StoreField),
    row!(0x7E, "ldsfld", FieldToken, Shape::LoadStatic),
    row!(0x7F, "ldsflda", FieldToken, Shape::LoadStaticAddress),
    // 80
    row!(0x80, "stsfld", FieldToken, Shape::StoreStatic),
    row!(0x81, "stobj", TypeToken, Shape::StoreIndirect(Typed)),
    row!(
        0x82,
        "conv.ovf.i1.un",
        Nothing,
        Shape::ConvertChecked(I1, Unsigned)
    ),
    row!(
        0x83,
        "conv.ovf.i2.un",
        Nothing,
        Shape::ConvertChecked(I2, Unsigned)
    ),
    row!(
        0x84,
        "conv.ovf.i4.un",
        Nothing,
        Shape::ConvertChecked(I4, Unsigned)
    ),
    row!(
        0x85,
        "conv.ovf.i8.un",
        Nothing,
        Shape::ConvertChecked(I8, Unsigned)
    ),
    row!(
        0x86,
        "conv.ovf.u1.un",
        Nothing,
        Shape::ConvertChecked(U1, Unsigned)
    ),
    row!(
        0x87,
        "conv.ovf.u2.un",
        Nothing,
        Shape::ConvertChecked(U2, Unsigned)
    ),
    row!(
        0x88,
        "conv.ovf.u4.un",
        Nothing,
        Shape::ConvertChecked(U4, Unsigned)
    ),
    row!(
        0x89,
        "conv.ovf.u8.un",
        Nothing,
        Shape::ConvertChecked(U8, Unsigned)
    ),
    row!(
        0x8A,
        "conv.ovf.i.un",
        Nothing,
        Shape::ConvertChecked(I4, Unsigned)
    ),
    row!(
        0x8B,
        "conv.ovf.u.un",
        Nothing,
        Shape::ConvertChecked(U4, Unsigned)
    ),
    row!(0x8C, "box", TypeToken, Shape::Box),
    row!(0x8D, "newarr", TypeToken, Shape::NewArray),
    row!(0x8E, "ldlen", Nothing, Shape::LoadLength),
    row!(0x8F, "ldelema", TypeToken, Shape::LoadElementAddress),
    // 90
    row!(0x90, "ldelem.i1", Nothing, Shape::LoadElement(Integer(I1))),
    row!(0x91, "ldelem.u1", Nothing, Shape::LoadElement(Integer(U1))),
    row!(0x92, "ldelem.i2", Nothing, Shape::LoadElement(Integer(I2))),
    row!(0x93, "ldelem.u2", Nothing, Shape::LoadElement(Integer(U2))),
    row!(0x94, "ldelem.i4", Nothing, Shape::LoadElement(Integer(I4))),
    row!(0x95, "ldelem.u4", Nothing, Shape::LoadElement(Integer(U4))),
    row!(0x96, "ldelem.i8", Nothing, Shape::LoadElement(Integer(I8))),
    None,
    None,
    None,
    row!(0x9A, "ldelem.ref", Nothing, Shape::LoadElement(Reference)),
    None,
    row!(0x9C, "stelem.i1", Nothing, Shape::StoreElement(Integer(I1))),
    row!(0x9D, "stelem.i2", Nothing, Shape::StoreElement(Integer(I2))),
    row!(0x9E, "stelem.i4", Nothing, Shape::StoreElement(Integer(I4))),
    row!(0x9F, "stelem.i8", Nothing, Shape::StoreElement(Integer(I8))),
    // A0
    None,
    None,
    row!(0xA2, "stelem.ref", Nothing, Shape::StoreElement(Reference)),
    row!(0xA3, "ldelem", TypeToken, Shape::LoadElement(Typed)),
    row!(0xA4, "stelem", TypeToken, Shape::StoreElement(Typed)),
    row!(0xA5, "unbox.any", TypeToken, Shape::UnboxAny),
    None,
    None,
    None,
    None,
    None,
    None,
    None,
    None,
    None,
    None,
    // B0
    None,
    None,
    None,
    row!(
        0xB3,
        "conv.ovf.i1",
        Nothing,
        Shape::ConvertChecked(I1, Signed)
    ),
    row!(
        0xB4,
        "conv.ovf.u1",
        Nothing,
        Shape::ConvertChecked(U1, Signed)
    ),
    row!(
        0xB5,
        "conv.ovf.i2",
        Nothing,
        Shape::ConvertChecked(I2, Signed)
    ),
    row!(
        0xB6,
        "conv.ovf.u2",
        Nothing,
        Shape::ConvertChecked(U2, Signed)
    ),
    row!(
        0xB7,
        "conv.ovf.i4",
        Nothing,
        Shape::ConvertChecked(I4, Signed)
    ),
    row!(
        0xB8,
        "conv.ovf.u4",
        Nothing,
        Shape::ConvertChecked(U4, Signed)
    ),
    row!(
        0xB9,
        "conv.ovf.i8",
        Nothing,
        Shape::ConvertChecked(I8, Signed)
    ),
    row!(
        0xBA,
        "conv.ovf.u8",
        Nothing,
        Shape::ConvertChecked(U8, Signed)
    ),
    None,
    None,
    None,
    None,
    None,
    // C0
    None,
    None,
    None,
    None,
    None,
    None,
    None,
    None,
    None,
    None,
    None,
    None,
    None,
    None,
    None,
    None,
    // D0
    row!(0xD0, "ldtoken", AnyToken, Shape::LoadToken),
    row!(0xD1, "conv.u2", Nothing, Shape::Convert(U2)),
    row!(0xD2, "conv.u1", Nothing, Shape::Convert(U1)),
    row!(0xD3, "conv.i", Nothing, Shape::Convert(I4)),
    row!(
        0xD4,
        "conv.ovf.i",
        Nothing,
        Shape::ConvertChecked(I4, Signed)
    ),
    row!(
        0xD5,
        "conv.ovf.u",
        Nothing,
        Shape::ConvertChecked(U4, Signed)
    ),
    row!(
        0xD6,
        "add.ovf",
        Nothing,
        Shape::Binary(Operator::AddChecked(Signed))
    ),
    row!(
        0xD7,
        "add.ovf.un",
        Nothing,
        Shape::Binary(Operator::AddChecked(Unsigned))
    ),
    row!(
        0xD8,
        "mul.ovf",
        Nothing,
        Shape::Binary(Operator::MultiplyChecked(Signed))
    ),
    row!(
        0xD9,
        "mul.ovf.un",
        Nothing,
        Shape::Binary(Operator::MultiplyChecked(Unsigned))
    ),
    row!(
        0xDA,
        "sub.ovf",
        Nothing,
        Shape::Binary(Operator::SubtractChecked(Signed))
    ),
    row!(
        0xDB,
        "sub.ovf.un",
        Nothing,
        Shape::Binary(Operator::SubtractChecked(Unsigned))
    ),
    row!(0xDC, "endfinally", Nothing, Shape::EndFinally),
    row!(0xDD, "leave", BranchLong, Shape::Leave),
    row!(0xDE, "leave.s", BranchShort, Shape::Leave),
    None,
    // E0
    row!(0xE0, "conv.u", Nothing, Shape::Convert(U4)),
];

/// The rows of FE and a second byte, by this byte.
pub static TWO_BYTES: [Option<Row>; 27] = [
    // FE00
    None,
    row!(0xFE01, "ceq", Nothing, Shape::Compare(Equal)),
    row!(0xFE02, "cgt", Nothing, Shape::Compare(Greater)),
    row!(0xFE03, "cgt.un", Nothing, Shape::Compare(GreaterUnsigned)),
    row!(0xFE04, "clt", Nothing, Shape::Compare(Less)),
    row!(0xFE05, "clt.un", Nothing, Shape::Compare(LessUnsigned)),
    None,
    None,
    None,
    row!(0xFE09, "ldarg", UInt16, Shape::LoadArgument(None)),
    row!(0xFE0A, "ldarga", UInt16, Shape::LoadArgumentAddress),
    row!(0xFE0B, "starg", UInt16, Shape::StoreArgument),
    row!(0xFE0C, "ldloc", UInt16, Shape::LoadLocal(None)),
    row!(0xFE0D, "ldloca", UInt16, Shape::LoadLocalAddress),
    row!(0xFE0E, "stloc", UInt16, Shape::StoreLocal(None)),
    None,
    // FE10
    None,
    None,
    None,
    None,
    None,
    None,
    None,
    None,
    None,
    None,
    row!(0xFE1A, "rethrow", Nothing, Shape::Rethrow),
];

/// The entry of this number, where there is one.
fn entry(rows: &[Option<Row>], number: u16) -> Option<Row>
    ensures { result ≡ entry_of rows.now number }
{
    match rows.get(number as usize) {
        Some(row) => *row,
        None => None,
    }
}

/// The row of an opcode: a byte, or 0xFE00 and the byte behind FE. None where the opcode isn't accepted.
pub fn row(opcode: u16) -> Option<Row>
    ensures { result ≡ row_of opcode }
{
    if opcode < 0xFE00 {
        entry(&ONE_BYTE, opcode)
    } else {
        entry(&TWO_BYTES, opcode - 0xFE00)
    }
}
