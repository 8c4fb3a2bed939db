//! Operators by their opcodes (ECMA-335 III.1.5 and III.3).

use board_types::board::Known;
use board_types::value::Value::{Int, Long, Ref};
use cil_opcodes::shape::Comparison;
use tiny_ops::OpEnd::{Gives, NoCase, Throws};
use tiny_ops::{binary, branch_compare, truth, unary};

#[test]
fn two_operands(rt: HostRuntime) {
    let table = [
        // add, sub, mul wrap
        (0x58, Int(i32::MAX), Int(1), Gives(Int(i32::MIN))),
        (0x59, Int(i32::MIN), Int(1), Gives(Int(i32::MAX))),
        (0x5A, Long(i64::MAX), Long(2), Gives(Long(-2))),
        (0x58, Long(1), Int(1), NoCase),
        // div, div.un, rem, rem.un
        (0x5B, Int(-7), Int(2), Gives(Int(-3))),
        (0x5D, Int(-7), Int(2), Gives(Int(-1))),
        (0x5B, Int(i32::MIN), Int(-1), Throws(Known::Arithmetic)),
        (0x5D, Int(i32::MIN), Int(-1), Throws(Known::Arithmetic)),
        (0x5D, Long(i64::MIN), Long(-1), Throws(Known::Arithmetic)),
        (0x5B, Int(i32::MIN), Int(0), Throws(Known::DivideByZero)),
        (0x5C, Int(-1), Int(2), Gives(Int(i32::MAX))),
        (0x5E, Long(-1), Long(10), Gives(Long(5))),
        (0x5E, Long(1), Long(0), Throws(Known::DivideByZero)),
        // and, or, xor
        (0x5F, Int(12), Int(10), Gives(Int(8))),
        (0x60, Int(12), Int(10), Gives(Int(14))),
        (0x61, Int(-1), Int(10), Gives(Int(-11))),
        // shl, shr, shr.un: the count is taken modulo the width
        (0x62, Int(1), Int(33), Gives(Int(2))),
        (0x62, Long(1), Int(33), Gives(Long(0x2_0000_0000))),
        (0x63, Int(-8), Int(1), Gives(Int(-4))),
        (0x64, Int(-8), Int(-31), Gives(Int(0x7FFF_FFFC))),
        (0x62, Int(1), Long(1), NoCase),
        // add.ovf, add.ovf.un, mul.ovf, mul.ovf.un, sub.ovf, sub.ovf.un
        (0xD6, Int(i32::MAX), Int(1), Throws(Known::Overflow)),
        (0xD7, Int(i32::MAX), Int(1), Gives(Int(i32::MIN))),
        (0xD8, Long(i64::MIN), Long(-1), Throws(Known::Overflow)),
        (0xD9, Long(-1), Long(-1), Throws(Known::Overflow)),
        (
            0xD9,
            Long(0x1_0000_0000),
            Long(0xFFFF_FFFF),
            Gives(Long(-0x1_0000_0000)),
        ),
        (0xDA, Int(i32::MIN), Int(1), Throws(Known::Overflow)),
        (0xDB, Int(0), Int(1), Throws(Known::Overflow)),
        // ceq, cgt, cgt.un, clt, clt.un
        (0xFE01, Ref(0), Ref(0), Gives(Int(1))),
        (0xFE02, Int(-1), Int(0), Gives(Int(0))),
        (0xFE03, Int(-1), Int(0), Gives(Int(1))),
        (0xFE03, Ref(4), Ref(0), Gives(Int(1))),
        (0xFE03, Ref(4), Ref(4), Gives(Int(0))),
        (0xFE04, Ref(4), Ref(0), NoCase),
        (0xFE05, Long(1), Long(-1), Gives(Int(1))),
        // no operator
        (0x57, Int(1), Int(1), NoCase),
        (0x65, Int(1), Int(1), NoCase),
        (0xFF01, Int(1), Int(1), NoCase),
    ];
    for (op, x, y, want) in table {
        assert_eq!(rt; binary(op, x, y), want, "opcode {op}");
    }
}

#[test]
fn one_operand(rt: HostRuntime) {
    let table = [
        // neg, not
        (0x65, Int(i32::MIN), Gives(Int(i32::MIN))),
        (0x66, Long(5), Gives(Long(-6))),
        (0x65, Ref(0), NoCase),
        // conv.i1, i2, i4, i8, u4, u8, u2, u1
        (0x67, Int(0x80), Gives(Int(-128))),
        (0x68, Long(0x1_8000), Gives(Int(-32768))),
        (0x69, Long(0x1_FFFF_FFFF), Gives(Int(-1))),
        (0x6A, Int(-1), Gives(Long(-1))),
        (0x6D, Long(-1), Gives(Int(-1))),
        (0x6E, Int(-1), Gives(Long(0xFFFF_FFFF))),
        (0xD1, Int(-1), Gives(Int(0xFFFF))),
        (0xD2, Int(-1), Gives(Int(0xFF))),
        // conv.ovf.i1, conv.ovf.u1, conv.ovf.u4, conv.ovf.u8
        (0xB3, Int(127), Gives(Int(127))),
        (0xB3, Int(128), Throws(Known::Overflow)),
        (0xB3, Long(-128), Gives(Int(-128))),
        (0xB3, Long(-129), Throws(Known::Overflow)),
        (0xB4, Int(-1), Throws(Known::Overflow)),
        (0xB8, Long(0xFFFF_FFFF), Gives(Int(-1))),
        (0xBA, Int(-1), Throws(Known::Overflow)),
        // conv.ovf.i1.un, conv.ovf.i8.un, conv.ovf.u8.un
        (0x82, Int(-1), Throws(Known::Overflow)),
        (0x85, Long(-1), Throws(Known::Overflow)),
        (0x85, Int(-1), Gives(Long(0xFFFF_FFFF))),
        (0x89, Long(-1), Gives(Long(-1))),
    ];
    for (op, x, want) in table {
        assert_eq!(rt; unary(op, x), want, "opcode {op}");
    }
}

#[test]
fn branches(rt: HostRuntime) {
    assert_eq!(rt; truth(Long(0)), Some(false));
    assert_eq!(rt; truth(Ref(1)), Some(true));
    assert_eq!(rt;
        branch_compare(Comparison::Equal, Ref(1), Ref(2)),
        Some(false)
    );
    assert_eq!(rt;
        branch_compare(Comparison::GreaterUnsigned, Ref(1), Ref(2)),
        None
    );
    assert_eq!(rt;
        branch_compare(Comparison::Less, Int(-1), Int(0)),
        Some(true)
    );
}
