//! The table of instructions.

use cil_opcodes::{Operand, row};
use std::test::Fail;

#[test]
fn each_row_is_found_by_its_opcode(rt: HostRuntime) -> Result<(), Fail> {
    let mut count = 0_u32;
    for opcode in 0..=u16::MAX {
        if let Some(found) = row(opcode) {
            assert_eq!(rt; found.opcode, opcode);
            count = count.wrapping_add(1);
        }
    }
    assert_eq!(rt; count, 179);
    Ok(())
}

#[test]
fn rows_have_their_operands(rt: HostRuntime) -> Result<(), Fail> {
    let wanted = [
        (0x00, Some(Operand::Nothing)),
        (0x01, None),
        (0x0E, Some(Operand::UInt8)),
        (0x1F, Some(Operand::Int8)),
        (0x20, Some(Operand::Int32)),
        (0x21, Some(Operand::Int64)),
        (0x28, Some(Operand::MethodToken)),
        (0x2E, Some(Operand::BranchShort)),
        (0x3B, Some(Operand::BranchLong)),
        (0x45, Some(Operand::Switch)),
        (0x72, Some(Operand::StringToken)),
        (0x7B, Some(Operand::FieldToken)),
        (0x8D, Some(Operand::TypeToken)),
        (0xD0, Some(Operand::AnyToken)),
        (0xFE, None),
        (0xFE09, Some(Operand::UInt16)),
        (0xFE16, None),
        (0xFE1A, Some(Operand::Nothing)),
    ];
    for (opcode, operand) in wanted {
        assert_eq!(rt;
            row(opcode).map(|found| found.operand),
            operand,
            "at {opcode}"
        );
    }
    Ok(())
}
