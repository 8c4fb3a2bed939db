//! Bodies and instructions.

use cil_code::{
    Clause, CodeFault, FAULTY_BODY, Instr, NO_SUCH_OPCODE, PAST_THE_END, SWITCH, body, first_fault,
    instruction, switch_target,
};
use std::test::Fail;

fn fault(rule: u8, offset: u32) -> CodeFault {
    CodeFault { rule, offset }
}

#[test]
fn instructions_with_each_operand(rt: HostRuntime) {
    for (code, op, operand, length) in [
        ([0x00].as_slice(), 0x00, 0, 1),
        ([0xFE, 0x01].as_slice(), 0xFE01, 0, 2),
        ([0x1F, 0xFF].as_slice(), 0x1F, -1, 2),
        ([0x0E, 0xFF].as_slice(), 0x0E, 255, 2),
        ([0x2B, 0xFD, 0x00].as_slice(), 0x2B, -3, 2),
        ([0xFE, 0x0C, 0x34, 0x92].as_slice(), 0xFE0C, 0x9234, 4),
        ([0x20, 0xFE, 0xFF, 0xFF, 0xFF].as_slice(), 0x20, -2, 5),
        (
            [0x38, 0x00, 0x00, 0x00, 0x80].as_slice(),
            0x38,
            -0x8000_0000,
            5,
        ),
        (
            [0x72, 0x01, 0x00, 0x00, 0xF0].as_slice(),
            0x72,
            0xF000_0001,
            5,
        ),
        (
            [0x21, 0x04, 0xFF, 0xFF, 0xFF, 0xFF, 0xFF, 0xFF, 0xFF].as_slice(),
            0x21,
            -252,
            9,
        ),
        ([0x45, 0x00, 0x00, 0x00, 0x00].as_slice(), 0x45, 0, 5),
    ] {
        let instr = Instr {
            op,
            operand,
            length,
        };
        assert_eq!(rt; instruction(code, 0), Ok(instr), "{code:?}");
    }
}

#[test]
fn instructions_that_are_none(rt: HostRuntime) {
    for (code, at, rule) in [
        ([0xFE].as_slice(), 0, PAST_THE_END),
        ([0x23].as_slice(), 0, NO_SUCH_OPCODE),
        ([0x29, 0x01, 0x00].as_slice(), 0, NO_SUCH_OPCODE),
        ([0x00, 0xFE, 0x16].as_slice(), 1, NO_SUCH_OPCODE),
        ([0x00].as_slice(), 1, PAST_THE_END),
        ([0x28, 0x01, 0x00, 0x00].as_slice(), 0, PAST_THE_END),
        ([0x45, 0xFF, 0xFF, 0xFF, 0xFF].as_slice(), 0, PAST_THE_END),
        (
            [0x45, 0x01, 0x00, 0x00, 0x00, 0x00].as_slice(),
            0,
            PAST_THE_END,
        ),
    ] {
        assert_eq!(rt; instruction(code, at), Err(fault(rule, at)), "{code:?}");
    }
}

#[test]
fn targets_of_a_switch(rt: HostRuntime) {
    let code = [
        0x00, 0x45, 0x02, 0x00, 0x00, 0x00, 0x05, 0x00, 0x00, 0x00, 0xF3, 0xFF, 0xFF, 0xFF, 0x2A,
    ];
    let Ok(instr) = instruction(&code, 1) else {
        panic!(rt; "a switch stands there");
    };
    assert_eq!(rt; instr.length, 13);
    assert!(rt; instr.op == SWITCH && instr.operand > 1);
    assert_eq!(rt; switch_target(&code, 1, 0), 5);
    assert_eq!(rt; switch_target(&code, 1, 1), -13);
}

#[test]
fn where_the_first_fault_is(rt: HostRuntime) {
    for (code, first) in [
        ([0x2A].as_slice(), None),
        ([0x00, 0x2B, 0xFD].as_slice(), None),
        ([].as_slice(), Some(fault(PAST_THE_END, 0))),
        ([0x00, 0x00].as_slice(), Some(fault(PAST_THE_END, 1))),
        (
            [0x2A, 0x23, 0x00].as_slice(),
            Some(fault(NO_SUCH_OPCODE, 1)),
        ),
        ([0x00, 0xFE].as_slice(), Some(fault(PAST_THE_END, 1))),
    ] {
        assert_eq!(rt; first_fault(code), first, "{code:?}");
    }
}

#[test]
fn a_tiny_body(rt: HostRuntime) -> Result<(), Fail> {
    let body = body(&[0x0A, 0x00, 0x2A, 0xFF]).ok().ok_or("a body")?;
    assert_eq!(rt; body.max_stack(), 8);
    assert_eq!(rt; body.locals_token(), 0);
    assert_eq!(rt; body.code(), [0x00, 0x2A].as_slice());
    assert_eq!(rt; body.clause_count(), 0);
    Ok(())
}

const FAT: [u8; 64] = [
    0x1B, 0x30, 0x02, 0x00, 0x05, 0x00, 0x00, 0x00, 0x01, 0x00, 0x00, 0x11, // header
    0x00, 0x00, 0x00, 0x00, 0x2A, 0xFF, 0xFF, 0xFF, // code, and up to a multiple of four
    0x81, 0x10, 0x55, 0xAA, // a small section of one clause
    0x00, 0x00, 0x01, 0x00, 0x02, 0x03, 0x00, 0x01, 0x02, 0x00, 0x00, 0x01, //
    0x41, 0x1C, 0x00, 0x00, // a fat section of one clause
    0x02, 0x00, 0x01, 0x00, 0x01, 0x00, 0x00, 0x00, 0xFF, 0xFF, 0xFF, 0xFF, //
    0x03, 0x00, 0x00, 0x00, 0x01, 0x00, 0x00, 0x00, 0x00, 0x00, 0x00, 0x00,
];

#[test]
fn a_fat_body_with_two_sections(rt: HostRuntime) -> Result<(), Fail> {
    let body = body(&FAT).ok().ok_or("a body")?;
    assert_eq!(rt; body.max_stack(), 2);
    assert_eq!(rt; body.locals_token(), 0x1100_0001);
    assert_eq!(rt; body.code(), [0x00, 0x00, 0x00, 0x00, 0x2A].as_slice());
    assert!(rt; body.clause_count() == 2);
    let small = Clause {
        kind: 0,
        try_start: 1,
        try_end: 3,
        start: 3,
        end: 4,
        token: 0x0100_0002,
    };
    let fat = Clause {
        kind: 0xFFFF,
        try_start: 1,
        try_end: 0xFFFF_FFFF,
        start: 3,
        end: 4,
        token: 0,
    };
    assert_eq!(rt; body.clause(0), small);
    assert_eq!(rt; body.clause(1), fat);
    let all = body.clauses(rt.alloc()).ok().ok_or("memory")?;
    assert_eq!(rt; all.as_slice(), [small, fat].as_slice());
    Ok(())
}

#[test]
fn bodies_that_are_none(rt: HostRuntime) {
    for len in [0, 1, 11, 12, 16, 23, 35, 63] {
        let cut = body(&FAT[..len]).err();
        assert_eq!(rt; cut, Some(fault(FAULTY_BODY, 0)), "{len} bytes");
    }
    for bytes in [
        [0x00, 0x2A].as_slice(),
        [0x01, 0x2A].as_slice(),
        [0x06].as_slice(),
        [
            0x03, 0x20, 0x08, 0x00, 0x00, 0x00, 0x00, 0x00, 0x00, 0x00, 0x00, 0x00,
        ]
        .as_slice(),
        [
            0x0B, 0x30, 0x08, 0x00, 0x00, 0x00, 0x00, 0x00, 0x00, 0x00, 0x00, 0x00, 0x01, 0x05,
            0x00, 0x00, 0x00,
        ]
        .as_slice(),
        [
            0x0B, 0x30, 0x08, 0x00, 0x00, 0x00, 0x00, 0x00, 0x00, 0x00, 0x00, 0x00, 0x40, 0x04,
            0x00, 0x00,
        ]
        .as_slice(),
    ] {
        let none = body(bytes).err();
        assert_eq!(rt; none, Some(fault(FAULTY_BODY, 0)), "{bytes:?}");
    }
}
