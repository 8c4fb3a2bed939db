//! The instructions that the bodies use (ECMA-335 III.1.9, table 10).

/// An opcode: its byte, or 0xFE00 and the byte behind FE.
#[derive(Clone, Copy, Debug, PartialEq, Eq)]
pub struct Op(pub u16);

/// No opcode, at a place that branches name.
pub const NO_OP: Op = Op(0);

pub const LDARG_0: Op = Op(0x02);

pub const LDARG_1: Op = Op(0x03);

pub const LDARG_2: Op = Op(0x04);

pub const LDARG_3: Op = Op(0x05);

pub const LDLOC_0: Op = Op(0x06);

pub const LDLOC_1: Op = Op(0x07);

pub const LDLOC_2: Op = Op(0x08);

pub const LDLOC_3: Op = Op(0x09);

pub const STLOC_0: Op = Op(0x0A);

pub const STLOC_1: Op = Op(0x0B);

pub const STLOC_2: Op = Op(0x0C);

pub const STLOC_3: Op = Op(0x0D);

pub const LDNULL: Op = Op(0x14);

pub const LDC_I4_M1: Op = Op(0x15);

pub const LDC_I4_0: Op = Op(0x16);

pub const LDC_I4_1: Op = Op(0x17);

pub const LDC_I4_2: Op = Op(0x18);

pub const LDC_I4_4: Op = Op(0x1A);

pub const LDC_I4_S: Op = Op(0x1F);

pub const DUP: Op = Op(0x25);

pub const CALL: Op = Op(0x28);

pub const RET: Op = Op(0x2A);

pub const BR_S: Op = Op(0x2B);

pub const BRFALSE_S: Op = Op(0x2C);

pub const BRTRUE_S: Op = Op(0x2D);

pub const BEQ_S: Op = Op(0x2E);

pub const BGE_S: Op = Op(0x2F);

pub const BGT_S: Op = Op(0x30);

pub const BLE_S: Op = Op(0x31);

pub const BLT_S: Op = Op(0x32);

pub const BGE_UN_S: Op = Op(0x34);

pub const LDIND_I1: Op = Op(0x46);

pub const LDIND_U1: Op = Op(0x47);

pub const LDIND_I2: Op = Op(0x48);

pub const LDIND_U2: Op = Op(0x49);

pub const LDIND_I4: Op = Op(0x4A);

pub const LDIND_U4: Op = Op(0x4B);

pub const LDIND_I8: Op = Op(0x4C);

pub const ADD: Op = Op(0x58);

pub const SUB: Op = Op(0x59);

pub const MUL: Op = Op(0x5A);

pub const NEG: Op = Op(0x65);

pub const CONV_I8: Op = Op(0x6A);

pub const CONV_U8: Op = Op(0x6E);

pub const CALLVIRT: Op = Op(0x6F);

pub const LDSTR: Op = Op(0x72);

pub const NEWOBJ: Op = Op(0x73);

pub const ISINST: Op = Op(0x75);

pub const THROW: Op = Op(0x7A);

pub const LDFLD: Op = Op(0x7B);

pub const STFLD: Op = Op(0x7D);

pub const STSFLD: Op = Op(0x80);

pub const NEWARR: Op = Op(0x8D);

pub const LDLEN: Op = Op(0x8E);

pub const LDELEM_REF: Op = Op(0x9A);

pub const STELEM_I2: Op = Op(0x9D);

pub const STELEM_REF: Op = Op(0xA2);

pub const UNBOX_ANY: Op = Op(0xA5);

pub const CEQ: Op = Op(0xFE01);
