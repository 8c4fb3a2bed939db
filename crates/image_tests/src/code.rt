//! The size of code with operands of 16 bits.

use cil_code::{body, first_fault};
use code_shrink::length;
use std::alloc::Global;
use std::test::Fail;

/// A body with a fat header and this code.
fn fat_body(alloc: Global, code: &[u8]) -> Result<Vec<u8>, Fail> {
    let mut bytes = Vec::from_slice(alloc, &[0x03, 0x30, 0x08, 0x00])?;
    let size = u32::try_from(code.len()).ok().ok_or("a size")?;
    bytes.extend_from_slice(&size.to_le_bytes())?;
    bytes.extend_from_slice(&[0, 0, 0, 0])?;
    bytes.extend_from_slice(code)?;
    Ok(bytes)
}

/// The size of the shortened code, if the code breaks no rule.
fn short_length(alloc: Global, code: &[u8]) -> Result<Option<u64>, Fail> {
    let bytes = fat_body(alloc, code)?;
    if bytes.len() > 1_000_000 {
        return Ok(None);
    }
    let Ok(body) = body(bytes.as_slice()) else {
        return Ok(None);
    };
    if first_fault(body.code()).is_some() {
        return Ok(None);
    }
    Ok(Some(length(&body)))
}

#[test]
fn lengths_of_shortened_code(rt: HostRuntime) -> Result<(), Fail> {
    for (code, want) in [
        ([0x2A].as_slice(), Some(1)),
        // a token, a long branch and a switch are shorter, a short branch and a number aren't
        ([0x28, 1, 0, 0, 6, 0x2A].as_slice(), Some(4)),
        ([0x38, 0, 0, 0, 0, 0x2A].as_slice(), Some(4)),
        ([0x2B, 0, 0x2A].as_slice(), Some(3)),
        ([0x20, 1, 2, 3, 4, 0x2A].as_slice(), Some(6)),
        ([0x45, 1, 0, 0, 0, 0, 0, 0, 0, 0x2A].as_slice(), Some(5)),
        ([0x45, 0, 0, 0, 0, 0x2A].as_slice(), Some(3)),
        ([0xFE, 0x16, 1, 0, 0, 2, 0x2A].as_slice(), None),
        ([0x00].as_slice(), None),
    ] {
        assert_eq!(rt; short_length(rt.alloc(), code)?, want, "{code:?}");
    }
    let mut long = Vec::from_slice(rt.alloc(), &[0x38, 0x00, 0x80, 0, 0])?;
    for _ in 0..32_768 {
        long.push(0)?;
    }
    long.push(0x2A)?;
    assert_eq!(rt; short_length(rt.alloc(), long.as_slice())?, Some(32_772));
    Ok(())
}
