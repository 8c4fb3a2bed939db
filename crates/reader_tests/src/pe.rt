//! The PE part of a small file, and of the files that differ from it in a few bytes.

use pe_reader::{Pe, metadata};
use plain_types::fault::WHOLE_FILE;
use std::process::Abort;
use std::test::*;

/// The length of the small file: headers up to 344, the one section with CLI header and metadata behind them.
const LEN: usize = 420;

/// The fields of the small file that aren't zero, each four bytes at an offset.
const FIELDS: [(usize, u32); 14] = [
    (0, 0x0000_5A4D),
    (60, 64),
    (64, 0x0000_4550),
    (68, 0x0001_014C),
    (84, 216),
    (88, 0x10B),
    (296, 0x2000),
    (300, 72),
    (316, 0x2000),
    (320, 76),
    (324, 344),
    (352, 0x2048),
    (356, 4),
    (360, 1),
];

fn put(file: &mut [u8; LEN], at: usize, value: u32) {
    if at <= LEN - 4 {
        file[at..at + 4].copy_from_slice(&value.to_le_bytes());
    }
}

fn small() -> [u8; LEN] {
    let mut file = [0; LEN];
    for (at, value) in FIELDS {
        put(&mut file, at, value);
    }
    put(&mut file, 364, 0x0600_0001);
    put(&mut file, 416, 0x424A_5342);
    file
}

#[test]
fn the_parts_of_a_file(rt: HostRuntime) {
    let file = small();
    match metadata(&file) {
        Ok(pe) => has_parts(&rt, &pe),
        Err(_) => assert!(rt; false),
    }
}

fn has_parts(rt: &impl Abort, pe: &Pe<'_>) {
    assert_eq!(rt; pe.entry(), 0x0600_0001);
    assert_eq!(rt; pe.region(), b"BSJB".as_slice());
    assert!(rt; pe.at_rva(0x2048, 4).is_some());
    assert!(rt; pe.at_rva(0x2048, 5).is_none());
    assert!(rt; pe.at_rva(0x1FFF, 1).is_none());
    assert!(rt; pe.at_rva(u32::MAX, u32::MAX).is_none());
    assert_eq!(rt; pe.tail(0x204A).map_or(0, |rest| rest.len()), 2);
    assert!(rt; pe.tail(0x204C).is_none());
    let mut cursor = pe.cursor();
    for (rva, len) in [
        (0x204A, 2),
        (0x2000, 76),
        (0x204C, 0),
        (0x1FFF, 0),
        (0x204B, 1),
    ] {
        assert_eq!(rt;
            cursor.tail(rva).map_or(0, |rest| rest.len()),
            len,
            "at {rva}"
        );
    }
}

/// The rule that the file breaks and its offset; rule 0 where it breaks none.
fn verdict(file: &[u8]) -> (u8, u32) {
    match metadata(file) {
        Ok(_) => (0, 0),
        Err(fault) if fault.place.table == WHOLE_FILE && fault.place.row == 0 => (
            fault.rule,
            fault.place.offset,
        ),
        Err(_) => (255, 0),
    }
}

#[test]
fn each_prefix_breaks_the_first_rule_that_it_cuts(rt: HostRuntime) {
    let file = small();
    for n in 0..LEN {
        let want = match n {
            0..64 => (1, 0),
            64..88 => (2, 60),
            88..304 => (3, 88),
            304..344 => (4, 304),
            344..416 => (5, 296),
            _ => (7, 352),
        };
        assert_eq!(rt; verdict(&file[..n]), want, "at {n}");
    }
    assert_eq!(rt; verdict(&file), (0, 0));
}

#[test]
fn changed_fields(rt: HostRuntime) {
    let changes = [
        ("not MZ", 0, 0x0000_5A4E, (1, 0)),
        ("a far header", 60, 0xFFFF_FFFF, (2, 60)),
        ("a short optional header", 84, 215, (3, 88)),
        ("PE32+", 88, 0x20B, (3, 88)),
        ("65,535 sections", 68, 0xFFFF_014C, (4, 304)),
        ("no section", 68, 0x014C, (5, 296)),
        ("a section of size 0", 320, 0, (5, 296)),
        ("metadata past the section", 356, 5, (7, 352)),
        ("a section far behind the file", 324, 0xFFFF_FFFF, (5, 296)),
        ("a short CLI header", 300, 71, (5, 296)),
        ("mixed code", 360, 0, (6, 360)),
        ("a native entry point", 360, 0x11, (6, 360)),
        ("metadata before the section", 352, 0x1FFF, (7, 352)),
        ("endless metadata", 356, 0xFFFF_FFFF, (7, 352)),
    ];
    for (name, at, value, want) in changes {
        let mut file = small();
        put(&mut file, at, value);
        assert_eq!(rt; verdict(&file), want, "{name}");
    }
}
