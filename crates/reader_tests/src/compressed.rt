//! Compressed numbers (ECMA-335 II.23.2).

use file_tables::compressed::compressed;
use std::test::Fail;

#[test]
fn compressed_numbers(rt: HostRuntime) {
    for (bytes, number, left) in [
        ([0x03].as_slice(), 0x03, 0),
        ([0x7F].as_slice(), 0x7F, 0),
        ([0x80, 0x80].as_slice(), 0x80, 0),
        ([0xAE, 0x57, 0x01].as_slice(), 0x2E57, 1),
        ([0xBF, 0xFF].as_slice(), 0x3FFF, 0),
        ([0xC0, 0x00, 0x40, 0x00].as_slice(), 0x4000, 0),
        ([0xDF, 0xFF, 0xFF, 0xFF].as_slice(), 0x1FFF_FFFF, 0),
    ] {
        let read = compressed(bytes).map(|(number, rest)| (number, rest.len()));
        assert_eq!(rt; read, Some((number, left)), "{bytes:?}");
    }
}
