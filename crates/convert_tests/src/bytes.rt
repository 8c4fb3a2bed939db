//! Which bytes are an image: what is read of images with changed bytes, against what the page on images says, as it was told by a
//! program outside this repository that was written from the page alone.

use crate::sets::LIB_IMAGE;
use case_text::{Line, bytes_of, lines_of, number_of};
use msspot_read::Image;
use std::alloc::Global;
use std::test::Fail;

/// An image with a row of each kind. Types: 0 has an interface, two fields, the second with data, and the methods 0, with two catches of
/// one try inside the try of a finally, and 1, a native; 1 is nested in it, and has the method 2 without code. The last string isn't
/// UTF-8, and nobody names it.
const IMAGE: &str = "
4D 53 53 70 6F 74 31 00 60 01 00 00 01 00 00 00 00 00 00 00 00 00 00 00 01 00 02 00 01 00 01 00
02 00 01 00 02 00 03 00 03 00 01 00 01 00 32 00 24 00 0C 00 04 00 00 00 05 00 01 00 00 00 00 00
00 00 00 00 08 00 0B 00 00 40 0E 00 10 00 01 40 13 00 00 00 00 80 16 00 03 00 08 00 19 00 FF FF
00 40 80 00 00 00 01 00 00 00 02 00 00 00 02 00 0E 00 1C 00 00 00 FF FF 60 00 00 00 00 00 00 00
00 00 02 00 01 00 01 00 13 00 00 00 00 00 FF FF 1F 00 0C 00 01 00 00 00 22 00 12 00 01 00 00 00
0C 00 18 00 02 00 00 00 03 00 28 00 12 00 11 00 11 00 00 00 FF FF 00 00 00 00 00 00 2B 00 03 00
0E 00 FF FF 00 00 FF FF 00 00 00 00 00 00 00 00 00 40 00 00 02 00 02 00 04 00 00 00 00 00 00 00
02 00 04 00 06 00 02 00 FF FF 00 00 07 00 07 00 08 00 20 00 00 00 04 00 03 00 41 6C 6C 01 00 42
01 00 4E 01 00 54 00 00 01 00 55 01 00 66 01 00 6D 01 00 43 01 00 44 01 00 67 04 00 4D 61 69 6E
01 00 6E 01 00 61 02 00 FF FE 01 00 08 07 00 20 02 00 08 10 08 0E 04 00 1D 12 01 40 04 00 00 00
00 01 06 00 02 00 08 11 00 00 02 00 1D 1C 00 00 00 00 00 00 00 00 00 00 00 2A 01 02 03 04 00 00
";

/// Whether it is an image still, what is changed, how many bytes there are, `-` for as many as before, and places with the bytes that
/// stand there then.
const CHANGES: &str = "
yes | as it is | - | 
yes | bytes behind it | 357 | 
no | a byte less | 351 | 
no | no byte | 0 | 
no | less than a header | 55 | 
no | a header alone | 56 | 
no | another marker | - | 6 32
no | a marker without its zero | - | 7 20
no | a size that is larger | 356 | 8 64 01 00 00
no | a size that is smaller | - | 8 5C 01 00 00
no | a size without the zeros | - | 8 5E 01 00 00
no | the largest size of four | - | 8 FC FF FF FF
no | a byte behind the lengths | - | 54 01
no | the next byte | - | 55 01
no | a zero at the end | - | 351 01
yes | any version | - | 12 FF FF FF FF FF FF FF FF
no | strings that end in an entry | - | 294 03 00
no | strings that end in a length | - | 294 01 00
yes | strings that nobody names | - | 294 00 00 00 00
no | signatures that end in an entry | - | 330 03 00
no | a name in an entry | - | 20 01 00
no | a name at the end of the strings | - | 20 32 00
no | a name behind them | - | 20 FF FF
no | a name that is no UTF-8 | - | 20 2E 00
no | a name whose letter is no UTF-8 | - | 250 80
yes | an empty name | - | 20 0E 00
yes | no entry | - | 22 FF FF
yes | another entry | - | 22 02 00
no | an entry that is no row | - | 22 03 00
no | table 0 column 0, a name in an entry | - | 56 01 00
no | table 1 column 1, a name in an entry | - | 68 01 00
no | table 1 column 2, a name in an entry | - | 70 01 00
no | table 2 column 1, a name in an entry | - | 80 01 00
no | table 3 column 1, a name in an entry | - | 86 01 00
no | table 4 column 0, a name in an entry | - | 90 01 00
no | table 4 column 1, a name in an entry | - | 92 01 00
no | table 6 column 0, a name in an entry | - | 136 01 00
no | table 7 column 0, a name in an entry | - | 152 01 00
yes | numbers of a version | - | 58 FF FF FF FF FF FF FF FF
no | a scope that is no assembly | - | 66 01 00
no | a scope that is no type | - | 66 02 40
yes | a scope that is its own row | - | 66 00 40
no | a scope that is an array | - | 66 00 80
yes | a field is a type | - | 78 01 00
yes | a field is a reference | - | 78 01 40
yes | a field is an array | - | 78 00 80
no | a field is no type | - | 78 02 00
no | a field is no reference | - | 78 02 40
no | a field is no array | - | 78 01 80
yes | a method is a type | - | 84 01 00
yes | a method is a reference | - | 84 01 40
yes | a method is an array | - | 84 00 80
no | a method is no type | - | 84 02 00
no | a method is no reference | - | 84 02 40
no | a method is no array | - | 84 01 80
yes | a superclass is a type | - | 96 01 00
yes | a superclass is a reference | - | 96 01 40
yes | a superclass is an array | - | 96 00 80
no | a superclass is no type | - | 96 02 00
no | a superclass is no reference | - | 96 02 40
no | a superclass is no array | - | 96 01 80
yes | an interface is a type | - | 134 01 00
yes | an interface is a reference | - | 134 01 40
yes | an interface is an array | - | 134 00 80
no | an interface is no type | - | 134 02 00
no | an interface is no reference | - | 134 02 40
no | an interface is no array | - | 134 01 80
yes | a catch is a type | - | 208 01 00
yes | a catch is a reference | - | 208 01 40
yes | a catch is an array | - | 208 00 80
no | a catch is no type | - | 208 02 00
no | a catch is no reference | - | 208 02 40
no | a catch is no array | - | 208 01 80
no | a field is none | - | 78 FF FF
no | an interface is none | - | 134 FF FF
yes | table 2 column 2, the signature 08 | - | 82 00 00
no | table 2 column 2, the signature 20 02 00 08 10 08 0E | - | 82 03 00
no | table 2 column 2, the signature 02 00 08 11 00 00 | - | 82 18 00
yes | table 2 column 2, the signature 1D 1C | - | 82 20 00
no | table 2 column 2, the signature 00 00 00 01 | - | 82 12 00
yes | table 6 column 1, the signature 08 | - | 138 00 00
no | table 6 column 1, the signature 20 02 00 08 10 08 0E | - | 138 03 00
no | table 6 column 1, the signature 02 00 08 11 00 00 | - | 138 18 00
yes | table 6 column 1, the signature 1D 1C | - | 138 20 00
no | table 6 column 1, the signature 00 00 00 01 | - | 138 12 00
no | table 3 column 2, the signature 08 | - | 88 00 00
yes | table 3 column 2, the signature 20 02 00 08 10 08 0E | - | 88 03 00
no | table 3 column 2, the signature 02 00 08 11 00 00 | - | 88 18 00
no | table 3 column 2, the signature 1D 1C | - | 88 20 00
yes | table 3 column 2, the signature 00 00 00 01 | - | 88 12 00
no | table 7 column 1, the signature 08 | - | 154 00 00
yes | table 7 column 1, the signature 20 02 00 08 10 08 0E | - | 154 03 00
no | table 7 column 1, the signature 02 00 08 11 00 00 | - | 154 18 00
no | table 7 column 1, the signature 1D 1C | - | 154 20 00
yes | table 7 column 1, the signature 00 00 00 01 | - | 154 12 00
no | table 7 column 5, the signature 08 | - | 162 00 00
no | table 7 column 5, the signature 20 02 00 08 10 08 0E | - | 162 03 00
yes | table 7 column 5, the signature 02 00 08 11 00 00 | - | 162 18 00
no | table 7 column 5, the signature 1D 1C | - | 162 20 00
no | table 7 column 5, the signature 00 00 00 01 | - | 162 12 00
no | table 9 column 0, the signature 08 | - | 242 00 00
no | table 9 column 0, the signature 20 02 00 08 10 08 0E | - | 242 03 00
no | table 9 column 0, the signature 02 00 08 11 00 00 | - | 242 18 00
yes | table 9 column 0, the signature 1D 1C | - | 242 20 00
no | table 9 column 0, the signature 00 00 00 01 | - | 242 12 00
no | a signature in an entry | - | 82 01 00
yes | no locals | - | 162 FF FF
no | the type 00 | - | 300 00
no | the type 01 | - | 300 01
yes | the type 02 | - | 300 02
yes | the type 03 | - | 300 03
yes | the type 04 | - | 300 04
yes | the type 05 | - | 300 05
yes | the type 06 | - | 300 06
yes | the type 07 | - | 300 07
yes | the type 08 | - | 300 08
yes | the type 09 | - | 300 09
yes | the type 0A | - | 300 0A
yes | the type 0B | - | 300 0B
no | the type 0C | - | 300 0C
no | the type 0D | - | 300 0D
yes | the type 0E | - | 300 0E
no | the type 0F | - | 300 0F
no | the type 10 | - | 300 10
no | the type 11 | - | 300 11
no | the type 12 | - | 300 12
no | the type 13 | - | 300 13
no | the type 14 | - | 300 14
no | the type 15 | - | 300 15
no | the type 16 | - | 300 16
no | the type 17 | - | 300 17
no | the type 18 | - | 300 18
no | the type 19 | - | 300 19
no | the type 1A | - | 300 1A
no | the type 1B | - | 300 1B
yes | the type 1C | - | 300 1C
no | the type 1D | - | 300 1D
no | the type 1E | - | 300 1E
no | the type 1F | - | 300 1F
no | the type 20 | - | 300 20
no | the type 41 | - | 300 41
no | a class that is no type | - | 314 02 00
yes | a class of the table of types | - | 314 01 00
yes | a value type | - | 313 11
no | a class that is an array | - | 314 00 80
no | a class that is no reference | - | 314 02 40
no | bytes behind a type | - | 312 08
no | a cut type | - | 332 1D 1D
yes | an array of arrays | - | 312 1D 1D 1D 08
no | a kind of call | - | 318 05
yes | a call with this | - | 318 20
no | parameters that are missing | - | 319 01 00
no | a parameter too many | - | 304 01 00
no | a parameter that is void | - | 309 01
no | a result that is a pointer | - | 306 10
no | a pointer to a pointer | - | 308 10
yes | a result that is void | - | 306 01
no | a local too few | - | 324 01 00
no | a local too many | - | 324 03 00
no | a local that is a pointer | - | 326 10
no | nested in no row | - | 94 02 00
yes | nested in itself | - | 94 00 00
yes | no superclass | - | 96 FF FF
yes | all flags of a type | - | 98 FF FF
yes | no interfaces | - | 100 00 00 00 00
no | no interfaces from 1 on | - | 100 01 00 00 00
no | interfaces behind the last | - | 100 00 00 02 00
no | interfaces from behind the last | - | 100 01 00 01 00
yes | all interfaces | - | 100 00 00 01 00
no | interfaces that come round | - | 100 FF FF 02 00
yes | no fields | - | 104 00 00 00 00
no | no fields from 1 on | - | 104 01 00 00 00
no | fields behind the last | - | 104 00 00 03 00
no | fields from behind the last | - | 104 02 00 01 00
yes | all fields | - | 104 00 00 02 00
no | fields that come round | - | 104 FF FF 02 00
yes | no methods | - | 108 00 00 00 00
no | no methods from 1 on | - | 108 01 00 00 00
no | methods behind the last | - | 108 00 00 04 00
no | methods from behind the last | - | 108 03 00 01 00
yes | all methods | - | 108 00 00 03 00
no | methods that come round | - | 108 FF FF 02 00
yes | all flags of a field | - | 140 FF FF
no | a field with no row of data | - | 142 01 00
yes | a field with data | - | 142 00 00
no | data behind their pool | - | 244 01 00 04 00
no | data from behind their pool | - | 244 05 00 00 00
yes | data of no bytes at the end | - | 244 04 00 00 00
yes | data of no bytes | - | 244 00 00 00 00
no | data that come round | - | 244 FF FF 01 00
no | code behind its pool | - | 158 01 00 0C 00
no | code from behind its pool | - | 158 0D 00 00 00, 166 00 00 00 00
yes | code of no bytes at the end | - | 158 0C 00 00 00, 166 00 00 00 00
yes | a part of the code | - | 158 01 00 0B 00
yes | flags of a method without that of a native | - | 156 EF FF
no | a native with a length | - | 178 01 00
no | a native with a clause | - | 184 00 00 01 00
yes | another native | - | 176 12 00
yes | a native whose number is none | - | 176 FF FF
yes | a native of locals | - | 180 18 00
no | a method without code with a length | - | 196 01 00
no | a method without code with a clause | - | 202 00 00 01 00
no | a catch without room | - | 164 00 00
yes | a finally without room | - | 164 00 00, 166 02 00 01 00
no | clauses behind the last | - | 166 01 00 03 00
no | no clauses from 1 on | - | 166 01 00 00 00
no | a finally with a class | - | 232 00 00
no | a catch without a class | - | 208 FF FF
no | a clause of kind 1 | - | 206 01 00
no | a clause of kind 3 | - | 206 03 00
no | a clause of kind 4 | - | 206 04 00
no | a clause of kind 65535 | - | 206 FF FF
yes | one of kind 1 that no method has | - | 206 01 00, 166 01 00 02 00
no | one of kind 1 that no method has, of no class | - | 206 01 00, 208 FF FF, 166 01 00 02 00
yes | one clause | - | 166 00 00 01 00, 210 00 00 02 00 02 00 04 00
no | an empty try | - | 166 00 00 01 00, 210 02 00 02 00 02 00 04 00
no | an empty handler | - | 166 00 00 01 00, 210 00 00 02 00 04 00 04 00
no | a try that ends before it begins | - | 166 00 00 01 00, 210 03 00 02 00 04 00 05 00
no | a handler that ends before it begins | - | 166 00 00 01 00, 210 00 00 02 00 04 00 03 00
no | a handler behind the code | - | 166 00 00 01 00, 210 00 00 02 00 02 00 0D 00
no | a try behind the code | - | 166 00 00 01 00, 210 02 00 0D 00 00 00 02 00
yes | a handler to the end | - | 166 00 00 01 00, 210 00 00 02 00 02 00 0C 00
yes | a handler before its try | - | 166 00 00 01 00, 210 04 00 06 00 00 00 02 00
yes | a gap between them | - | 166 00 00 01 00, 210 00 00 02 00 05 00 07 00
no | a handler in its own try | - | 166 00 00 01 00, 210 00 00 04 00 02 00 03 00
no | a handler that begins in its try | - | 166 00 00 01 00, 210 00 00 04 00 03 00 06 00
no | a try in its own handler | - | 166 00 00 01 00, 210 02 00 03 00 00 00 04 00
yes | two apart | - | 166 00 00 02 00, 210 00 00 02 00 02 00 04 00, 222 05 00 07 00 07 00 09 00
yes | two apart, the later first | - | 166 00 00 02 00, 210 05 00 07 00 07 00 09 00, 222 00 00 02 00 02 00 04 00
no | tries that cross | - | 166 00 00 02 00, 210 00 00 03 00 05 00 06 00, 222 02 00 05 00 06 00 07 00
no | handlers that cross | - | 166 00 00 02 00, 210 00 00 01 00 03 00 06 00, 222 01 00 02 00 05 00 08 00
no | a try across a handler | - | 166 00 00 02 00, 210 00 00 02 00 04 00 07 00, 222 06 00 09 00 09 00 0A 00
no | a try that holds another try alone | - | 166 00 00 02 00, 210 00 00 02 00 08 00 09 00, 222 00 00 04 00 05 00 06 00
no | a try that holds another handler alone | - | 166 00 00 02 00, 210 06 00 08 00 02 00 04 00, 222 00 00 05 00 09 00 0A 00
no | a handler that holds another try alone | - | 166 00 00 02 00, 210 04 00 05 00 0A 00 0B 00, 222 00 00 02 00 03 00 06 00
yes | one in the try of the other | - | 166 00 00 02 00, 210 00 00 02 00 02 00 04 00, 222 00 00 05 00 05 00 07 00
no | the outer one first | - | 166 00 00 02 00, 210 00 00 05 00 05 00 07 00, 222 00 00 02 00 02 00 04 00
yes | one in the handler of the other | - | 166 00 00 02 00, 210 04 00 05 00 05 00 06 00, 222 00 00 02 00 03 00 08 00
no | the outer one first, of a handler | - | 166 00 00 02 00, 210 00 00 02 00 03 00 08 00, 222 04 00 05 00 05 00 06 00
yes | two of one try | - | 166 00 00 02 00, 210 00 00 02 00 02 00 04 00, 222 00 00 02 00 04 00 06 00
yes | two of one try, the later handler first | - | 166 00 00 02 00, 210 00 00 02 00 04 00 06 00, 222 00 00 02 00 02 00 04 00
no | two handlers that are one | - | 166 00 00 02 00, 210 00 00 02 00 02 00 04 00, 222 00 00 02 00 02 00 04 00
no | two handlers that begin at one place | - | 166 00 00 02 00, 210 00 00 02 00 04 00 06 00, 222 02 00 03 00 04 00 08 00
no | a handler shared by two tries | - | 166 00 00 02 00, 210 00 00 02 00 04 00 06 00, 222 02 00 03 00 04 00 06 00
yes | clauses that lie badly and that no method has | - | 210 05 00 05 00 09 00 02 00, 166 01 00 02 00
";

/// Each byte of the image made this one: a bit for each place, from the lowest one on, tells whether it is an image still.
const BYTES: &str = "
00 | 80 FC FF AA AA AA EA FF FF FF FF 3E FF FF 3F FF EF 3F FF FB EA AF CF BF 33 FF AF FE AA AC FA DE F6 B6 6D FB B6 CB 82 EC 29 CB FF FF
01 | 00 F2 4F 51 04 14 00 FC 03 41 00 00 4D 54 10 13 55 30 30 30 30 81 C3 00 03 03 01 10 00 00 40 BC 2D 6D DB F2 2D 07 04 04 02 C1 FF 3F
FF | 00 F0 0F 00 00 00 00 FC 03 00 00 C0 0C 00 C0 03 00 F0 30 20 30 C0 F3 00 CF 03 00 00 00 03 00 00 00 00 00 00 00 03 00 00 00 C0 FF 3F
";

/// Puts bytes at a place; both stand in a text.
fn put(bytes: &mut [u8], alloc: Global, change: &str) -> Result<(), Fail> {
    let (at, hex) = change.trim().split_once(' ').ok_or("a place")?;
    let at = number_of(at)? as usize;
    let new = bytes_of(alloc, hex)?;
    if at >= bytes.len() || bytes.len() - at < new.len() {
        return Err("a place")?;
    }
    bytes[at..at + new.len()].copy_from_slice(new.as_slice());
    Ok(())
}

/// Cuts bytes, or puts further ones behind them.
fn resize(bytes: &mut Vec<u8>, length: usize) -> Result<(), Fail> {
    for _ in bytes.len()..length {
        bytes.push(0xAA)?;
    }
    bytes.truncate(length);
    Ok(())
}

/// The image with the changes of a line.
fn changed(alloc: Global, line: &Line<'_>) -> Result<Vec<u8>, Fail> {
    let mut bytes = bytes_of(alloc, IMAGE)?;
    for change in line.text(3).split(',') {
        if change.trim() != "" {
            put(bytes.as_mut_slice(), alloc, change)?;
        }
    }
    if line.option(2).is_some() {
        resize(&mut bytes, line.number(2)? as usize)?;
    }
    Ok(bytes)
}

#[test]
fn each_ground_on_which_no_image_stands(rt: HostRuntime) -> Result<(), Fail> {
    let alloc = rt.alloc();
    let lines = lines_of(alloc, CHANGES, '|')?;
    for line in lines.as_slice() {
        let bytes = changed(alloc, line)?;
        let is_image = Image::view(bytes.as_slice()).is_ok();
        assert_eq!(rt; is_image, line.is_yes(0), "{}", line.text(1));
    }
    Ok(())
}

fn has_bit(bits: &[u8], at: usize) -> bool {
    match bits.get(at / 8) {
        Some(byte) => *byte >> (at % 8) & 1 == 1,
        None => false,
    }
}

/// How many places there are at which the image with this byte is one that isn't told, or isn't one that is told.
fn wrong_places(image: &mut [u8], value: u8, bits: &[u8]) -> u64 {
    let mut wrong: u64 = 0;
    for at in 0..image.len() {
        let old = image[at];
        image[at] = value;
        if Image::view(image).is_ok() != has_bit(bits, at) {
            wrong = wrong.saturating_add(1);
        }
        image[at] = old;
    }
    wrong
}

#[test]
fn each_byte_of_an_image(rt: HostRuntime) -> Result<(), Fail> {
    let alloc = rt.alloc();
    let mut image = bytes_of(alloc, IMAGE)?;
    let lines = lines_of(alloc, BYTES, '|')?;
    for line in lines.as_slice() {
        let bits = line.bytes(alloc, 1)?;
        let wrong = wrong_places(image.as_mut_slice(), line.byte(0)?, bits.as_slice());
        assert_eq!(rt; wrong, 0, "{}", line.text(0));
    }
    assert_eq!(rt; image.len(), 352);
    Ok(())
}

#[test]
fn the_smallest_image(rt: HostRuntime) -> Result<(), Fail> {
    let alloc = rt.alloc();
    let mut bytes = bytes_of(alloc, LIB_IMAGE)?;
    match Image::view(bytes.as_slice()) {
        Ok(image) => {
            assert_eq!(rt; image.size(), 64);
            assert_eq!(rt; image.version(), [1, 0, 0, 0]);
            assert_eq!(rt; image.entry(), 0xFFFF);
        }
        Err(_) => assert!(rt; false, "an image"),
    }
    put(bytes.as_mut_slice(), alloc, "8 3C")?;
    assert!(rt; Image::view(bytes.as_slice()).is_err());
    put(bytes.as_mut_slice(), alloc, "8 FC FF FF FF")?;
    assert!(rt; Image::view(bytes.as_slice()).is_err());
    Ok(())
}
