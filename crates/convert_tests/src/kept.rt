//! Which rows are kept: rows of an assembly App behind the base library, and what its image has of them.

use crate::runs::{OUT, app, run_one};
use case_text::{Line, lines_of};
use msspot_read::Image;
use std::alloc::Global;
use std::test::Fail;

/// The class Program over the base library.
const FRONT: &str = "
assembly | | | mscorlib
reference | 23000001 | | System Object
reference | 23000001 | | System Exception
type | 00100001 | 01000001 | Program
";

/// A name, rows behind Program, of which Main is the first method, the numbers of rows of the image's tables 0 to 10, and of each type
/// its numbers of fields and of methods.
const KEPT: &str = "
Main alone: method | 96 | | Main | 00 00 01 | 06 2A: 1 1 0 0 1 0 0 1 0 0 0: 0.1
a class that a method names which nothing reaches: method | 96 | | Main | 00 00 01 | 06 2A; method | 96 | | Other | 00 00 01 | 1E 73 03 00 00 06 26 2A; type | 100001 | 01000001 | A; method | 1886 | | .ctor | 20 00 01 | 06 2A: 1 1 0 0 1 0 0 1 0 0 0: 0.1
the same class where Main calls the method: method | 96 | | Main | 00 00 01 | 1A 28 02 00 00 06 2A; method | 96 | | Other | 00 00 01 | 1E 73 03 00 00 06 26 2A; type | 100001 | 01000001 | A; method | 1886 | | .ctor | 20 00 01 | 06 2A: 1 1 0 0 2 0 0 3 0 0 0: 0.2 0.1
code that no branch reaches is named too: method | 96 | | Main | 00 00 01 | 1E 2A 28 02 00 00 06 2A; method | 96 | | Other | 00 00 01 | 06 2A: 1 1 0 0 1 0 0 2 0 0 0: 0.2
an override of a called method, in a class that is a field's type alone; and one in a class that nothing names: field | 16 | | held | 06 12 10; method | 96 | | Main | 00 00 01 | 2E 7E 01 00 00 04 6F 02 00 00 06 2A; type | 100001 | 01000001 | Base; method | 1C6 | | F | 20 00 01 | 06 2A; type | 100001 | 02000003 | Derived; method | C6 | | F | 20 00 01 | 06 2A; type | 100001 | 02000003 | Other; method | C6 | | F | 20 00 01 | 06 2A: 1 1 0 0 3 0 1 3 0 0 0: 1.1 0.1 0.1
the same where the field isn't named: field | 16 | | held | 06 12 10; method | 96 | | Main | 00 00 01 | 1E 14 6F 02 00 00 06 2A; type | 100001 | 01000001 | Base; method | 1C6 | | F | 20 00 01 | 06 2A; type | 100001 | 02000003 | Derived; method | C6 | | F | 20 00 01 | 06 2A; type | 100001 | 02000003 | Other; method | C6 | | F | 20 00 01 | 06 2A: 1 1 0 0 2 0 0 2 0 0 0: 0.1 0.1
the same where nothing calls the method: field | 16 | | held | 06 12 10; method | 96 | | Main | 00 00 01 | 1E 7E 01 00 00 04 26 2A; type | 100001 | 01000001 | Base; method | 1C6 | | F | 20 00 01 | 06 2A; type | 100001 | 02000003 | Derived; method | C6 | | F | 20 00 01 | 06 2A; type | 100001 | 02000003 | Other; method | C6 | | F | 20 00 01 | 06 2A: 1 1 0 0 3 0 1 1 0 0 0: 1.1 0.0 0.0
a method whose override is called; it hides another, which isn't kept: method | 96 | | Main | 00 00 01 | 1E 14 28 04 00 00 06 2A; type | 100001 | 01000001 | A; method | 1C6 | | F | 20 00 01 | 06 2A; type | 100001 | 02000003 | B; method | 1C6 | | F | 20 00 01 | 06 2A; type | 100001 | 02000004 | C; method | C6 | | F | 20 00 01 | 06 2A: 1 1 0 0 4 0 0 3 0 0 0: 0.1 0.0 0.1 0.1
the hidden one is called, and those that hide it aren't kept: field | 16 | | held | 06 12 14; method | 96 | | Main | 00 00 01 | 36 14 28 02 00 00 06 7E 01 00 00 04 26 2A; type | 100001 | 01000001 | A; method | 1C6 | | F | 20 00 01 | 06 2A; type | 100001 | 02000003 | B; method | 1C6 | | F | 20 00 01 | 06 2A; type | 100001 | 02000004 | C; method | C6 | | F | 20 00 01 | 06 2A: 1 1 0 0 4 0 1 2 0 0 0: 1.1 0.1 0.0 0.0
an override two classes down, with none between: method | 96 | | Main | 00 00 01 | 1E 14 28 03 00 00 06 2A; type | 100001 | 01000001 | A; method | 1C6 | | F | 20 00 01 | 06 2A; type | 100001 | 02000003 | B; type | 100001 | 02000004 | C; method | C6 | | F | 20 00 01 | 06 2A: 1 1 0 0 4 0 0 3 0 0 0: 0.1 0.1 0.0 0.1
overloads are others: method | 96 | | Main | 00 00 01 | 1E 14 28 04 00 00 06 2A; type | 100001 | 01000001 | A; method | 1C6 | | F | 20 00 01 | 06 2A; method | 1C6 | | F | 20 01 01 08 | 06 2A; type | 100001 | 02000003 | B; method | C6 | | F | 20 00 01 | 06 2A; method | C6 | | F | 20 01 01 08 | 06 2A: 1 1 0 0 3 0 0 3 0 0 0: 0.1 0.1 0.1
a called interface's body, in a class above the one that implements it, which isn't kept: method | 96 | | Main | 00 00 01 | 32 28 04 00 00 06 14 6F 02 00 00 06 2A; type | A1 | | I; method | 5C6 | | M | 20 00 01; type | 100001 | 01000001 | Base; method | 1C6 | | M | 20 00 01 | 06 2A; method | 96 | | S | 00 00 01 | 06 2A; type | 100001 | 02000004 | Derived; interface | 02000005 | 02000003: 1 1 0 0 3 0 0 4 0 0 0: 0.1 0.1 0.2
the same where nothing calls the interface: method | 96 | | Main | 00 00 01 | 1A 28 04 00 00 06 2A; type | A1 | | I; method | 5C6 | | M | 20 00 01; type | 100001 | 01000001 | Base; method | 1C6 | | M | 20 00 01 | 06 2A; method | 96 | | S | 00 00 01 | 06 2A; type | 100001 | 02000004 | Derived; interface | 02000005 | 02000003: 1 1 0 0 2 0 0 2 0 0 0: 0.1 0.1
the same where the body's class isn't kept: method | 96 | | Main | 00 00 01 | 1E 14 6F 02 00 00 06 2A; type | A1 | | I; method | 5C6 | | M | 20 00 01; type | 100001 | 01000001 | Base; method | 1C6 | | M | 20 00 01 | 06 2A; method | 96 | | S | 00 00 01 | 06 2A; type | 100001 | 02000004 | Derived; interface | 02000005 | 02000003: 1 1 0 0 2 0 0 2 0 0 0: 0.1 0.1
the same of a class that implements it by an interface of its own: method | 96 | | Main | 00 00 01 | 32 28 04 00 00 06 14 6F 02 00 00 06 2A; type | A1 | | I; method | 5C6 | | M | 20 00 01; type | 100001 | 01000001 | Base; method | 1C6 | | M | 20 00 01 | 06 2A; method | 96 | | S | 00 00 01 | 06 2A; type | 100001 | 02000004 | Derived; type | A1 | | J; interface | 02000005 | 02000006; interface | 02000006 | 02000003: 1 1 0 0 3 0 0 4 0 0 0: 0.1 0.1 0.2
a body of another signature isn't one: method | 96 | | Main | 00 00 01 | 32 28 05 00 00 06 14 6F 02 00 00 06 2A; type | A1 | | I; method | 5C6 | | M | 20 00 01; type | 100001 | 01000001 | Base; method | 1C6 | | M | 20 01 01 08 | 06 2A; method | 1C6 | | M | 20 00 01 | 06 2A; method | 96 | | S | 00 00 01 | 06 2A; interface | 02000004 | 02000003: 1 1 0 0 3 1 0 4 0 0 0: 0.1 0.1 0.2
a class keeps its interfaces: method | 96 | | Main | 00 00 01 | 06 2A; type | A1 | | I; method | 96 | | S | 00 00 01 | 06 2A; interface | 02000002 | 02000003: 1 1 0 0 2 1 0 1 0 0 0: 0.1 0.0
a class keeps its initializer: method | 96 | | Main | 00 00 01 | 06 2A; method | 1896 | | .cctor | 00 00 01 | 06 2A: 1 1 0 0 1 0 0 2 0 0 0: 0.2
a class keeps its instance fields, and no static one: field | 6 | | a | 06 08; field | 16 | | b | 06 08; field | 6 | | c | 06 0A; method | 96 | | Main | 00 00 01 | 06 2A: 1 1 0 0 1 0 2 1 0 0 0: 2.1
a nested class keeps the one round it: method | 96 | | Main | 00 00 01 | 1A 28 02 00 00 06 2A; type | 100001 | 01000001 | Outer; type | 100002 | 01000001 | Inner; method | 96 | | S | 00 00 01 | 06 2A; nested | 02000004 | 02000003: 1 1 0 0 3 0 0 2 0 0 0: 0.1 0.0 0.1
and not the other way: method | 96 | | Main | 00 00 01 | 1A 28 02 00 00 06 2A; type | 100001 | 01000001 | Outer; method | 96 | | S | 00 00 01 | 06 2A; type | 100002 | 01000001 | Inner; nested | 02000004 | 02000003: 1 1 0 0 2 0 0 2 0 0 0: 0.1 0.1
a method keeps the class that it catches: method | 96 | | Main | 00 00 01 | 0B 30 08 00 06 00 00 00 00 00 00 00 DE 03 26 DE 00 2A 00 00 01 10 00 00 00 00 00 00 02 02 00 03 03 00 00 02; type | 100001 | 01000002 | E: 1 2 0 0 2 0 0 1 1 0 0: 0.1 0.0
a finally keeps none: method | 96 | | Main | 00 00 01 | 0B 30 08 00 04 00 00 00 00 00 00 00 DE 01 DC 2A 01 10 00 00 02 00 00 00 02 02 00 01 00 00 00 00; type | 100001 | 01000002 | E: 1 1 0 0 1 0 0 1 1 0 0: 0.1
a method keeps the classes of its locals: method | 96 | | Main | 00 00 01 | 03 30 08 00 01 00 00 00 01 00 00 11 2A; type | 100001 | 01000001 | A; locals | | | | 07 01 12 0C: 1 1 0 0 2 0 0 1 0 0 0: 0.1 0.0
a method keeps the classes of its signature: method | 96 | | Main | 00 00 01 | 1E 14 28 02 00 00 06 2A; method | 96 | | S | 00 01 01 12 0C | 06 2A; type | 100001 | 01000001 | A: 1 1 0 0 2 0 0 2 0 0 0: 0.2 0.0
references to members: method | 96 | | Main | 00 00 01 | 32 7E 01 00 00 0A 26 28 02 00 00 0A 2A; type | 100001 | 01000001 | D; field | 16 | | x | 06 08; method | 96 | | S | 00 00 01 | 06 2A; member | 02000003 | | x | 06 08; member | 02000003 | | S | 00 00 01; member | 02000003 | | S | 00 00 01: 1 1 1 1 2 0 1 2 0 0 0: 0.1 1.1
an array's type: method | 96 | | Main | 00 00 01 | 22 16 8D 01 00 00 1B 26 2A; spec | | | | 1D 08; spec | | | | 1D 0A: 1 1 0 0 1 0 0 1 0 1 0: 0.1
a field's bytes: field | 116 | | a | 06 08 | 05 06 07 08; field | 116 | | b | 06 08 | 05 06 07 08; field | 116 | | c | 06 08 | 05 06 07 08; method | 96 | | Main | 00 00 01 | 36 D0 01 00 00 04 26 D0 03 00 00 04 26 2A: 1 1 0 0 1 0 2 1 0 0 2: 2.1
an override of a library's method that nothing calls: method | 96 | | Main | 00 00 01 | 1E 73 02 00 00 06 26 2A; type | 100001 | 01000001 | A; method | 1886 | | .ctor | 20 00 01 | 06 2A; method | C6 | | ToString | 20 00 0E | 0A 14 2A; member | 01000001 | | ToString | 20 00 0E: 1 1 0 0 2 0 0 2 0 0 0: 0.1 0.1
one that Main calls by the library's name: method | 96 | | Main | 00 00 01 | 32 73 02 00 00 06 6F 01 00 00 0A 26 2A; type | 100001 | 01000001 | A; method | 1886 | | .ctor | 20 00 01 | 06 2A; method | C6 | | ToString | 20 00 0E | 0A 14 2A; member | 01000001 | | ToString | 20 00 0E: 1 1 0 1 2 0 0 3 0 0 0: 0.1 0.2
";

/// The numbers of rows of an image's tables.
fn counts_of(alloc: Global, image: &Image<'_>) -> Result<String, Fail> {
    let mut text = String::new(alloc);
    for table in 0..11u8 {
        let rows = image.rows(table);
        let part = format!(in alloc; "{rows} ")?;
        text.push_str(part.as_str())?;
    }
    Ok(text)
}

/// The numbers of fields and of methods of an image's types.
fn types_of(alloc: Global, image: &Image<'_>) -> Result<String, Fail> {
    let mut text = String::new(alloc);
    for row in 0..image.rows(4) {
        let columns = image.row(4, row).columns;
        let (fields, methods) = (columns[8], columns[10]);
        let part = format!(in alloc; "{fields}.{methods} ")?;
        text.push_str(part.as_str())?;
    }
    Ok(text)
}

/// The bytes from the beginning of an image of a set on, by its number.
pub fn image_in<'a>(set: &'a [u8], number: u32) -> Option<&'a [u8]> {
    let mut rest = set;
    for _ in 0..number {
        let size = match Image::view(rest) {
            Ok(image) => image.size() as usize,
            Err(_) => return None,
        };
        rest = rest.get(size..)?;
    }
    Some(rest)
}

/// What the image of a line's rows has, with `:` between rows and types; or the status, if the rows aren't converted.
fn kept_of(alloc: Global, line: &Line<'_>) -> Result<String, Fail> {
    let run = run_one(alloc, app(alloc, FRONT, line.text(1))?)?;
    let Some(set) = run.store.bytes(OUT) else {
        let status = run.status;
        return Ok(format!(in alloc; "status {status}")?);
    };
    let bytes = image_in(set, 2).ok_or("three images")?;
    let image = Image::view(bytes).ok().ok_or("an image")?;
    let mut text = counts_of(alloc, &image)?;
    let types = types_of(alloc, &image)?;
    text.push_str(": ")?;
    text.push_str(types.as_str())?;
    Ok(text)
}

/// What a line wants, in the same form.
fn wanted(alloc: Global, line: &Line<'_>) -> Result<String, Fail> {
    let (counts, types) = (line.text(2), line.text(3));
    Ok(format!(in alloc; "{counts} : {types} ")?)
}

#[test]
fn rows_are_kept(rt: HostRuntime) -> Result<(), Fail> {
    let alloc = rt.alloc();
    let lines = lines_of(alloc, KEPT, ':')?;
    for line in lines.as_slice() {
        let kept = kept_of(alloc, line)?;
        let wanted = wanted(alloc, line)?;
        assert_eq!(rt; kept.as_str(), wanted.as_str(), "{}", line.text(0));
    }
    Ok(())
}
