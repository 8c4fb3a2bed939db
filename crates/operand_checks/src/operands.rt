//! Rule 46: what operands name (ECMA-335 III.3, III.4).

use crate::told::{methods_are_told, methods_are_told_behind};
use std::test::Fail;

/// Literals and methods.
const METHODS_NAMED: &str = "
- | a literal | 00 00 01 | 1E 72 01 00 00 70 26 2A
- | the empty literal | 00 00 01 | 1E 72 00 00 00 70 26 2A
46 0 | a literal that begins nowhere | 00 00 01 | 1E 72 02 00 00 70 26 2A
46 0 | a literal behind the heap | 00 00 01 | 1E 72 FF FF FF 70 26 2A
46 0 | a method for a literal | 00 00 01 | 1E 72 01 00 00 06 26 2A
- | call of a static method | 00 00 01 | 4A 16 21 00 00 00 00 00 00 00 00 28 01 00 00 06 26 26 2A
- | call of a method with this | 00 00 01 | 1E 14 28 04 00 00 06 2A
- | call of a virtual method | 00 00 01 | 22 14 28 05 00 00 06 26 2A
- | call of an inherited method by its subclass | 00 00 01 | 1E 14 28 0B 00 00 0A 2A
- | call of a native method | 00 00 01 | 26 14 14 28 03 00 00 0A 26 2A
- | call of an interface's static method | 00 00 01 | 1E 28 12 00 00 06 26 2A
- | call of a constructor | 00 00 01 | 1E 14 28 02 00 00 06 2A
- | call of an enum's method | 00 00 01 | 03 30 08 00 09 00 00 00 01 00 00 11 12 0B 28 18 00 00 06 26 2A
- | call of a number's method | 00 00 01 | 03 30 08 00 09 00 00 00 01 00 00 11 12 00 28 06 00 00 0A 26 2A
46 1 | call of an abstract method | 00 00 01 | 22 14 28 10 00 00 06 26 2A
46 1 | call of an interface's method | 00 00 01 | 22 14 28 11 00 00 06 26 2A
46 1 | call of a library interface's method | 00 00 01 | 1E 14 28 08 00 00 0A 2A
46 0 | call of a method that isn't there | 00 00 01 | 1A 28 09 00 00 0A 2A
46 0 | call of a method of a type that isn't there | 00 00 01 | 1A 28 0A 00 00 0A 2A
46 0 | call of an array's member | 00 00 01 | 1A 28 13 00 00 0A 2A
46 0 | call of Object's method by an interface | 00 00 01 | 1A 28 11 00 00 0A 2A
46 0 | call of method row 0 | 00 00 01 | 1A 28 00 00 00 06 2A
46 0 | call of a method behind the last | 00 00 01 | 1A 28 FF 0F 00 06 2A
46 0 | call of a reference of row 0 | 00 00 01 | 1A 28 00 00 00 0A 2A
46 0 | call of a reference behind the last | 00 00 01 | 1A 28 FF 0F 00 0A 2A
46 0 | call of a field | 00 00 01 | 1A 28 06 00 00 04 2A
46 0 | call of a reference to a field | 00 00 01 | 1A 28 0C 00 00 0A 2A
46 0 | call of a type | 00 00 01 | 1A 28 03 00 00 02 2A
46 0 | call of token 0 | 00 00 01 | 1A 28 00 00 00 00 2A
46 0 | call of an array | 00 00 01 | 1A 28 01 00 00 1B 2A
46 0 | call of a literal | 00 00 01 | 1A 28 01 00 00 70 2A
- | callvirt of a virtual method | 00 00 01 | 22 14 6F 05 00 00 06 26 2A
- | callvirt of a method that isn't virtual | 00 00 01 | 1E 14 6F 04 00 00 06 2A
- | callvirt of an abstract method | 00 00 01 | 22 14 6F 10 00 00 06 26 2A
- | callvirt of an interface's method | 00 00 01 | 22 14 6F 11 00 00 06 26 2A
- | callvirt of a constructor | 00 00 01 | 1E 14 6F 02 00 00 06 2A
- | callvirt of Object's method | 00 00 01 | 22 14 6F 02 00 00 0A 26 2A
46 2 | callvirt of a static method | 00 00 01 | 26 16 6A 6F 06 00 00 06 26 2A
46 0 | callvirt of an interface's static method | 00 00 01 | 1E 6F 12 00 00 06 26 2A
46 2 | callvirt of an enum's method | 00 00 01 | 03 30 08 00 09 00 00 00 01 00 00 11 12 0B 6F 18 00 00 06 26 2A
46 2 | callvirt of a number's method | 00 00 01 | 03 30 08 00 09 00 00 00 01 00 00 11 12 00 6F 06 00 00 0A 26 2A
46 1 | callvirt of a data type's method | 00 00 01 | 1E 14 6F 19 00 00 06 2A
46 0 | callvirt of a method that isn't there | 00 00 01 | 1A 6F 09 00 00 0A 2A
46 0 | callvirt of a field | 00 00 01 | 1A 6F 01 00 00 04 2A
- | newobj | 00 00 01 | 1E 73 02 00 00 06 26 2A
- | newobj with a number | 00 00 01 | 22 16 73 03 00 00 06 26 2A
- | newobj of Object | 00 00 01 | 1E 73 01 00 00 0A 26 2A
- | newobj of an exception | 00 00 01 | 1E 73 0F 00 00 0A 26 2A
46 0 | newobj of an abstract class | 00 00 01 | 1E 73 0F 00 00 06 26 2A
46 0 | newobj of String | 00 00 01 | 1E 73 05 00 00 0A 26 2A
46 0 | newobj of Array | 00 00 01 | 1E 73 12 00 00 0A 26 2A
46 0 | newobj of a method | 00 00 01 | 1E 73 04 00 00 06 26 2A
46 0 | newobj of a static method | 00 00 01 | 1E 73 07 00 00 06 26 2A
46 0 | newobj of a constructor that isn't there | 00 00 01 | 1E 73 0A 00 00 0A 26 2A
46 0 | newobj of a type | 00 00 01 | 1E 73 03 00 00 02 26 2A
";

#[test]
fn methods_named(rt: HostRuntime) -> Result<(), Fail> {
    methods_are_told(&rt, METHODS_NAMED)
}

/// The library's System.Array, its fifth type, without the flag of abstract types (II.23.1.15).
const PLAIN_ARRAY: &str = "is | 02 | 5 | 0 | 00100001";

/// Behind such a library no object is made of System.Array either, and of others as behind any.
const BEHIND_PLAIN_ARRAY: &str = "
46 0 | newobj of Array | 00 00 01 | 1E 73 12 00 00 0A 26 2A
46 0 | newobj of String | 00 00 01 | 1E 73 05 00 00 0A 26 2A
- | newobj of Object | 00 00 01 | 1E 73 01 00 00 0A 26 2A
";

#[test]
fn arrays_that_are_not_abstract(rt: HostRuntime) -> Result<(), Fail> {
    methods_are_told_behind(&rt, PLAIN_ARRAY, BEHIND_PLAIN_ARRAY)
}

/// Fields of objects.
const FIELDS_NAMED: &str = "
- | ldfld | 00 00 01 | 22 14 7B 01 00 00 04 26 2A
- | ldfld by a subclass | 00 00 01 | 22 14 7B 0C 00 00 0A 26 2A
46 1 | ldfld of a static field | 00 00 01 | 22 14 7B 06 00 00 04 26 2A
46 1 | ldfld of a literal field | 00 00 01 | 22 14 7B 09 00 00 04 26 2A
46 1 | ldfld of a data field | 00 00 01 | 22 14 7B 0B 00 00 04 26 2A
46 1 | ldfld of an enum's number | 00 00 01 | 22 14 7B 0C 00 00 04 26 2A
46 1 | ldfld of a field that isn't there | 00 00 01 | 22 14 7B 0D 00 00 0A 26 2A
46 1 | ldfld of a field of another type | 00 00 01 | 22 14 7B 0E 00 00 0A 26 2A
46 1 | ldfld of field row 0 | 00 00 01 | 22 14 7B 00 00 00 04 26 2A
46 1 | ldfld of a field behind the last | 00 00 01 | 22 14 7B FF 0F 00 04 26 2A
46 1 | ldfld of a method | 00 00 01 | 22 14 7B 04 00 00 06 26 2A
46 1 | ldfld of a reference to a method | 00 00 01 | 22 14 7B 0B 00 00 0A 26 2A
46 1 | ldfld of a type | 00 00 01 | 22 14 7B 03 00 00 02 26 2A
- | ldflda | 00 00 01 | 22 14 7C 01 00 00 04 26 2A
- | ldflda by a subclass | 00 00 01 | 22 14 7C 0C 00 00 0A 26 2A
46 1 | ldflda of a static field | 00 00 01 | 22 14 7C 06 00 00 04 26 2A
46 1 | ldflda of a literal field | 00 00 01 | 22 14 7C 09 00 00 04 26 2A
46 1 | ldflda of a data field | 00 00 01 | 22 14 7C 0B 00 00 04 26 2A
46 1 | ldflda of an enum's number | 00 00 01 | 22 14 7C 0C 00 00 04 26 2A
46 1 | ldflda of a field that isn't there | 00 00 01 | 22 14 7C 0D 00 00 0A 26 2A
46 1 | ldflda of a field of another type | 00 00 01 | 22 14 7C 0E 00 00 0A 26 2A
46 1 | ldflda of field row 0 | 00 00 01 | 22 14 7C 00 00 00 04 26 2A
46 1 | ldflda of a field behind the last | 00 00 01 | 22 14 7C FF 0F 00 04 26 2A
46 1 | ldflda of a method | 00 00 01 | 22 14 7C 04 00 00 06 26 2A
46 1 | ldflda of a reference to a method | 00 00 01 | 22 14 7C 0B 00 00 0A 26 2A
46 1 | ldflda of a type | 00 00 01 | 22 14 7C 03 00 00 02 26 2A
- | stfld | 00 00 01 | 22 14 16 7D 01 00 00 04 2A
- | stfld by a subclass | 00 00 01 | 22 14 16 7D 0C 00 00 0A 2A
46 2 | stfld of a static field | 00 00 01 | 22 14 16 7D 06 00 00 04 2A
46 2 | stfld of a literal field | 00 00 01 | 22 14 16 7D 09 00 00 04 2A
46 2 | stfld of a data field | 00 00 01 | 22 14 16 7D 0B 00 00 04 2A
46 2 | stfld of an enum's number | 00 00 01 | 22 14 16 7D 0C 00 00 04 2A
46 2 | stfld of a field that isn't there | 00 00 01 | 22 14 16 7D 0D 00 00 0A 2A
46 2 | stfld of a field of another type | 00 00 01 | 22 14 16 7D 0E 00 00 0A 2A
46 2 | stfld of field row 0 | 00 00 01 | 22 14 16 7D 00 00 00 04 2A
46 2 | stfld of a field behind the last | 00 00 01 | 22 14 16 7D FF 0F 00 04 2A
46 2 | stfld of a method | 00 00 01 | 22 14 16 7D 04 00 00 06 2A
46 2 | stfld of a reference to a method | 00 00 01 | 22 14 16 7D 0B 00 00 0A 2A
46 2 | stfld of a type | 00 00 01 | 22 14 16 7D 03 00 00 02 2A
";

#[test]
fn fields_named(rt: HostRuntime) -> Result<(), Fail> {
    methods_are_told(&rt, FIELDS_NAMED)
}

/// Static fields and data.
const STATICS_NAMED: &str = "
- | ldsfld | 00 00 01 | 1E 7E 06 00 00 04 26 2A
46 0 | ldsfld of an instance field | 00 00 01 | 1E 7E 01 00 00 04 26 2A
46 0 | ldsfld of a literal field | 00 00 01 | 1E 7E 09 00 00 04 26 2A
46 0 | ldsfld of a data field of a number | 00 00 01 | 1E 7E 0B 00 00 04 26 2A
46 0 | ldsfld of a data field | 00 00 01 | 1E 7E 0A 00 00 04 26 2A
46 0 | ldsfld of an enum's constant | 00 00 01 | 1E 7E 0D 00 00 04 26 2A
46 0 | ldsfld of a field that isn't there | 00 00 01 | 1E 7E 0D 00 00 0A 26 2A
46 0 | ldsfld of a method | 00 00 01 | 1E 7E 01 00 00 06 26 2A
- | ldsflda | 00 00 01 | 1E 7F 06 00 00 04 26 2A
46 0 | ldsflda of an instance field | 00 00 01 | 1E 7F 01 00 00 04 26 2A
46 0 | ldsflda of a literal field | 00 00 01 | 1E 7F 09 00 00 04 26 2A
46 0 | ldsflda of a data field of a number | 00 00 01 | 1E 7F 0B 00 00 04 26 2A
46 0 | ldsflda of a data field | 00 00 01 | 1E 7F 0A 00 00 04 26 2A
46 0 | ldsflda of an enum's constant | 00 00 01 | 1E 7F 0D 00 00 04 26 2A
46 0 | ldsflda of a field that isn't there | 00 00 01 | 1E 7F 0D 00 00 0A 26 2A
46 0 | ldsflda of a method | 00 00 01 | 1E 7F 01 00 00 06 26 2A
- | stsfld | 00 00 01 | 1E 16 80 06 00 00 04 2A
46 1 | stsfld of an instance field | 00 00 01 | 1E 16 80 01 00 00 04 2A
46 1 | stsfld of a literal field | 00 00 01 | 1E 16 80 09 00 00 04 2A
46 1 | stsfld of a data field of a number | 00 00 01 | 1E 16 80 0B 00 00 04 2A
46 1 | stsfld of a data field | 00 00 01 | 1E 16 80 0A 00 00 04 2A
46 1 | stsfld of an enum's constant | 00 00 01 | 1E 16 80 0D 00 00 04 2A
46 1 | stsfld of a field that isn't there | 00 00 01 | 1E 16 80 0D 00 00 0A 2A
46 1 | stsfld of a method | 00 00 01 | 1E 16 80 01 00 00 06 2A
- | ldtoken of a data field | 00 00 01 | 1E D0 0A 00 00 04 26 2A
- | ldtoken of a data field of a number | 00 00 01 | 1E D0 0B 00 00 04 26 2A
46 0 | ldtoken of a static field | 00 00 01 | 1E D0 06 00 00 04 26 2A
46 0 | ldtoken of an instance field | 00 00 01 | 1E D0 01 00 00 04 26 2A
46 0 | ldtoken of a literal field | 00 00 01 | 1E D0 09 00 00 04 26 2A
46 0 | ldtoken of a type | 00 00 01 | 1E D0 03 00 00 02 26 2A
46 0 | ldtoken of a method | 00 00 01 | 1E D0 01 00 00 06 26 2A
46 0 | ldtoken of a field that isn't there | 00 00 01 | 1E D0 0D 00 00 0A 26 2A
46 0 | ldtoken of token 0 | 00 00 01 | 1E D0 00 00 00 00 26 2A
";

#[test]
fn statics_named(rt: HostRuntime) -> Result<(), Fail> {
    methods_are_told(&rt, STATICS_NAMED)
}

/// Types of casts and of new arrays.
const TYPES_NAMED: &str = "
- | castclass of a class | 00 00 01 | 22 14 74 03 00 00 02 26 2A
- | castclass of an interface | 00 00 01 | 22 14 74 06 00 00 02 26 2A
- | castclass of an array | 00 00 01 | 22 14 74 01 00 00 1B 26 2A
- | castclass of a number | 00 00 01 | 22 14 74 06 00 00 01 26 2A
- | castclass of an enum | 00 00 01 | 22 14 74 09 00 00 02 26 2A
- | castclass of String | 00 00 01 | 22 14 74 04 00 00 01 26 2A
- | castclass of a class by reference | 00 00 01 | 22 14 74 05 00 00 01 26 2A
- | castclass of ValueType | 00 00 01 | 22 14 74 02 00 00 01 26 2A
46 1 | castclass of a data type | 00 00 01 | 22 14 74 0B 00 00 02 26 2A
46 1 | castclass of a type that isn't there | 00 00 01 | 22 14 74 07 00 00 01 26 2A
46 1 | castclass of a field handle | 00 00 01 | 22 14 74 0A 00 00 01 26 2A
46 1 | castclass of type row 0 | 00 00 01 | 22 14 74 00 00 00 02 26 2A
46 1 | castclass of a type behind the last | 00 00 01 | 22 14 74 FF 0F 00 02 26 2A
46 1 | castclass of a reference behind the last | 00 00 01 | 22 14 74 FF 0F 00 01 26 2A
46 1 | castclass of an array behind the last | 00 00 01 | 22 14 74 FF 0F 00 1B 26 2A
46 1 | castclass of a method | 00 00 01 | 22 14 74 01 00 00 06 26 2A
46 1 | castclass of a field | 00 00 01 | 22 14 74 01 00 00 04 26 2A
46 1 | castclass of token 0 | 00 00 01 | 22 14 74 00 00 00 00 26 2A
- | isinst of a class | 00 00 01 | 22 14 75 03 00 00 02 26 2A
- | isinst of an interface | 00 00 01 | 22 14 75 06 00 00 02 26 2A
- | isinst of an array | 00 00 01 | 22 14 75 01 00 00 1B 26 2A
- | isinst of a number | 00 00 01 | 22 14 75 06 00 00 01 26 2A
- | isinst of an enum | 00 00 01 | 22 14 75 09 00 00 02 26 2A
- | isinst of String | 00 00 01 | 22 14 75 04 00 00 01 26 2A
- | isinst of a class by reference | 00 00 01 | 22 14 75 05 00 00 01 26 2A
- | isinst of ValueType | 00 00 01 | 22 14 75 02 00 00 01 26 2A
46 1 | isinst of a data type | 00 00 01 | 22 14 75 0B 00 00 02 26 2A
46 1 | isinst of a type that isn't there | 00 00 01 | 22 14 75 07 00 00 01 26 2A
46 1 | isinst of a field handle | 00 00 01 | 22 14 75 0A 00 00 01 26 2A
46 1 | isinst of type row 0 | 00 00 01 | 22 14 75 00 00 00 02 26 2A
46 1 | isinst of a type behind the last | 00 00 01 | 22 14 75 FF 0F 00 02 26 2A
46 1 | isinst of a reference behind the last | 00 00 01 | 22 14 75 FF 0F 00 01 26 2A
46 1 | isinst of an array behind the last | 00 00 01 | 22 14 75 FF 0F 00 1B 26 2A
46 1 | isinst of a method | 00 00 01 | 22 14 75 01 00 00 06 26 2A
46 1 | isinst of a field | 00 00 01 | 22 14 75 01 00 00 04 26 2A
46 1 | isinst of token 0 | 00 00 01 | 22 14 75 00 00 00 00 26 2A
- | unbox.any of a class | 00 00 01 | 22 14 A5 03 00 00 02 26 2A
- | unbox.any of an interface | 00 00 01 | 22 14 A5 06 00 00 02 26 2A
- | unbox.any of an array | 00 00 01 | 22 14 A5 01 00 00 1B 26 2A
- | unbox.any of a number | 00 00 01 | 22 14 A5 06 00 00 01 26 2A
- | unbox.any of an enum | 00 00 01 | 22 14 A5 09 00 00 02 26 2A
- | unbox.any of String | 00 00 01 | 22 14 A5 04 00 00 01 26 2A
- | unbox.any of a class by reference | 00 00 01 | 22 14 A5 05 00 00 01 26 2A
- | unbox.any of ValueType | 00 00 01 | 22 14 A5 02 00 00 01 26 2A
46 1 | unbox.any of a data type | 00 00 01 | 22 14 A5 0B 00 00 02 26 2A
46 1 | unbox.any of a type that isn't there | 00 00 01 | 22 14 A5 07 00 00 01 26 2A
46 1 | unbox.any of a field handle | 00 00 01 | 22 14 A5 0A 00 00 01 26 2A
46 1 | unbox.any of type row 0 | 00 00 01 | 22 14 A5 00 00 00 02 26 2A
46 1 | unbox.any of a type behind the last | 00 00 01 | 22 14 A5 FF 0F 00 02 26 2A
46 1 | unbox.any of a reference behind the last | 00 00 01 | 22 14 A5 FF 0F 00 01 26 2A
46 1 | unbox.any of an array behind the last | 00 00 01 | 22 14 A5 FF 0F 00 1B 26 2A
46 1 | unbox.any of a method | 00 00 01 | 22 14 A5 01 00 00 06 26 2A
46 1 | unbox.any of a field | 00 00 01 | 22 14 A5 01 00 00 04 26 2A
46 1 | unbox.any of token 0 | 00 00 01 | 22 14 A5 00 00 00 00 26 2A
- | newarr of a class | 00 00 01 | 22 16 8D 03 00 00 02 26 2A
- | newarr of an interface | 00 00 01 | 22 16 8D 06 00 00 02 26 2A
- | newarr of an array | 00 00 01 | 22 16 8D 01 00 00 1B 26 2A
- | newarr of a number | 00 00 01 | 22 16 8D 06 00 00 01 26 2A
- | newarr of an enum | 00 00 01 | 22 16 8D 09 00 00 02 26 2A
- | newarr of String | 00 00 01 | 22 16 8D 04 00 00 01 26 2A
- | newarr of a class by reference | 00 00 01 | 22 16 8D 05 00 00 01 26 2A
- | newarr of ValueType | 00 00 01 | 22 16 8D 02 00 00 01 26 2A
46 1 | newarr of a data type | 00 00 01 | 22 16 8D 0B 00 00 02 26 2A
46 1 | newarr of a type that isn't there | 00 00 01 | 22 16 8D 07 00 00 01 26 2A
46 1 | newarr of a field handle | 00 00 01 | 22 16 8D 0A 00 00 01 26 2A
46 1 | newarr of type row 0 | 00 00 01 | 22 16 8D 00 00 00 02 26 2A
46 1 | newarr of a type behind the last | 00 00 01 | 22 16 8D FF 0F 00 02 26 2A
46 1 | newarr of a reference behind the last | 00 00 01 | 22 16 8D FF 0F 00 01 26 2A
46 1 | newarr of an array behind the last | 00 00 01 | 22 16 8D FF 0F 00 1B 26 2A
46 1 | newarr of a method | 00 00 01 | 22 16 8D 01 00 00 06 26 2A
46 1 | newarr of a field | 00 00 01 | 22 16 8D 01 00 00 04 26 2A
46 1 | newarr of token 0 | 00 00 01 | 22 16 8D 00 00 00 00 26 2A
";

#[test]
fn types_named(rt: HostRuntime) -> Result<(), Fail> {
    methods_are_told(&rt, TYPES_NAMED)
}

/// Types of elements, boxes and what a pointer leads to.
const ELEMENTS_NAMED: &str = "
- | ldelema of a class | 00 00 01 | 26 14 16 8F 03 00 00 02 26 2A
46 2 | ldelema of a data type | 00 00 01 | 26 14 16 8F 0B 00 00 02 26 2A
46 2 | ldelema of a type that isn't there | 00 00 01 | 26 14 16 8F 07 00 00 01 26 2A
- | ldelem of a class | 00 00 01 | 26 14 16 A3 03 00 00 02 26 2A
46 2 | ldelem of a data type | 00 00 01 | 26 14 16 A3 0B 00 00 02 26 2A
46 2 | ldelem of a type that isn't there | 00 00 01 | 26 14 16 A3 07 00 00 01 26 2A
- | stelem of a class | 00 00 01 | 26 14 16 14 A4 03 00 00 02 2A
46 3 | stelem of a data type | 00 00 01 | 26 14 16 14 A4 0B 00 00 02 2A
46 3 | stelem of a type that isn't there | 00 00 01 | 26 14 16 14 A4 07 00 00 01 2A
- | ldobj of a number | 00 00 01 | 03 30 08 00 09 00 00 00 01 00 00 11 12 00 71 06 00 00 01 26 2A
46 2 | ldobj of a data type | 00 00 01 | 03 30 08 00 09 00 00 00 01 00 00 11 12 00 71 0B 00 00 02 26 2A
- | stobj of a class | 00 00 01 | 03 30 08 00 09 00 00 00 01 00 00 11 12 04 14 81 03 00 00 02 2A
46 3 | stobj of a data type | 00 00 01 | 03 30 08 00 09 00 00 00 01 00 00 11 12 04 14 81 0B 00 00 02 2A
- | box of a number | 00 00 01 | 22 16 8C 06 00 00 01 26 2A
- | box of an enum | 00 00 01 | 22 16 8C 09 00 00 02 26 2A
- | unbox of a number | 00 00 01 | 22 14 79 06 00 00 01 26 2A
- | unbox of an enum | 00 00 01 | 22 14 79 09 00 00 02 26 2A
46 1 | box of a class | 00 00 01 | 22 14 8C 03 00 00 02 26 2A
46 1 | unbox of a class | 00 00 01 | 22 14 79 03 00 00 02 26 2A
46 1 | box of an interface | 00 00 01 | 22 14 8C 06 00 00 02 26 2A
46 1 | unbox of an interface | 00 00 01 | 22 14 79 06 00 00 02 26 2A
46 1 | box of String | 00 00 01 | 22 14 8C 04 00 00 01 26 2A
46 1 | unbox of String | 00 00 01 | 22 14 79 04 00 00 01 26 2A
46 1 | box of Object | 00 00 01 | 22 14 8C 01 00 00 01 26 2A
46 1 | unbox of Object | 00 00 01 | 22 14 79 01 00 00 01 26 2A
46 1 | box of ValueType | 00 00 01 | 22 14 8C 02 00 00 01 26 2A
46 1 | unbox of ValueType | 00 00 01 | 22 14 79 02 00 00 01 26 2A
46 1 | box of Enum | 00 00 01 | 22 14 8C 03 00 00 01 26 2A
46 1 | unbox of Enum | 00 00 01 | 22 14 79 03 00 00 01 26 2A
46 1 | box of an array | 00 00 01 | 22 14 8C 01 00 00 1B 26 2A
46 1 | unbox of an array | 00 00 01 | 22 14 79 01 00 00 1B 26 2A
46 1 | box of a data type | 00 00 01 | 22 14 8C 0B 00 00 02 26 2A
46 1 | unbox of a data type | 00 00 01 | 22 14 79 0B 00 00 02 26 2A
46 1 | box of a type that isn't there | 00 00 01 | 22 14 8C 07 00 00 01 26 2A
46 1 | unbox of a type that isn't there | 00 00 01 | 22 14 79 07 00 00 01 26 2A
46 0 | before the stack | 00 00 01 | 1E 8C 03 00 00 02 26 2A
";

#[test]
fn elements_named(rt: HostRuntime) -> Result<(), Fail> {
    methods_are_told(&rt, ELEMENTS_NAMED)
}
