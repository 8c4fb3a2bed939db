//! Rule 31: slots and bodies (ECMA-335 II.12.2, II.22.37).

use crate::told::types_are_told;
use std::test::Fail;

/// The types that a case adds begin with row 13, and its methods with row 27.
const SLOTS: &str = "
31 0: an abstract slot: 13: type | 00100001 | 02000005 | A
-: its body: 13: type | 00100001 | 02000005 | A; method | 00C6 | | Turn | 20 00 08 | 0A 16 2A
-: an abstract class is passed over: 13: type | 00100081 | 02000005 | A
-: an abstract class with a slot of its own: 13: type | 00100081 | 01000001 | A; method | 05C6 | | Turn | 20 00 08
31 0: an abstract slot of a class above: 14: type | 00100081 | 02000005 | A; type | 00100001 | 0200000D | B
-: the body in the class: 14: type | 00100081 | 02000005 | A; type | 00100001 | 0200000D | B; method | 00C6 | | Turn | 20 00 08 | 0A 16 2A
-: the body in the class above: 14: type | 00100081 | 02000005 | A; method | 00C6 | | Turn | 20 00 08 | 0A 16 2A; type | 00100001 | 0200000D | B
31 0: a body made abstract again: 14: type | 00100081 | 02000004 | A; method | 04C6 | | Turn | 20 00 08; type | 00100001 | 0200000D | B
31 0: a method that hides the slot: 13: type | 00100001 | 02000005 | A; method | 01C6 | | Turn | 20 00 08 | 0A 16 2A
31 0: a body behind a method that hides the slot: 14: type | 00100081 | 02000005 | A; method | 01C6 | | Turn | 20 00 08 | 0A 16 2A; type | 00100001 | 0200000D | B; method | 00C6 | | Turn | 20 00 08 | 0A 16 2A
31 0: a method that isn't virtual: 13: type | 00100001 | 02000005 | A; method | 0086 | | Turn | 20 00 08 | 0A 16 2A
31 0: a body of another result: 13: type | 00100001 | 02000005 | A; method | 00C6 | | Turn | 20 00 09 | 0A 16 2A
31 0: a body of another name: 13: type | 00100001 | 02000005 | A; method | 00C6 | | Turned | 20 00 08 | 0A 16 2A
31 0: ToString made abstract: 14: type | 00100081 | 01000001 | A; method | 04C6 | | ToString | 20 00 0E; type | 00100001 | 0200000D | B
31 0: an interface's method: 13: type | 00100001 | 01000001 | A; interface | 0200000D | 02000006
-: its body in the class: 13: type | 00100001 | 01000001 | A; method | 01C6 | | Area | 20 00 08 | 0A 16 2A; interface | 0200000D | 02000006
31 0: a body that isn't virtual: 13: type | 00100001 | 01000001 | A; method | 0086 | | Area | 20 00 08 | 0A 16 2A; interface | 0200000D | 02000006
31 0: a static body: 13: type | 00100001 | 01000001 | A; method | 0096 | | Area | 00 00 08 | 0A 16 2A; interface | 0200000D | 02000006
31 0: a body of another signature: 13: type | 00100001 | 01000001 | A; method | 01C6 | | Area | 20 01 08 08 | 0A 16 2A; interface | 0200000D | 02000006
31 0: a library interface's method: 13: type | 00100001 | 01000001 | A; interface | 0200000D | 01000009
-: its body: 13: type | 00100001 | 01000001 | A; method | 01C6 | | Dispose | 20 00 01 | 06 2A; interface | 0200000D | 01000009
-: an abstract class with an interface: 13: type | 00100081 | 01000001 | A; interface | 0200000D | 02000006
31 0: an interface of a superclass: 14: type | 00100081 | 01000001 | A; type | 00100001 | 0200000D | B; interface | 0200000D | 02000006
-: a body for an interface of a superclass: 14: type | 00100081 | 01000001 | A; type | 00100001 | 0200000D | B; method | 01C6 | | Area | 20 00 08 | 0A 16 2A; interface | 0200000D | 02000006
-: a body inherited from a superclass: 14: type | 00100001 | 01000001 | A; method | 01C6 | | Area | 20 00 08 | 0A 16 2A; type | 00100001 | 0200000D | B; interface | 0200000E | 02000006
31 0: an abstract body for an interface: 14: type | 00100081 | 01000001 | A; method | 05C6 | | Area | 20 00 08; type | 00100001 | 0200000D | B; interface | 0200000D | 02000006
31 0: an interface of an interface: 14: type | 00A1 | | A; type | 00100001 | 01000001 | B; interface | 0200000D | 02000006; interface | 0200000E | 0200000D
-: a body for an interface of an interface: 14: type | 00A1 | | A; type | 00100001 | 01000001 | B; method | 01C6 | | Area | 20 00 08 | 0A 16 2A; interface | 0200000D | 02000006; interface | 0200000E | 0200000D
-: an interface is passed over: 13: type | 00A1 | | A; method | 05C6 | | Turn | 20 00 08; interface | 0200000D | 02000006
-: an interface's static method is no slot: 14: type | 00A1 | | A; method | 0096 | | Turn | 00 00 08 | 0A 16 2A; type | 00100001 | 01000001 | B; interface | 0200000E | 0200000D
31 0: an enum with an interface: 13: type | 0101 | 01000003 | A; field | 0606 | | value__ | 06 08; interface | 0200000D | 02000006
-: an enum with an interface and a body: 13: type | 0101 | 01000003 | A; field | 0606 | | value__ | 06 08; method | 01C6 | | Area | 20 00 08 | 0A 16 2A; interface | 0200000D | 02000006
31 0: an abstract enum isn't passed over: 13: type | 0181 | 01000003 | A; field | 0606 | | value__ | 06 08; interface | 0200000D | 02000006
-: an abstract enum: 13: type | 0181 | 01000003 | A; field | 0606 | | value__ | 06 08
31 0: an abstract enum's abstract ToString: 13: type | 0181 | 01000003 | A; field | 0606 | | value__ | 06 08; method | 04C6 | | ToString | 20 00 0E
31 0: a class in front of the one above that lacks the body: 13: type | 00100001 | 0200000E | B; type | 00100001 | 02000005 | A
31 0: behind a class that has what the one above lacks: 14: type | 00100001 | 0200000E | B; method | 00C6 | | Turn | 20 00 08 | 0A 16 2A; type | 00100001 | 02000005 | A
31 0: the first of two classes: 13: type | 00100001 | 02000005 | A; type | 00100001 | 02000005 | B
31 0: before a method's code: 14: type | 00100001 | 01000001 | A; method | 0096 | | Early | 00 00 01 | 0A 26 2A; type | 00100001 | 02000005 | B
";

#[test]
fn slots_are_told(rt: HostRuntime) -> Result<(), Fail> {
    types_are_told(&rt, SLOTS)
}
