//! The stage: an assembly to which each case adds a class with one method, or types. Its lines are rows, as `assembly_rows::lines` reads them.
//!
//! Types, from token 02000002 on: Program; Base with fields and methods of each kind; Derived, its subclass; Abstract with an abstract
//! Turn; the interface Shape with Area; Square and Disc, which implement it; the enums Color, of an int, and Wide, of a long; the data
//! type Data; and Sorrow, an exception. Some references name nothing: the type 01000007, and the members 0A000009, 0A00000A, 0A00000D,
//! 0A00000E, 0A000011 and 0A000013.

/// The rows that all cases share.
pub const STAGE: &str = "
assembly | | | mscorlib
reference | 23000001 | | System Object
reference | 23000001 | | System ValueType
reference | 23000001 | | System Enum
reference | 23000001 | | System String
reference | 23000001 | | System Exception
reference | 23000001 | | System Int32
reference | 23000001 | | System Missing
reference | 23000001 | | System Array
reference | 23000001 | | System IDisposable
reference | 23000001 | | System RuntimeFieldHandle
reference | 23000001 | | System.Runtime.CompilerServices RuntimeHelpers
reference | 23000001 | | System OverflowException
reference | 23000001 | | System Int64
type | 00100001 | 01000001 | Program
method | 0096 | | Main | 00 00 01 | 06 2A
type | 00100001 | 01000001 | Base
field | 0006 | | count | 06 08
field | 0006 | | total | 06 0A
field | 0006 | | link | 06 12 0C
field | 0006 | | words | 06 1D 1C
field | 0006 | | small | 06 04
field | 0016 | | shared | 06 08
field | 0016 | | long | 06 0A
field | 0016 | | kept | 06 1C
field | 0056 | | literal | 06 08
field | 0116 | | data | 06 11 2C | 01 02 03 04
field | 0116 | | datum | 06 08 | 05 06 07 08
method | 1886 | | .ctor | 20 00 01 | 06 2A
method | 1886 | | .ctor | 20 01 01 08 | 06 2A
method | 0086 | | Plain | 20 00 01 | 06 2A
method | 01C6 | | Turn | 20 00 08 | 0A 16 2A
method | 0096 | | Sum | 00 02 08 08 0A | 0A 02 2A
method | 0096 | | Take | 00 01 12 0C 12 0C | 0A 02 2A
method | 0096 | | Words | 00 01 01 1D 1C | 06 2A
method | 0096 | | Point | 00 01 01 10 08 | 06 2A
method | 0096 | | Long | 00 00 0A | 2A 21 00 00 00 00 00 00 00 00 2A
method | 0096 | | Bytes | 00 01 01 10 05 | 06 2A
method | 0086 | | With | 20 01 01 08 | 06 2A
type | 00100001 | 02000003 | Derived
method | 1886 | | .ctor | 20 00 01 | 06 2A
method | 00C6 | | Turn | 20 00 08 | 0A 17 2A
type | 00100081 | 01000001 | Abstract
method | 1886 | | .ctor | 20 00 01 | 06 2A
method | 05C6 | | Turn | 20 00 08
type | 00A1 | | Shape
method | 05C6 | | Area | 20 00 08
method | 0096 | | Unit | 00 00 08 | 0A 17 2A
type | 00100001 | 01000001 | Square
method | 1886 | | .ctor | 20 00 01 | 06 2A
method | 01C6 | | Area | 20 00 08 | 0A 18 2A
type | 00100001 | 01000001 | Disc
method | 1886 | | .ctor | 20 00 01 | 06 2A
method | 01C6 | | Area | 20 00 08 | 0A 18 2A
type | 0101 | 01000003 | Color
field | 0606 | | value__ | 06 08
field | 8056 | | Red | 06 11 24
method | 0096 | | Of | 00 00 11 24 | 0A 16 2A
method | 0086 | | Same | 20 00 08 | 0A 17 2A
type | 0101 | 01000003 | Wide
field | 0606 | | value__ | 06 0A
type | 0101 | 01000002 | Data
method | 0086 | | Look | 20 00 01 | 0E 02 26 2A
layout | 0004 | 0200000B
type | 00100001 | 01000005 | Sorrow
method | 1886 | | .ctor | 20 00 01 | 06 2A
interface | 02000007 | 02000006
interface | 02000008 | 02000006
member | 01000001 | | .ctor | 20 00 01
member | 01000001 | | ToString | 20 00 0E
member | 01000004 | | Concat | 00 02 0E 0E 0E
member | 01000004 | | get_Length | 20 00 08
member | 01000004 | | .ctor | 20 00 01
member | 01000006 | | ToString | 20 00 0E
member | 0100000B | | InitializeArray | 00 02 01 12 21 11 29
member | 01000009 | | Dispose | 20 00 01
member | 01000001 | | Nothing | 20 00 01
member | 01000007 | | Lost | 20 00 01
member | 02000004 | | Plain | 20 00 01
member | 02000004 | | count | 06 08
member | 02000003 | | nothing | 06 08
member | 02000003 | | count | 06 0A
member | 01000005 | | .ctor | 20 00 01
member | 01000008 | | get_Length | 20 00 08
member | 02000006 | | ToString | 20 00 0E
member | 01000008 | | .ctor | 20 00 01
spec | | | | 1D 08
spec | | | | 1D 1C
spec | | | | 1D 0E
spec | | | | 1D 12 0C
spec | | | | 1D 12 10
spec | | | | 1D 0A
spec | | | | 1D 1D 08
spec | | | | 1D 11 24
spec | | | | 1D 12 18
spec | | | | 1D 09
spec | | | | 1D 02
spec | | | | 1D 05
spec | | | | 1D 03
spec | | | | 1D 06
spec | | | | 1D 07
spec | | | | 1D 04
spec | | | | 1D 0B
spec | | | | 1D 12 1C
member | 1B000001 | | ToString | 20 00 0E
locals | | | | 07 12 08 0A 0E 1C 12 0C 12 10 12 18 1D 08 1D 1C 1D 12 0C 02 11 24 03 11 28 12 1C 05 1D 12 10 1D 0E
locals | | | | 07 01 08
locals | | | | 07 00
";
