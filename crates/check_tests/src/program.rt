//! A program to which the tests add rows.
//!
//! Its types, from the reference 01000001 on: Object, ValueType, Enum, String, one that isn't there, the interface IDisposable, Array,
//! RuntimeFieldHandle and Int32; from 02000001 on `<Module>` and Program. A reference that a case adds begins with 0100000A, a type with
//! 02000003. The reference to the base library is 23000001, and Main the method 06000001.

/// The class Program over the base library, with its Main.
pub const FRONT: &str = "
assembly | | | mscorlib
reference | 23000001 | | System Object
reference | 23000001 | | System ValueType
reference | 23000001 | | System Enum
reference | 23000001 | | System String
reference | 23000001 | | System Missing
reference | 23000001 | | System IDisposable
reference | 23000001 | | System Array
reference | 23000001 | | System RuntimeFieldHandle
reference | 23000001 | | System Int32
type | 100001 | 01000001 | Program
method | 96 | | Main | 00 00 01 | 06 2A
";

/// The token of Main.
pub const MAIN: u32 = 0x0600_0001;
