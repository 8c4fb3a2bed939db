//! The two assemblies of the base library, and the names of the natives.

use crate::objects::constructor;
use crate::op::*;
use crate::shape::*;

/// The version of both assemblies.
pub const VERSION: [u16; 4] = [4, 3, 1, 0];

/// The name of the first assembly.
pub const MSCORLIB_NAME: &str = "mscorlib";

/// The name of the second assembly.
pub const NATIVE_NAME: &str = "Microsoft.SPOT.Native";

/// What the second assembly is made of.
#[rattlefmt::skip]
pub const NATIVE: &[Item] = &[
    assembly!("mscorlib"),
    class_of!("mscorlib", "System", "Object"),
    method_of!("Object..ctor()", "Object", ".ctor", instance!(Void)),
    class!("Microsoft.SPOT", "Debug", CLASS, "Object"),
    constructor!("Debug..ctor()", "Object..ctor()"),
    method!("Debug.Print(string)", STATIC, "Print", fixed!(Void, String), native!(17)),
];

/// The natives, by type and method, of the numbers 1 to 17.
pub const NATIVES: [&str; 17] = [
    "Object.ToString",
    "Enum.Equals",
    "Enum.ToString",
    "Array.get_Length",
    "Array.Copy",
    "String.get_Length",
    "String.get_Chars",
    "String.Concat",
    "String.Substring",
    "String.Equals",
    "String.Compare",
    "String.FromChars",
    "String.FromChar",
    "Number.Signed",
    "Number.Unsigned",
    "RuntimeHelpers.InitializeArray",
    "Debug.Print",
];
