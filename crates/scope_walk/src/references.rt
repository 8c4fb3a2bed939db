//! Assemblies whose references to types are resolved.

ghost use Rattle.std.specs.Prelude.{◌≡◌, List};
ghost use Rattle.std.specs.Option.{option_map};
ghost use Rattle.assemblies.specs.Rows.{Assembly};
ghost use Rattle.member_keys.specs.Seen.{class_seen};
ghost use Rattle.scope_walk.specs.Scopes.{references_in, parent_of, root_of, inner_of};

use member_keys::ClassId;

/// Assemblies with references to types. Rows and assemblies count from 0.
pub trait References {
    /// The assemblies' rows.
    ghost rows: { Self → List Assembly };

    /// How many references an assembly has.
    fn count(&self, file: u32) -> u32
        ensures { result ≡ references_in (rows self.now) file };

    /// The reference that a reference is nested in, if it is.
    fn outer(&self, file: u32, n: u32) -> Option<u32>
        ensures { result ≡ parent_of (rows self.now) file n };

    /// The type that a reference names where it isn't nested.
    fn find_alone(&self, file: u32, n: u32) -> Option<ClassId>
        ensures { option_map class_seen result ≡ root_of (rows self.now) file n };

    /// The type that a reference names inside another type.
    fn find_inside(&self, file: u32, outer: ClassId, n: u32) -> Option<ClassId>
        ensures { option_map class_seen result ≡ inner_of (rows self.now) file (class_seen outer) n };
}
