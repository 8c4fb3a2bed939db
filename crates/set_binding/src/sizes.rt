//! How many assemblies a set has.

ghost use Rattle.std.specs.Prelude.{◌≡◌, ◌<◌, ◌^◌, length};
ghost use Rattle.set_names.specs.Names.{seen_all};

use set_names::Names;

/// How many assemblies a set has.
pub fn assembly_count(names: &Names<'_, '_>) -> u32
    requires { length names.now < 2 ^ 32 }
    ensures { result ≡ length (seen_all names.now) }
{
    names.count() as u32
}
