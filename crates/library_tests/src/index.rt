//! The types of one file by their names (ECMA-335 II.22.37).

ghost use Rattle.std.specs.Prelude.{◌≡◌, ◌<◌, IfOk, None, length};
ghost use Rattle.std.specs.Option.{option_map};
ghost use Rattle.assemblies.specs.Rows.{Nowhere};
ghost use Rattle.assemblies.specs.Binding.{type_in};
ghost use Rattle.world_rows.specs.World.{rows_alone};
ghost use Rattle.member_keys.specs.Seen.{class_seen};
ghost use Rattle.library_tests.specs.Index.{IsIndexOf, IsIndex};

use member_keys::ClassId;
use plain_types::fault::NoMemory;
use std::alloc::Global;
use std::collections::BTreeMap;
use type_names::{NameKey, TypeNames, type_places};

/// The types of a file, by their names.
#[derive(Drop)]
pub struct TypeIndex<'w, 'a> {
    pub names: &'w TypeNames<'a>,
    pub file: u16,
    pub places: BTreeMap<NameKey<'a>, u32>,
}

/// The types of a file, by their names.
pub fn read_index<'w, 'a>(
    alloc: Global,
    names: &'w TypeNames<'a>,
    file: u16,
) -> Result<TypeIndex<'w, 'a>, NoMemory>
    requires { file < length names.now }
    ensures { IfOk result (IsIndexOf names.now file) }
{
    let places = type_places(alloc, names.tables(file))?;
    Ok(TypeIndex {
        names,
        file,
        places,
    })
}

/// The first type of the file that has a namespace and a name and is nested in none.
pub fn find_type<'a>(
    index: &TypeIndex<'_, 'a>,
    namespace: &'a str,
    name: &'a str,
) -> Option<ClassId>
    requires { IsIndex index.now }
    ensures { option_map class_seen result ≡ type_in (rows_alone index.now.names.now) index.now.file None (record { scope = Nowhere; namespace = namespace.now; name = name.now }) }
{
    let key = NameKey {
        enclosing: None,
        namespace,
        name,
    };
    let row = *index.places.get(&key)?;
    Some(ClassId {
        file: u32::from(index.file),
        row,
    })
}
