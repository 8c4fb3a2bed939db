//! A bound set.

ghost use Rattle.std.specs.Prelude.{◌≡◌, ◌<◌, ◌^◌, None, IfErr, IfOk, length};
ghost use Rattle.std.specs.Option.{option_map};
ghost use Rattle.board_model.specs.Bound.{named, first_lacking, first_circle};
ghost use Rattle.member_keys.specs.Seen.{class_seen};
ghost use Rattle.set_names.specs.Names.{seen_all};
ghost use Rattle.set_binding.specs.Tables.{number_of};
ghost use Rattle.set_binding.specs.Columns.{named_by};
ghost use Rattle.set_binding.specs.Refused.{IsRefused};

use crate::circle::first_circle;
use crate::file::bind_files;
use crate::lacking::{LackingRow, first_lacking};
use crate::tables::{FileBindings, ReferenceTable};
use member_keys::ClassId;
use plain_types::fault::NoMemory;
use set_names::Names;
use set_table::read_table;
use std::alloc::Global;

/// Why a set isn't bound.
#[derive(Debug, Drop)]
pub enum BindRefusal {
    /// The first reference that names nothing, by assembly, table and row.
    Unresolved(LackingRow),
    /// Each reference names something, but the types go in a circle: of superclasses, of interfaces or of enclosing types.
    /// The assembly of the first one.
    Circle { assembly: u32 },
    /// The host has no memory left.
    NoMemory,
}

impl From<NoMemory> for BindRefusal {
    ghost use Rattle.std.specs.Prelude.{◌≡◌};
    ghost use Rattle.set_binding.specs.declared.bindings.BindRefusal.TheVariants as refusals;

    ghost from_gives = { λ _ e. e ≡ refusals.NoMemory };

    fn from(_error: NoMemory) -> BindRefusal {
        BindRefusal::NoMemory
    }
}

/// What the references of a set's images name, image by image.
#[derive(Drop)]
pub struct Bindings {
    pub files: Vec<FileBindings>,
}

impl Bindings {
    /// What a row of an image's references names, in constant time; `None` where there is no such row. An assembly is its
    /// row 0.
    pub fn resolved(&self, assembly: u32, table: ReferenceTable, row: u32) -> Option<ClassId>
        ensures { option_map class_seen result ≡ named_by self.now.files.items assembly (number_of table) row }
    {
        match self.files.get(assembly as usize) {
            Some(bound) => bound.resolved(table, row),
            None => None,
        }
    }
}

/// Binds the references of a set of images. The set is refused by its first reference that names nothing, or else by its
/// first circle of types.
pub fn bind(alloc: Global, names: &Names<'_, '_>) -> Result<Bindings, BindRefusal>
    requires { length names.now < 2 ^ 32 }
    ensures bound { IfOk result (λ bindings. named_by bindings.files.items ≡ named (seen_all names.now)) }
    ensures whole { IfOk result (λ bindings. (first_lacking (seen_all names.now) ≡ None) × (first_circle (seen_all names.now) ≡ None)) }
    ensures refused { IfErr result (IsRefused (seen_all names.now)) }
{
    let table = read_table(alloc, names)?;
    let files = bind_files(alloc, names, &table)?;
    if let Some(row) = first_lacking(names, &files) {
        return Err(BindRefusal::Unresolved(row));
    }
    if let Some(assembly) = first_circle(alloc, names, &table)? {
        return Err(BindRefusal::Circle { assembly });
    }
    Ok(Bindings { files })
}
