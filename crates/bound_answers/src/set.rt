//! A bound set of images.

ghost use Rattle.std.specs.Prelude.{◌≡◌, slice_get};
ghost use Rattle.std.specs.Option.{option_copied, option_map};
ghost use Rattle.board_model.specs.Bound.{bound_classes, named};
ghost use Rattle.class_table.specs.Seen.{classes_seen};
ghost use Rattle.member_keys.specs.Seen.{class_seen};
ghost use Rattle.tiny_rows.specs.Rows.{rows_seen};
ghost use Rattle.set_names.specs.Names.{seen_all};
ghost use Rattle.set_binding.specs.Columns.{named_by};

use member_keys::ClassId;
use msspot_read::Image;
use set_binding::{Bindings, ReferenceTable};
use set_names::Names;
use std::marker::Model;
use tiny_types::BoundTypes;

/// A set of images that is bound: its names, its types and what its references name. Contracts see the images.
#[derive(Drop)]
pub struct BoundSet<'s, 'w, 't, 'a> {
    names: &'s Names<'w, 'a>,
    types: &'s BoundTypes<'t, 'a>,
    bindings: &'s Bindings,
}

impl<'s, 'w, 't, 'a> Model for BoundSet<'s, 'w, 't, 'a> {
    ghost use Rattle.std.specs.Prelude.{List};
    ghost use Rattle.image_bytes.specs.Layout as layout;

    ghost Value = { List layout.Image };

    ghost use Rattle.bound_answers.specs.Inside.{IsBound};

    ghost view = { λ s. s.names.now };

    ghost invariant = { IsBound };
}

impl<'s, 'w, 't, 'a> BoundSet<'s, 'w, 't, 'a> {
    /// The set of the names, by its types and by what its references name.
    pub fn new(
        names: &'s Names<'w, 'a>,
        types: &'s BoundTypes<'t, 'a>,
        bindings: &'s Bindings,
    ) -> BoundSet<'s, 'w, 't, 'a>
        requires types { classes_seen types.now ≡ bound_classes (seen_all names.now) }
        requires bound { named_by bindings.now.files.items ≡ named (seen_all names.now) }
        ensures { result ≡ names.now }
    {
        BoundSet {
            names,
            types,
            bindings,
        }
    }

    /// The types of the set, of which casts, calls of methods and numbers of fields are asked.
    pub fn types(&self) -> &'s BoundTypes<'t, 'a>
        ensures { classes_seen result.now ≡ bound_classes (seen_all self.now) }
    {
        self.types
    }

    /// The names of the set, with its images.
    pub fn names(&self) -> &'s Names<'w, 'a>
        ensures { result.now ≡ self.now }
    {
        self.names
    }

    /// What the references of the set's images name.
    pub fn bindings(&self) -> &'s Bindings
        ensures { named_by result.now.files.items ≡ named (seen_all self.now) }
    {
        self.bindings
    }

    /// The image of an assembly.
    pub(crate) fn image(&self, file: u16) -> Option<&'w Image<'a>>
        ensures { option_map rows_seen (option_copied result) ≡ slice_get (seen_all self.now) file }
    {
        self.names.image(u32::from(file))
    }

    /// The type that a row of an image's references to types names; `None` where there is no such row.
    pub(crate) fn referenced(&self, file: u16, row: u16) -> Option<ClassId>
        ensures { option_map class_seen result ≡ named (seen_all self.now) file 1 row }
    {
        let file = u32::from(file);
        self.bindings
            .resolved(file, ReferenceTable::Types, u32::from(row))
    }
}
