//! What a type is as the type of a place (ECMA-335 II.13, II.14.3).

ghost use Rattle.std.specs.Prelude.{◌≡◌, IfOk};
ghost use Rattle.std.specs.Option.{option_map};
ghost use Rattle.classes.specs.Queries.{some_eq};
ghost use Rattle.world_rows.specs.Kinds.{element_of, kind_of, number_of, superclass_of};
ghost use Rattle.world_rows.specs.World.{rows_alone, size_of};
ghost use Rattle.member_keys.specs.Seen.{class_seen};
ghost use Rattle.class_table.specs.Seen.{kind_seen};

use crate::base::{Basic, find_basics, library_type};
use crate::library::find_library;
use class_table::TypeKind;
use member_keys::ClassId;
use plain_types::elem::Elem;
use plain_types::fault::NoMemory;
use std::alloc::Global;
use std::marker::Model;
use type_names::TypeNames;

/// By what the kinds of a world's types are told. Contracts see the list of the files' parts.
#[derive(Drop)]
pub struct Kinds<'w, 'a> {
    names: &'w TypeNames<'a>,
    basics: Vec<Basic>,
    enumeration: Option<ClassId>,
    value_type: Option<ClassId>,
}

impl<'w, 'a> Model for Kinds<'w, 'a> {
    ghost use Rattle.std.specs.Prelude.{List};
    ghost use Rattle.file_tables.specs.File.{FilePart};

    ghost Value = { List FilePart };

    ghost use Rattle.class_reading.specs.Inside.{IsKinds};

    ghost view = { λ k. k.names.now };

    ghost invariant = { IsKinds };
}

/// Both are there, and the same class.
fn same(a: Option<ClassId>, b: Option<ClassId>) -> bool
    ensures { result ≡ some_eq (option_map class_seen a) (option_map class_seen b) }
{
    match (a, b) {
        (Some(a), Some(b)) => a.file == b.file && a.row == b.row,
        _ => false,
    }
}

impl<'w, 'a> Kinds<'w, 'a> {
    /// The base library's types, looked up.
    pub fn new(alloc: Global, names: &'w TypeNames<'a>) -> Result<Kinds<'w, 'a>, NoMemory>
        ensures { IfOk result (λ kinds. kinds ≡ names.now) }
    {
        let library = find_library(names);
        let basics = find_basics(alloc, names, library)?;
        Ok(Kinds {
            names,
            basics,
            enumeration: library_type(names, library, "Enum"),
            value_type: library_type(names, library, "ValueType"),
        })
    }

    /// The names of the files.
    pub fn names(&self) -> &'w TypeNames<'a>
        ensures { result.now ≡ self.now }
    {
        self.names
    }

    /// The element that has the class.
    fn find_element(&self, class: ClassId) -> Option<Elem>
        ensures { result ≡ element_of (rows_alone self.now) (class_seen class) }
    {
        for basic in &self.basics {
            if same(Some(class), basic.class) {
                return Some(basic.elem);
            }
        }
        None
    }

    /// The kind of a class, of which the superclass is known, and the number where it is an enum.
    #[tactic(auto, unfolding(world_rows::specs::Kinds::kind_of))]
    pub fn kind(
        &self,
        class: ClassId,
        superclass: Option<ClassId>,
        number: Option<Elem>,
    ) -> TypeKind
        requires superclass { option_map class_seen superclass ≡ superclass_of (size_of (rows_alone self.now)) (rows_alone self.now) (class_seen class) }
        requires number { number ≡ number_of (rows_alone self.now) (class_seen class) }
        ensures { kind_seen result ≡ kind_of (size_of (rows_alone self.now)) (rows_alone self.now) (class_seen class) }
    {
        if let Some(elem) = self.find_element(class) {
            return TypeKind::Builtin(elem);
        }
        if same(superclass, self.enumeration) {
            return TypeKind::Enumeration(number.unwrap_or(Elem::Void));
        }
        if same(superclass, self.value_type) && !same(Some(class), self.enumeration) {
            return TypeKind::OtherValue;
        }
        TypeKind::Reference
    }
}
