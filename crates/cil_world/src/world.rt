//! The world of assemblies.

ghost use Rattle.std.specs.Prelude.{◌≡◌, ◌<◌, ◌≤◌, Some, length, map, slice_get};
ghost use Rattle.std.specs.Option.{option_map};
ghost use Rattle.std.specs.Result.{result_ok};
ghost use Rattle.world_rows.specs.Read.{TypesStand};
ghost use Rattle.world_rows.specs.World.{ecma_sources};
ghost use Rattle.type_names.specs.Opening.{files_opened, Opens};
ghost use Rattle.type_names.specs.Resolved.{type_id, type_resolved};
ghost use Rattle.class_table.specs.Seen.{classes_seen};
ghost use Rattle.class_table.specs.Whole.{IsTable};
ghost use Rattle.member_references.specs.Meant.{AreReferences};
ghost use Rattle.member_references.specs.Resolved.{field_id, method_id, field_resolved, method_resolved};

use crate::table::read_table;
use cil_tables::Tables;
use class_table::ClassTable;
use ecma_types::id::{FieldId, MethodId, TypeId};
use member_references::{References, read_references};
use pe_reader::Pe;
use plain_types::fault::NoMemory;
use std::alloc::Global;
use std::marker::Model;
use type_names::{TypeNames, Unresolved, WorldRefusal};

/// Files that name one another, the first two of them the base library's, with what they say of classes. Contracts see
/// the list of their parts.
#[derive(Drop)]
pub struct World<'a> {
    names: TypeNames<'a>,
    classes: ClassTable<'a>,
    references: References,
}

impl<'a> Model for World<'a> {
    ghost use Rattle.std.specs.Prelude.{List};
    ghost use Rattle.file_tables.specs.File.{FilePart};

    ghost Value = { List FilePart };

    ghost use Rattle.cil_world.specs.Inside.{IsWorld};

    ghost view = { λ w. w.names };

    ghost invariant = { IsWorld };
}

impl<'a> World<'a> {
    /// The world of these files, of which the first two are taken as the base library's; or the first file that breaks
    /// one of the rules 1 to 13, with the first that it breaks and the file's number in its place.
    pub fn new(alloc: Global, files: &'a [Vec<u8>]) -> Result<World<'a>, WorldRefusal>
        requires base { 2 ≤ length files.now }
        requires few { length files.now ≤ 1002 }
        ensures { Opens (λ world. world) result (files_opened (map (λ bytes. bytes.items) files.now)) }
    {
        let names = match TypeNames::new(alloc, files) {
            Ok(names) => names,
            Err(refusal) => return Err(refusal),
        };
        let classes = match read_table(alloc, &names) {
            Ok(classes) => classes,
            Err(NoMemory) => return Err(WorldRefusal::NoMemory),
        };
        let references = match read_references(alloc, &names, &classes) {
            Ok(references) => references,
            Err(NoMemory) => return Err(WorldRefusal::NoMemory),
        };
        Ok(World {
            names,
            classes,
            references,
        })
    }

    /// How many files the world has: the two of the base library and any others. The rows of their types keep rule 12, so that no two
    /// types of a file list one field or one method (II.22.37).
    pub fn files(&self) -> u16
        ensures count { result ≡ length self.now }
        ensures base { 2 ≤ result }
        ensures stand { TypesStand self.now }
    {
        self.names.files()
    }

    /// The tables of a file.
    pub fn tables(&self, file: u16) -> &Tables<'a>
        requires { file < length self.now }
        ensures { option_map (λ p. p.metadata) (slice_get self.now file) ≡ Some result.now }
    {
        self.names.tables(file)
    }

    /// The PE part of a file.
    pub fn pe(&self, file: u16) -> &Pe<'a>
        requires { file < length self.now }
        ensures { option_map (λ p. p.pe) (slice_get self.now file) ≡ Some result.now }
    {
        self.names.pe(file)
    }

    /// What the files say of types and members, each token replaced by what it names (II.22.37, II.22.15, II.22.26).
    pub fn classes(&self) -> &ClassTable<'a>
        ensures classes { classes_seen result.now ≡ (ecma_sources self.now).classes }
        ensures rows { IsTable self.now result.now }
    {
        &self.classes
    }

    /// The files and what their references to types name.
    pub fn names(&self) -> &TypeNames<'a>
        ensures { result.now ≡ self.now }
    {
        &self.names
    }

    /// What the references of the files to fields and methods name (ECMA-335 II.22.25).
    pub fn references(&self) -> &References
        ensures { AreReferences self.now result.now }
    {
        &self.references
    }

    /// The class or interface that a TypeDef or TypeRef token of a file names (ECMA-335 II.22.37, II.22.38): a type of
    /// the file itself, or the first one of its name in the first assembly of the name and version that the reference
    /// says, or inside the type that encloses it. [`Unresolved`] exactly where there is none, and for other tokens.
    pub fn resolve_type(&self, file: u16, token: u32) -> Result<TypeId, Unresolved>
        requires { file < length self.now }
        ensures { result_ok result ≡ option_map type_id (type_resolved self.now file token) }
    {
        self.names.resolve_type(file, token)
    }

    /// The field that a Field or MemberRef token of a file names (ECMA-335 II.22.15, II.22.25): one of the file itself
    /// that a type has, or the first of the reference's name and type in the class that the reference names, or else in
    /// the nearest of its superclasses that has one. [`Unresolved`] exactly where there is none, where the reference is
    /// one of a method, and for other tokens.
    pub fn resolve_field(&self, file: u16, token: u32) -> Result<FieldId, Unresolved>
        requires { file < length self.now }
        ensures { result_ok result ≡ option_map field_id (field_resolved self.now file token) }
    {
        self.references
            .resolve_field(&self.names, &self.classes, file, token)
    }

    /// The method that a MethodDef or MemberRef token of a file names (ECMA-335 II.22.26, II.22.25): one of the file
    /// itself that a type has, or the first of the reference's name and signature in the class that the reference names,
    /// or else in the nearest of its superclasses that has one. [`Unresolved`] exactly where there is none, where the
    /// reference is one of a field, and for other tokens.
    pub fn resolve_method(&self, file: u16, token: u32) -> Result<MethodId, Unresolved>
        requires { file < length self.now }
        ensures { result_ok result ≡ option_map method_id (method_resolved self.now file token) }
    {
        self.references
            .resolve_method(&self.names, &self.classes, file, token)
    }
}
