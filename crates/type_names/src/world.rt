//! The files of a world and the types that their tokens name.

ghost use Rattle.std.specs.Prelude.{◌≡◌, ℕ, ◌<◌, ◌≤◌, ◌^◌, IfOk, Some, length, map, slice_get};
ghost use Rattle.std.specs.Option.{option_map};
ghost use Rattle.std.specs.Result.{result_ok};
ghost use Rattle.assemblies.specs.Binding.{resolve_ref};
ghost use Rattle.world_rows.specs.World.{rows_alone, size_of};
ghost use Rattle.type_names.specs.Files.{parts_of};
ghost use Rattle.member_keys.specs.Seen.{class_seen};
ghost use Rattle.type_names.specs.Opening.{files_opened, Opens};
ghost use Rattle.type_names.specs.Resolved.{AreResolved, type_id, checked, class_of, class_coded, type_resolved};

use crate::file::File;
use crate::names::Names;
use crate::open::open_files;
use crate::refusal::{Unresolved, WorldRefusal};
use crate::token::{Token, from_zero, split, split_token};
use crate::walk::resolve_references;
use cil_tables::Tables;
use ecma_types::id::TypeId;
use file_tables::numbers::{TYPE_DEF, TYPE_REF};
use file_tables::schema::Coded;
use member_keys::ClassId;
use pe_reader::Pe;
use plain_types::fault::NoMemory;
use std::alloc::Global;
use std::marker::Model;

/// Files that name one another, the first two of them the base library's. Contracts see the list of their parts.
#[derive(Drop)]
pub struct TypeNames<'a> {
    files: Vec<File<'a>>,
    // For each file the type that each of its references to types names.
    references: Vec<Vec<Option<ClassId>>>,
}

impl<'a> Model for TypeNames<'a> {
    ghost use Rattle.std.specs.Prelude.{List};
    ghost use Rattle.file_tables.specs.File.{FilePart};
    ghost use Rattle.type_names.specs.Files.{parts_of};

    ghost Value = { List FilePart };

    ghost use Rattle.type_names.specs.Inside.{IsWorld};

    ghost view = { λ w. parts_of w.files.items };

    ghost invariant = { IsWorld };
}

/// For each file the type that each of its references names.
fn resolve_files(alloc: Global, files: &[File<'_>]) -> Result<Vec<Vec<Option<ClassId>>>, NoMemory>
    requires { length files.now < 2 ^ 16 }
    ensures size { IfOk result (λ all. length all.items ≡ length files.now) }
    ensures resolved { IfOk result (λ all. AreResolved (parts_of files.now) (map (λ types. types.items) all.items)) }
{
    let names = Names::new(alloc, files)?;
    let mut all = Vec::new(alloc);
    for n in 0..files.len() {
        all.push(resolve_references(alloc, &names, n as u32)?)?;
    }
    Ok(all)
}

impl<'a> TypeNames<'a> {
    /// The world of these files, of which the first two are taken as the base library's; or the first file that breaks
    /// one of the rules 1 to 13, with the first that it breaks and the file's number in its place.
    pub fn new(alloc: Global, files: &'a [Vec<u8>]) -> Result<TypeNames<'a>, WorldRefusal>
        requires base { 2 ≤ length files.now }
        requires few { length files.now ≤ 1002 }
        ensures { Opens (λ world. world) result (files_opened (map (λ bytes. bytes.items) files.now)) }
    {
        let files = match open_files(alloc, files) {
            Ok(files) => files,
            Err(refusal) => return Err(refusal),
        };
        let references = match resolve_files(alloc, &files) {
            Ok(references) => references,
            Err(NoMemory) => return Err(WorldRefusal::NoMemory),
        };
        Ok(TypeNames { files, references })
    }

    /// How many files the world has: the two of the base library and any others.
    pub fn files(&self) -> u16
        ensures count { result ≡ length self.now }
        ensures base { 2 ≤ result }
    {
        self.files.len() as u16
    }

    /// The tables of a file.
    pub fn tables(&self, file: u16) -> &Tables<'a>
        requires { file < length self.now }
        ensures { option_map (λ p. p.metadata) (slice_get self.now file) ≡ Some result.now }
    {
        &self.files[file as usize].metadata
    }

    /// The PE part of a file.
    pub fn pe(&self, file: u16) -> &Pe<'a>
        requires { file < length self.now }
        ensures { option_map (λ p. p.pe) (slice_get self.now file) ≡ Some result.now }
    {
        &self.files[file as usize].pe
    }

    /// The type of a class, if the world has it.
    fn find_id(&self, class: ClassId) -> Option<TypeId>
        ensures { result ≡ checked self.now (class_seen class) }
    {
        let file = self.files.get(class.file as usize)?;
        if class.row >= file.metadata.rows(TYPE_DEF) {
            return None;
        }
        Some(TypeId {
            file: class.file as u16,
            row: class.row + 1,
        })
    }

    /// The class that a row of a file's references names, if any.
    fn find_referenced(&self, file: u16, n: u32) -> Option<ClassId>
        requires { file < length self.now }
        ensures { option_map class_seen result ≡ resolve_ref (size_of (rows_alone self.now)) (rows_alone self.now) file n }
    {
        match self.references[file as usize].get(n as usize) {
            Some(class) => *class,
            None => None,
        }
    }

    /// The class that a token of a file names, if any.
    fn find_row(&self, file: u16, token: Token) -> Option<ClassId>
        requires { file < length self.now }
        ensures { option_map class_seen result ≡ class_of self.now file token.table token.row }
    {
        let tables = self.tables(file);
        if token.table == TYPE_DEF {
            let row = from_zero(tables.rows(TYPE_DEF), token.row);
            if row >= tables.rows(TYPE_DEF) {
                return None;
            }
            Some(ClassId {
                file: u32::from(file),
                row,
            })
        } else if token.table == TYPE_REF {
            self.find_referenced(file, from_zero(tables.rows(TYPE_REF), token.row))
        } else {
            None
        }
    }

    /// The class that a coded index of a column or a signature names (ECMA-335 II.24.2.6, II.23.2.8): a type of the
    /// file itself, or the one that a reference names. `None` where there is none, and for an array.
    pub fn find_class(&self, file: u16, coded: Coded, index: u32) -> Option<ClassId>
        requires { file < length self.now }
        ensures { option_map class_seen result ≡ class_coded self.now file coded index }
    {
        self.find_row(file, split(coded, index))
    }

    /// The class or interface that a TypeDef or TypeRef token of a file names (ECMA-335 II.22.37, II.22.38): a type of
    /// the file itself, or the first one of its name in the first assembly of the name and version that the reference
    /// says, or inside the type that encloses it. [`Unresolved`] exactly where there is none, and for other tokens.
    #[tactic(auto, using(crate::proofs::Resolving::named_is, crate::proofs::Resolving::class_there))]
    pub fn resolve_type(&self, file: u16, token: u32) -> Result<TypeId, Unresolved>
        requires { file < length self.now }
        ensures { result_ok result ≡ option_map type_id (type_resolved self.now file token) }
    {
        match self.find_row(file, split_token(token)) {
            Some(class) => self.find_id(class).ok_or(Unresolved),
            None => Err(Unresolved),
        }
    }
}
