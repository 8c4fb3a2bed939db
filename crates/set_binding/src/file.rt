//! What all references of each image name.

ghost use Rattle.std.specs.Prelude.{◌≡◌, ℕ, ◌<◌, ◌^◌, IfOk, List, Some, length, slice_get};
ghost use Rattle.std.specs.Option.{option_map};
ghost use Rattle.machine.specs.Throw.{on_some};
ghost use Rattle.assemblies.specs.Rows.{Assembly};
ghost use Rattle.assemblies.specs.Binding.{id_at};
ghost use Rattle.member_keys.specs.Seen.{class_seen};
ghost use Rattle.set_names.specs.Resolved.{AreTypes};
ghost use Rattle.class_table.specs.Seen.{classes_seen};
ghost use Rattle.board_model.specs.Bound.{bound_classes};
ghost use Rattle.set_names.specs.Names.{seen_all};
ghost use Rattle.set_table.specs.Subject.{IsSubject};
ghost use Rattle.set_binding.specs.declared.tables.FileBindings.{FileBindings};
ghost use Rattle.set_binding.specs.Columns.{AreNamed, IsBoundFile};
ghost use Rattle.set_binding.specs.Searched.{AreMembers, AreBoundMembers};

use crate::members::{resolve_fields, resolve_methods};
use crate::tables::FileBindings;
use class_table::ClassTable;
use member_keys::ClassId;
use member_search::{MemberIndex, Sort};
use msspot_read::Image;
use plain_types::fault::NoMemory;
use set_names::{Names, resolve_assemblies, resolve_types};
use set_signatures::Tokens;
use set_table::Subject;
use std::alloc::Global;
use tiny_rows::{assembly_ref_count, type_count, type_ref_count};

/// Where the classes of a set have their fields and their methods.
#[derive(Drop)]
pub struct Members<'t, 'a> {
    pub fields: MemberIndex<'t, 'a>,
    pub methods: MemberIndex<'t, 'a>,
}

/// What one image's references to members name.
#[derive(Drop)]
pub struct BoundMembers {
    pub fields: Vec<Option<ClassId>>,
    pub methods: Vec<Option<ClassId>>,
}

/// An assembly as its row 0.
fn assembly_id(found: Option<u32>) -> Option<ClassId>
    ensures { option_map class_seen result ≡ option_map (λ f. id_at f 0) found }
{
    match found {
        Some(file) => Some(ClassId { file, row: 0 }),
        None => None,
    }
}

/// The assembly of a row, as its row 0.
fn assembly_at(found: &[Option<u32>], n: u16) -> Option<ClassId>
    ensures { option_map class_seen result ≡ option_map (λ f. id_at f 0) (on_some (slice_get found.now n) (λ o. o)) }
{
    match found.get(usize::from(n)) {
        Some(assembly) => assembly_id(*assembly),
        None => None,
    }
}

/// The assemblies that the rows of one image refer to.
fn bind_assemblies(
    alloc: Global,
    names: &Names<'_, '_>,
    image: &Image<'_>,
    file: u32,
) -> Result<Vec<Option<ClassId>>, NoMemory>
    requires { slice_get names.now file ≡ Some image.now }
    ensures { IfOk result (λ found. AreNamed (seen_all names.now) file 0 found.items) }
{
    let assemblies = resolve_assemblies(alloc, names, file)?;
    let mut found = Vec::new(alloc);
    for n in 0..assembly_ref_count(image) {
        found.push(assembly_at(&assemblies, n))?;
    }
    Ok(found)
}

/// The types that the rows of one image refer to.
fn bind_types(
    alloc: Global,
    names: &Names<'_, '_>,
    image: &Image<'_>,
    file: u32,
) -> Result<Vec<Option<ClassId>>, NoMemory>
    requires { slice_get names.now file ≡ Some image.now }
    ensures types { IfOk result (λ found. AreTypes (seen_all names.now) file found.items) }
    ensures few { IfOk result (λ found. length found.items < 2 ^ 32) }
{
    let types = resolve_types(alloc, names, file)?;
    let _few = type_ref_count(image);
    Ok(types)
}

/// The members that the rows of one image refer to.
fn bind_members<'a>(
    alloc: Global,
    subject: &Subject<'_, '_, 'a>,
    members: &Members<'_, 'a>,
) -> Result<BoundMembers, NoMemory>
    requires subject { IsSubject subject.now }
    requires members { AreMembers (seen_all subject.now.names.now) members.now }
    ensures { IfOk result (AreBoundMembers (seen_all subject.now.names.now) subject.now.tokens.file) }
{
    let fields = resolve_fields(alloc, subject, &members.fields)?;
    let methods = resolve_methods(alloc, subject, &members.methods)?;
    Ok(BoundMembers { fields, methods })
}

/// What the references of the image of a number name.
fn bind_file<'a>(
    alloc: Global,
    names: &Names<'_, 'a>,
    members: &Members<'_, 'a>,
    file: u32,
) -> Result<FileBindings, NoMemory>
    requires file { file < length names.now }
    requires members { AreMembers (seen_all names.now) members.now }
    ensures { IfOk result (IsBoundFile (seen_all names.now) file) }
{
    let Some(image) = names.image(file) else {
        unreachable!();
    };
    image.has_rows();
    let assemblies = bind_assemblies(alloc, names, image, file)?;
    let types = bind_types(alloc, names, image, file)?;
    let tokens = Tokens {
        file,
        types: u32::from(type_count(image)),
        references: &types,
    };
    let subject = Subject {
        names,
        image,
        tokens,
    };
    let bound = bind_members(alloc, &subject, members)?;
    Ok(FileBindings {
        assemblies,
        types,
        fields: bound.fields,
        methods: bound.methods,
    })
}

/// Where the classes of a table have their members.
fn read_members<'t, 'a>(
    alloc: Global,
    table: &'t ClassTable<'a>,
) -> Result<Members<'t, 'a>, NoMemory>
    ensures { IfOk result (λ members. (ps : List Assembly) → classes_seen table.now ≡ bound_classes ps → AreMembers ps members) }
{
    let fields = MemberIndex::new(alloc, table, Sort::Field)?;
    let methods = MemberIndex::new(alloc, table, Sort::Method)?;
    Ok(Members { fields, methods })
}

/// What the references of each image name, by the table of the set's classes.
pub fn bind_files<'a>(
    alloc: Global,
    names: &Names<'_, 'a>,
    table: &ClassTable<'a>,
) -> Result<Vec<FileBindings>, NoMemory>
    requires few { length names.now < 2 ^ 32 }
    requires table { classes_seen table.now ≡ bound_classes (seen_all names.now) }
    ensures count { IfOk result (λ files. length files.items ≡ length names.now) }
    ensures each { IfOk result (λ files. (file : ℕ) (b : FileBindings) → slice_get files.items file ≡ Some b → IsBoundFile (seen_all names.now) file b) }
{
    let members = read_members(alloc, table)?;
    let mut files = Vec::new(alloc);
    for file in 0..names.count() as u32 {
        files.push(bind_file(alloc, names, &members, file)?)?;
    }
    Ok(files)
}
