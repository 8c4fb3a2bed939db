//! The classes of a world as a table.

ghost use Rattle.std.specs.Prelude.{◌≡◌, ◌<◌, IfOk, length, map};
ghost use Rattle.member_reading.specs.Data.{AreTypes};
ghost use Rattle.member_reading.specs.Natives.{AreNatives};
ghost use Rattle.class_table.specs.Whole.{IsTable};
ghost use Rattle.cil_world.specs.Members.{IsMembers, AreMembers};

use crate::counts::count_types;
use class_reading::{find_library, read_classes};
use class_table::{ClassRow, ClassTable, FieldRow, FileRows, MethodRow};
use member_reading::{NativeMember, Types, read_fields, read_layouts, read_methods, read_natives};
use plain_types::fault::NoMemory;
use std::alloc::Global;
use type_names::TypeNames;

/// The fields and methods of a file.
#[derive(Drop)]
struct Members<'a> {
    fields: Vec<FieldRow<'a>>,
    methods: Vec<MethodRow<'a>>,
}

/// The fields and methods of a file.
fn read_file<'a>(
    alloc: Global,
    types: &Types<'_, 'a>,
    natives: &[NativeMember],
    file: u16,
) -> Result<Members<'a>, NoMemory>
    requires types { AreTypes types.now }
    requires natives { AreNatives types.now.names.now natives.now }
    requires file { file < length types.now.names.now }
    ensures { IfOk result (IsMembers types.now.names.now file) }
{
    Ok(Members {
        fields: read_fields(alloc, types, file)?,
        methods: read_methods(alloc, types, natives, file)?,
    })
}

/// For each file its fields and methods.
fn read_members<'a>(alloc: Global, types: &Types<'_, 'a>) -> Result<Vec<Members<'a>>, NoMemory>
    requires { AreTypes types.now }
    ensures count { IfOk result (λ all. length all.items ≡ length types.now.names.now) }
    ensures members { IfOk result (λ all. AreMembers types.now.names.now all.items) }
{
    let natives = read_natives(alloc, types)?;
    let mut all = Vec::new(alloc);
    for file in 0..types.names.files() {
        all.push(read_file(alloc, types, &natives, file)?)?;
    }
    Ok(all)
}

/// The classes of each file with its fields and methods.
fn join_files<'a>(
    alloc: Global,
    classes: Vec<Vec<ClassRow<'a>>>,
    members: Vec<Members<'a>>,
) -> Result<Vec<FileRows<'a>>, NoMemory>
    requires { length members.items ≡ length classes.items }
    ensures classes { IfOk result (λ files. map (λ f. f.classes.items) files.items ≡ map (λ rows. rows.items) classes.entry.items) }
    ensures fields { IfOk result (λ files. map (λ f. f.fields.items) files.items ≡ map (λ m. m.fields.items) members.entry.items) }
    ensures methods { IfOk result (λ files. map (λ f. f.methods.items) files.items ≡ map (λ m. m.methods.items) members.entry.items) }
{
    let mut rest = members.into_iter();
    let mut files = Vec::new(alloc);
    for rows in classes {
        let Some(Members { fields, methods }) = rest.next() else {
            break;
        };
        files.push(FileRows {
            classes: rows,
            fields,
            methods,
        })?;
    }
    Ok(files)
}

/// What the files say of classes.
pub fn read_table<'a>(alloc: Global, names: &TypeNames<'a>) -> Result<ClassTable<'a>, NoMemory>
    ensures { IfOk result (IsTable names.now) }
{
    let classes = read_classes(alloc, names)?;
    let layouts = read_layouts(alloc, names)?;
    let types = Types {
        names,
        classes: &classes,
        layouts: &layouts,
    };
    let members = read_members(alloc, &types)?;
    let files = join_files(alloc, classes, members)?;
    Ok(ClassTable {
        files,
        library: find_library(names),
        size: count_types(names),
    })
}
