//! The classes of a set as a table.

ghost use Rattle.std.specs.Prelude.{◌≡◌, ◌<◌, ◌^◌, IfOk, Some, length, slice_get};
ghost use Rattle.assemblies.specs.Binding.{classes_of};
ghost use Rattle.world_rows.specs.World.{size_of};
ghost use Rattle.class_table.specs.Seen.{classes_seen};
ghost use Rattle.tiny_rows.specs.Rows.{rows_seen};
ghost use Rattle.set_names.specs.Names.{seen_all};
ghost use Rattle.set_table.specs.Subject.{IsSubject};
ghost use Rattle.set_table.specs.Whole.{IsSetFile, IsSetTable, IsRead, AreFiles};

use crate::fields::read_fields;
use crate::law::whole_set_table;
use crate::library::{count_types, find_library};
use crate::methods::read_methods;
use crate::subject::Subject;
use crate::types::read_classes;
use class_table::{ClassTable, FileRows};
use plain_types::fault::NoMemory;
use set_names::{Names, resolve_types};
use set_signatures::Tokens;
use std::alloc::Global;
use tiny_rows::type_count;

/// What one image says.
fn read_rows<'a>(alloc: Global, subject: &Subject<'_, '_, 'a>) -> Result<FileRows<'a>, NoMemory>
    requires { IsSubject subject.now }
    ensures { IfOk result (IsRead subject.now) }
{
    let classes = read_classes(alloc, subject)?;
    let fields = read_fields(alloc, subject, &classes)?;
    let methods = read_methods(alloc, subject, &classes)?;
    Ok(FileRows {
        classes,
        fields,
        methods,
    })
}

/// What the image of a number says.
fn read_file<'a>(alloc: Global, names: &Names<'_, 'a>, file: u32) -> Result<FileRows<'a>, NoMemory>
    requires { file < length names.now }
    ensures { IfOk result (IsSetFile (seen_all names.now) file) }
{
    let Some(image) = names.image(file) else {
        unreachable!();
    };
    image.has_rows();
    let references = resolve_types(alloc, names, file)?;
    let tokens = Tokens {
        file,
        types: u32::from(type_count(image)),
        references: &references,
    };
    let subject = Subject {
        names,
        image,
        tokens,
    };
    let rows = read_rows(alloc, &subject)?;
    Ok(rows)
}

/// What each image says.
fn read_files<'a>(alloc: Global, names: &Names<'_, 'a>) -> Result<Vec<FileRows<'a>>, NoMemory>
    requires { length names.now < 2 ^ 32 }
    ensures count { IfOk result (λ files. length files.items ≡ length names.now) }
    ensures files { IfOk result (λ files. AreFiles (seen_all names.now) files.items) }
{
    let mut files = Vec::new(alloc);
    for file in 0..names.count() as u32 {
        files.push(read_file(alloc, names, file)?)?;
    }
    Ok(files)
}

/// What the images of a set say of types and members, each token replaced by what it names: the same table as that of a
/// world's files, so that whatever is asked of those is asked of these.
pub fn read_table<'a>(alloc: Global, names: &Names<'_, 'a>) -> Result<ClassTable<'a>, NoMemory>
    requires { length names.now < 2 ^ 32 }
    ensures table { IfOk result (IsSetTable (seen_all names.now)) }
    ensures classes { IfOk result (λ table. classes_seen table ≡ classes_of (size_of (seen_all names.now)) (seen_all names.now)) }
{
    whole_set_table();
    let files = read_files(alloc, names)?;
    Ok(ClassTable {
        files,
        library: find_library(names),
        size: count_types(names),
    })
}
