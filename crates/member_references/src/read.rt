//! The references of all files.

ghost use Rattle.std.specs.Prelude.{◌<◌, IfOk, length};
ghost use Rattle.class_table.specs.Whole.{IsTable};
ghost use Rattle.member_references.specs.Meant.{AreMembers, AreMeant, AreReferences};

use crate::members::{Members, read_reference};
use crate::reference::{Reference, References};
use class_table::ClassTable;
use file_tables::numbers::MEMBER_REF;
use member_search::{MemberIndex, Sort};
use plain_types::fault::NoMemory;
use std::alloc::Global;
use type_names::TypeNames;

/// What the rows of a file's MemberRef table mean.
fn read_file(
    alloc: Global,
    members: &Members<'_, '_>,
    file: u16,
) -> Result<Vec<Reference>, NoMemory>
    requires members { AreMembers members.now }
    requires file { file < length members.now.names.now }
    ensures { IfOk result (λ references. AreMeant members.now.names.now file references.items) }
{
    let tables = members.names.tables(file);
    let mut references = Vec::new(alloc);
    for n in 0..tables.rows(MEMBER_REF) {
        references.push(read_reference(alloc, members, tables, file, n)?)?;
    }
    Ok(references)
}

/// For each file of a world what the rows of its MemberRef table mean (ECMA-335 II.22.25): the first member of the name and the
/// signature in the class that the row names, or else in the nearest of its superclasses that has one. `table` is that of the world.
pub fn read_references<'a>(
    alloc: Global,
    names: &TypeNames<'a>,
    table: &ClassTable<'a>,
) -> Result<References, NoMemory>
    requires { IsTable names.now table.now }
    ensures { IfOk result (AreReferences names.now) }
{
    let members = Members {
        names,
        fields: MemberIndex::new(alloc, table, Sort::Field)?,
        methods: MemberIndex::new(alloc, table, Sort::Method)?,
    };
    let mut files = Vec::new(alloc);
    for file in 0..names.files() {
        files.push(read_file(alloc, &members, file)?)?;
    }
    Ok(References { files })
}
