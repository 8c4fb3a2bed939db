//! Rule 30 of a file of the base library.

ghost use Rattle.std.specs.Prelude.{◌≡◌, ◌<◌, IfOk, Some, false, length, slice_get};
ghost use Rattle.plain_types.specs.declared.fault.TheConstants.{WHOLE_FILE};
ghost use Rattle.file_tables.specs.Metadata.{row_count};
ghost use Rattle.file_tables.specs.File.{FilePart};
ghost use Rattle.verdict_rules.specs.Order.{first_fault, fault_of, test};
ghost use Rattle.verdict_rules.specs.Library.{library_well, library_tests};
ghost use Rattle.verdict_rules.specs.World.{world_of};
ghost use Rattle.world_rows.specs.Tokens.{methods};
ghost use Rattle.class_table.specs.Whole.{AreMethods};
ghost use Rattle.profile_subject.specs.Subject.{IsSubject};
ghost use Rattle.library_tests.specs.Types.{IsLibrary, files_of};
ghost use Rattle.library_tests.specs.Members.{members_well};

use crate::index::read_index;
use crate::methods::{has_calls, has_natives};
use crate::types::{Library, has_types};
use cil_tables::Tables;
use class_table::MethodRow;
use plain_types::fault::{Fault, NoMemory, Place, WHOLE_FILE};
use profile_subject::Subject;
use std::alloc::Global;

/// The files of the base library.
const BASE_FILES: u16 = 2;

/// The methods of a file.
fn methods_of<'t, 'a>(subject: &Subject<'t, 'a>, file: u16) -> &'t [MethodRow<'a>]
    requires subject { IsSubject subject.now }
    requires file { file < length subject.now.world.now }
    ensures { AreMethods subject.now.world.now file result.now }
{
    subject.setting.table.files[file as usize]
        .methods
        .as_slice()
}

/// What the types of a file of the base library are told by.
fn read_library<'t, 'a>(
    alloc: Global,
    subject: &Subject<'t, 'a>,
    file: u16,
) -> Result<Library<'t, 'a>, NoMemory>
    requires subject { IsSubject subject.now }
    requires file { file < length subject.now.world.now }
    requires base { 0 < length subject.now.world.now }
    ensures library { IfOk result IsLibrary }
    ensures file { IfOk result (λ library. library.own.file ≡ file) }
    ensures files { IfOk result (λ library. files_of library ≡ subject.now.world.now) }
{
    let names = subject.world.names();
    Ok(Library {
        table: subject.setting.table,
        own: read_index(alloc, names, file)?,
        system: read_index(alloc, names, 0)?,
    })
}

/// The methods of a file of the base library are the natives that it has there, and each internal call is a native.
fn members_well(tables: &Tables<'_>, rows: &[MethodRow<'_>], file: u16) -> bool
    requires base { file < 2 }
    requires size { length rows.now ≡ row_count tables.now methods }
    ensures { result ≡ members_well tables.now rows.now file }
{
    has_natives(rows, file) && has_calls(tables, rows)
}

/// A file of the base library has the types and the natives that it has there, and each internal call of it is a native.
fn is_well(alloc: Global, subject: &Subject<'_, '_>, file: u16) -> Result<bool, NoMemory>
    requires subject { IsSubject subject.now }
    requires file { file < length subject.now.world.now }
    requires base { file < 2 }
    ensures { IfOk result (λ well. (x : FilePart) → slice_get subject.now.world.now file ≡ Some x → well ≡ library_well (world_of subject.now.world.now) file x) }
{
    let library = read_library(alloc, subject, file)?;
    if !has_types(&library) {
        return Ok(false);
    }
    let rows = methods_of(subject, file);
    Ok(members_well(subject.world.tables(file), rows, file))
}

/// The refusal of a file that isn't as the base library has it.
fn refusal(file: u16) -> Fault
    ensures { result ≡ fault_of file WHOLE_FILE 0 (test 30 false) }
{
    Fault {
        rule: 30,
        place: Place {
            file,
            table: WHOLE_FILE,
            row: 0,
            offset: 0,
        },
    }
}

/// Rule 30 of a file as a whole: one of the base library's two lacks a type that the library has there, or has it with another
/// superclass, lacks a native, or has an internal call that is none. It takes time as a file has rows of types (times their logarithm)
/// and of methods.
pub fn library_fault(
    alloc: Global,
    subject: &Subject<'_, '_>,
    file: u16,
) -> Result<Option<Fault>, NoMemory>
    requires subject { IsSubject subject.now }
    requires file { file < length subject.now.world.now }
    ensures { IfOk result (λ fault. (x : FilePart) → slice_get subject.now.world.now file ≡ Some x → fault ≡ first_fault file WHOLE_FILE 0 (library_tests (world_of subject.now.world.now) file x)) }
{
    if file >= BASE_FILES {
        return Ok(None);
    }
    if is_well(alloc, subject, file)? {
        Ok(None)
    } else {
        Ok(Some(refusal(file)))
    }
}
