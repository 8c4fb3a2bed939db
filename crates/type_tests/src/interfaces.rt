//! The tests of interfaces that types implement (ECMA-335 II.22.23).

ghost use Rattle.std.specs.Prelude.{◌≡◌, ◌<◌, Some, length, slice_get};
ghost use Rattle.file_tables.specs.File.{FilePart};
ghost use Rattle.world_rows.specs.Tokens.{interface_impls};
ghost use Rattle.world_rows.specs.World.{rows_alone, type_count};
ghost use Rattle.type_names.specs.Resolved.{class_coded};
ghost use Rattle.class_table.specs.Seen.{classes_seen};
ghost use Rattle.class_rules.specs.Rules.{holds_some, may_be_implemented};
ghost use Rattle.verdict_rules.specs.World.{world_of};
ghost use Rattle.verdict_rules.specs.Types.{interface_tests};
ghost use Rattle.profile_subject.specs.Faults.{row_fault};
ghost use Rattle.profile_subject.specs.Subject.{IsSubject};

use crate::refusal::unless_kept;
use cil_rows::{InterfaceImplRow, read_row};
use class_checks::may_be_implemented;
use file_tables::numbers::INTERFACE_IMPL;
use file_tables::schema::Coded;
use plain_types::fault::{Fault, Place};
use profile_subject::Subject;

/// How many types a world has.
pub fn count_types(subject: &Subject<'_, '_>) -> u64
    requires { IsSubject subject.now }
    ensures { result ≡ type_count (rows_alone subject.now.world.now) }
{
    let heights = subject.setting.above;
    u64::from(heights.numbers.total)
}

/// Whether a coded index of a file names an interface, of which those that it implements end.
fn interface_well(subject: &Subject<'_, '_>, file: u16, interface: u32) -> bool
    requires subject { IsSubject subject.now }
    requires file { file < length subject.now.world.now }
    ensures { result ≡ holds_some (class_coded subject.now.world.now file Coded.TypeDefOrRef interface) (may_be_implemented (type_count (rows_alone subject.now.world.now)) (classes_seen subject.now.setting.table.now)) }
{
    let named = subject
        .world
        .names()
        .find_class(file, Coded::TypeDefOrRef, interface);
    match named {
        Some(class) => may_be_implemented(&subject.setting, class, count_types(subject)),
        None => false,
    }
}

/// What rule 25 says of a row of a file's table of interfaces, counted from 0: it names an interface, and the interfaces above that
/// one go in no circle (ECMA-335 II.22.23). `None` where the row keeps it or isn't there.
pub fn interface_fault(subject: &Subject<'_, '_>, file: u16, n: u32) -> Option<Fault>
    requires subject { IsSubject subject.now }
    requires file { file < length subject.now.world.now }
    ensures { (x : FilePart) → slice_get subject.now.world.now file ≡ Some x → result ≡ row_fault file x.metadata (record { table = interface_impls; tests = interface_tests (world_of subject.now.world.now) file x.metadata }) n }
{
    let tables = subject.world.tables(file);
    if n >= tables.rows(INTERFACE_IMPL) {
        return None;
    }
    let row: InterfaceImplRow = read_row(tables, n + 1);
    let place = Place {
        file,
        table: INTERFACE_IMPL,
        row: n + 1,
        offset: 0,
    };
    unless_kept(interface_well(subject, file, row.interface), 25, place)
}
