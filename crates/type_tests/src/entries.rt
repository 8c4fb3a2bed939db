//! The tests of entries (ECMA-335 II.25.3.3, II.15.4.1.2).

ghost use Rattle.std.specs.Prelude.{◌≡◌, suc, ◌<◌, ◌==◌, not, if◌then◌else◌, None, Some, length, slice_get};
ghost use Rattle.std.specs.Option.{option_map};
ghost use Rattle.plain_types.specs.declared.fault.TheConstants.{WHOLE_FILE};
ghost use Rattle.file_tables.specs.Metadata.{MetadataPart};
ghost use Rattle.file_tables.specs.File.{FilePart};
ghost use Rattle.machine.specs.Throw.{on_some};
ghost use Rattle.assemblies.specs.Rows as rows;
ghost use Rattle.assemblies.specs.Binding.{entry_from, id_at, numbered};
ghost use Rattle.world_rows.specs.Rows.{entry_named};
ghost use Rattle.world_rows.specs.World.{ecma_sources};
ghost use Rattle.member_keys.specs.Seen.{class_seen};
ghost use Rattle.verdict_rules.specs.Order.{first_fault};
ghost use Rattle.verdict_rules.specs.World.{world_of};
ghost use Rattle.verdict_rules.specs.Types.{begins_in, entry_tests, has_entry, own_entry_well, some_entry};
ghost use Rattle.profile_subject.specs.Subject.{IsSubject};
ghost use Rattle.type_tests.specs.Columns.{precedes};
ghost use Rattle.type_tests.specs.Entries.{AreEntries, entry_after, is_static_row};

use crate::refusal::unless_kept;
use cil_rows::{MethodDefRow, read_row};
use cil_tables::Tables;
use cil_world::World;
use class_checks::entry_well;
use file_tables::bytes::has_bit;
use file_tables::numbers::METHOD_DEF;
use member_keys::ClassId;
use pe_reader::Pe;
use plain_types::fault::{Fault, Place, WHOLE_FILE};
use profile_subject::Subject;
use type_names::split_token;

/// The number of the first file behind the base library's.
const FIRST_USER_FILE: u16 = 2;

/// What the files behind the base library's say of the entry.
#[derive(Clone, Copy, Debug)]
pub struct Entries {
    /// The first file that has an entry token.
    pub first: Option<u16>,
    /// The method that the first file names which names one, where that is static. A row of methods from 0.
    pub entry: Option<ClassId>,
}

/// The first file behind the base library's that has an entry token.
fn first_entry(world: &World<'_>) -> Option<u16>
    ensures { result ≡ entry_after world.now 2 }
{
    for file in FIRST_USER_FILE..world.files() {
        if world.pe(file).entry() != 0 {
            return Some(file);
        }
    }
    None
}

/// The row of methods, from 0, that an entry token names.
fn entry_row(token: u32) -> Option<u32>
    ensures { result ≡ entry_named token }
{
    let named = split_token(token);
    if named.table == METHOD_DEF && named.row > 0 {
        Some(named.row - 1)
    } else {
        None
    }
}

/// Whether there is a method of a row, and it is static.
fn is_static(tables: &Tables<'_>, row: u32) -> bool
    ensures { result ≡ is_static_row tables.now row }
{
    if row >= tables.rows(METHOD_DEF) {
        return false;
    }
    let method: MethodDefRow = read_row(tables, row + 1);
    has_bit(u64::from(method.flags), 4)
}

/// The method of a row, where it is static.
fn static_method(tables: &Tables<'_>, file: u16, row: u32) -> Option<ClassId>
    ensures { option_map class_seen result ≡ (if is_static_row tables.now row then Some (id_at file row) else None) }
{
    if is_static(tables, row) {
        Some(ClassId {
            file: u32::from(file),
            row,
        })
    } else {
        None
    }
}

/// The entry: the method that the first file names which names one, where that is static.
fn find_entry(world: &World<'_>) -> Option<ClassId>
    ensures { option_map class_seen result ≡ (ecma_sources world.now).entry }
{
    for file in FIRST_USER_FILE..world.files() {
        if let Some(row) = entry_row(world.pe(file).entry()) {
            return static_method(world.tables(file), file, row);
        }
    }
    None
}

impl Entries {
    /// The entries of a world's files (ECMA-335 II.25.3.3).
    pub fn new(world: &World<'_>) -> Entries
        ensures { AreEntries world.now result }
    {
        Entries {
            first: first_entry(world),
            entry: find_entry(world),
        }
    }
}

/// Whether the entry is one of a file, and a method that may be it.
fn begins_in(subject: &Subject<'_, '_>, entries: &Entries, file: u16) -> bool
    requires subject { IsSubject subject.now }
    requires entries { AreEntries subject.now.world.now entries.now }
    ensures { result ≡ begins_in (world_of subject.now.world.now) file }
{
    match entries.entry {
        Some(place) => place.file == u32::from(file) && entry_well(subject.setting.table, place),
        None => false,
    }
}

/// Whether a file has an entry token.
fn has_entry(pe: &Pe<'_>) -> bool
    ensures { result ≡ not (pe.now.entry == 0) }
{
    pe.entry() != 0
}

/// Whether an earlier file behind the base library's has an entry token.
fn has_earlier(entries: &Entries, file: u16) -> bool
    ensures { result ≡ precedes file entries.now.first }
{
    match entries.first {
        Some(first) => first < file,
        None => false,
    }
}

/// Whether a file behind the base library's has no entry token, or the only one there, which names a fitting method.
fn own_entry_well(subject: &Subject<'_, '_>, entries: &Entries, file: u16) -> bool
    requires subject { IsSubject subject.now }
    requires entries { AreEntries subject.now.world.now entries.now }
    requires file { file < length subject.now.world.now }
    ensures { (x : FilePart) → slice_get subject.now.world.now file ≡ Some x → result ≡ own_entry_well (world_of subject.now.world.now) file x }
{
    if file >= FIRST_USER_FILE && has_entry(subject.world.pe(file)) {
        !has_earlier(entries, file) && begins_in(subject, entries, file)
    } else {
        true
    }
}

/// Whether a file is the last one.
fn is_last(world: &World<'_>, file: u16) -> bool
    ensures { result ≡ (suc file == length world.now) }
{
    u32::from(file) + 1 == u32::from(world.files())
}

/// Whether a file isn't the last, or a file behind the base library's has an entry token.
fn some_entry(subject: &Subject<'_, '_>, entries: &Entries, file: u16) -> bool
    requires { AreEntries subject.now.world.now entries.now }
    ensures { result ≡ some_entry (world_of subject.now.world.now) file }
{
    if is_last(subject.world, file) {
        entries.first.is_some()
    } else {
        true
    }
}

/// What rule 23 says of a file: one file behind the base library's has an entry token, and it names a method that may be the entry
/// (ECMA-335 II.25.3.3, II.15.4.1.2). That no file has one is told of the last. `None` where the file keeps the rule.
pub fn entry_fault(subject: &Subject<'_, '_>, entries: &Entries, file: u16) -> Option<Fault>
    requires subject { IsSubject subject.now }
    requires entries { AreEntries subject.now.world.now entries.now }
    requires file { file < length subject.now.world.now }
    ensures { (x : FilePart) → slice_get subject.now.world.now file ≡ Some x → result ≡ first_fault file WHOLE_FILE 0 (entry_tests (world_of subject.now.world.now) file x) }
{
    let is_kept = own_entry_well(subject, entries, file) && some_entry(subject, entries, file);
    let place = Place {
        file,
        table: WHOLE_FILE,
        row: 0,
        offset: 0,
    };
    unless_kept(is_kept, 23, place)
}
