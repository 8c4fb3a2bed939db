//! Whether each class of a world has bodies for the slots that it adds to the class above it.

ghost use Rattle.std.specs.Prelude.{◌≡◌, ◌<◌, ◌↔◌, true, IfOk, length};
ghost use Rattle.assemblies.specs.Binding.{id_at};
ghost use Rattle.class_table.specs.Seen.{classes_seen};
ghost use Rattle.slot_tests.specs.Told.{types_in, class_adds, FileAdds, WorldAdds, IsIndexOf};

use class_queries::find_class;
use class_slots::added_filled;
use file_tables::numbers::TYPE_DEF;
use member_keys::ClassId;
use member_search::MemberIndex;
use plain_types::fault::NoMemory;
use profile_subject::Subject;
use std::alloc::Global;

/// Whether a type, which counts from 0, has bodies for the slots that it adds.
fn row_adds<'a>(
    alloc: Global,
    subject: &Subject<'_, 'a>,
    methods: &MemberIndex<'_, 'a>,
    file: u16,
    n: u32,
) -> Result<bool, NoMemory>
    requires { IsIndexOf subject.now methods.now }
    ensures { IfOk result (λ adds. adds ≡ class_adds (classes_seen subject.now.setting.table.now) (id_at file n)) }
{
    let class = ClassId {
        file: u32::from(file),
        row: n,
    };
    match find_class(subject.setting.table, class) {
        Some(row) => added_filled(alloc, methods, class, row),
        None => Ok(true),
    }
}

/// How many types a file has.
pub fn count_types(subject: &Subject<'_, '_>, file: u16) -> u32
    requires { file < length subject.now.world.now }
    ensures { result ≡ types_in subject.now.world.now file }
{
    let tables = subject.world.tables(file);
    tables.rows(TYPE_DEF)
}

/// Whether each type of a file has bodies for the slots that it adds.
fn file_adds<'a>(
    alloc: Global,
    subject: &Subject<'_, 'a>,
    methods: &MemberIndex<'_, 'a>,
    file: u16,
) -> Result<bool, NoMemory>
    requires methods { IsIndexOf subject.now methods.now }
    requires file { file < length subject.now.world.now }
    ensures { IfOk result (λ all. (all ≡ true) ↔ FileAdds subject.now.world.now (classes_seen subject.now.setting.table.now) file) }
{
    let count = count_types(subject, file);
    for n in 0..count {
        let adds = row_adds(alloc, subject, methods, file, n)?;
        if !adds {
            return Ok(false);
        }
    }
    Ok(true)
}

/// Whether each type of a world has bodies for the slots that it adds.
pub fn all_add<'a>(
    alloc: Global,
    subject: &Subject<'_, 'a>,
    methods: &MemberIndex<'_, 'a>,
) -> Result<bool, NoMemory>
    requires { IsIndexOf subject.now methods.now }
    ensures { IfOk result (λ all. (all ≡ true) ↔ WorldAdds subject.now.world.now (classes_seen subject.now.setting.table.now)) }
{
    for file in 0..subject.world.files() {
        let adds = file_adds(alloc, subject, methods, file)?;
        if !adds {
            return Ok(false);
        }
    }
    Ok(true)
}
