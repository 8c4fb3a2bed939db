//! What the rows of a world's files are looked up by.

ghost use Rattle.std.specs.Prelude.{◌≡◌, ◌<◌, IfOk, length};
ghost use Rattle.profile_subject.specs.Subject.{IsSubject};
ghost use Rattle.profile_order.specs.Judge.{AreFileColumns, AreAllColumns, IsJudge};

use looked_rows::{Looked, looked_at};
use member_search::{MemberIndex, Sort};
use plain_types::fault::NoMemory;
use profile_subject::Subject;
use std::alloc::Global;
use type_tests::{AssemblyNames, Entries, TypeColumns};

/// What the rows of a file are looked up by.
#[derive(Drop)]
pub struct FileColumns {
    pub types: TypeColumns,
    pub looked: Looked,
}

/// A world, and what the rows of its files are looked up by.
#[derive(Drop)]
pub struct Judge<'s, 'w, 'a> {
    pub subject: &'s Subject<'w, 'a>,
    pub fields: MemberIndex<'w, 'a>,
    pub methods: MemberIndex<'w, 'a>,
    pub names: AssemblyNames<'a>,
    pub entries: Entries,
    pub files: Vec<FileColumns>,
}

/// What the rows of a file are looked up by.
fn read_columns(
    alloc: Global,
    subject: &Subject<'_, '_>,
    file: u16,
) -> Result<FileColumns, NoMemory>
    requires { file < length subject.now.world.now }
    ensures { IfOk result (AreFileColumns subject.now.world.now file) }
{
    let world = subject.world;
    Ok(FileColumns {
        types: TypeColumns::new(alloc, subject, file)?,
        looked: looked_at(alloc, world.pe(file), world.tables(file))?,
    })
}

/// The same of each file.
fn read_files(alloc: Global, subject: &Subject<'_, '_>) -> Result<Vec<FileColumns>, NoMemory>
    ensures { IfOk result (λ all. AreAllColumns subject.now.world.now all.items) }
{
    let mut all = Vec::new(alloc);
    for file in 0..subject.world.files() {
        all.push(read_columns(alloc, subject, file)?)?;
    }
    Ok(all)
}

/// What the rows of a world's files are looked up by, in time linear in the files but for a logarithm.
pub fn read_judge<'s, 'w, 'a>(
    alloc: Global,
    subject: &'s Subject<'w, 'a>,
) -> Result<Judge<'s, 'w, 'a>, NoMemory>
    requires { IsSubject subject.now }
    ensures judge { IfOk result IsJudge }
    ensures same { IfOk result (λ judge. judge.subject.now ≡ subject.now) }
{
    Ok(Judge {
        subject,
        fields: MemberIndex::new(alloc, subject.setting.table, Sort::Field)?,
        methods: MemberIndex::new(alloc, subject.setting.table, Sort::Method)?,
        names: AssemblyNames::new(alloc, subject.world)?,
        entries: Entries::new(subject.world),
        files: read_files(alloc, subject)?,
    })
}

/// What the rows of one of the files are looked up by.
pub fn columns<'j>(judge: &'j Judge<'_, '_, '_>, file: u16) -> &'j FileColumns
    requires judge { IsJudge judge.now }
    requires file { file < length judge.now.subject.now.world.now }
    ensures { AreFileColumns judge.now.subject.now.world.now file result.now }
{
    &judge.files[usize::from(file)]
}
