//! What is asked of classes often, found once.

ghost use Rattle.std.specs.Prelude.{◌≡◌, ◌≤◌, IfOk, length};
ghost use Rattle.std.specs.Option.{option_copied};
ghost use Rattle.classes.specs.Queries.{instance_fields};
ghost use Rattle.member_keys.specs.Seen.{class_seen};
ghost use Rattle.class_table.specs.Seen.{classes_seen};
ghost use Rattle.class_queries.specs.Numbers.{count_at};
ghost use Rattle.tiny_types.specs.Answers.{IsAnswer, AreFileAnswers, AreAnswers, answer_at};
ghost use Rattle.tiny_types.specs.Small.{IsSmall};

use class_fields::field_list;
use class_reach::reached;
use class_table::ClassTable;
use member_keys::ClassId;
use plain_types::fault::NoMemory;
use std::alloc::Global;

/// What is asked of a class often.
#[derive(Debug, Drop)]
pub struct ClassAnswer {
    /// How many instance fields its objects have.
    pub field_count: u32,
    /// The class, and the classes and interfaces that it reaches by superclasses and interfaces.
    pub reached: Vec<ClassId>,
}

/// The same of the classes of a file.
#[derive(Debug, Drop)]
pub struct FileAnswers {
    pub classes: Vec<ClassAnswer>,
}

/// How many instance fields objects of a class have. There is no room for 2^32 of them.
fn count_fields(alloc: Global, table: &ClassTable<'_>, class: ClassId) -> Result<u32, NoMemory>
    ensures { IfOk result (λ count. count ≡ length (instance_fields (classes_seen table.now) (class_seen class))) }
{
    let fields = field_list(alloc, table, class)?;
    if fields.len() > u32::MAX as usize {
        return Err(NoMemory);
    }
    Ok(fields.len() as u32)
}

/// What is asked of a class.
fn answer(alloc: Global, table: &ClassTable<'_>, class: ClassId) -> Result<ClassAnswer, NoMemory>
    ensures { IfOk result (IsAnswer table.now (class_seen class)) }
{
    let field_count = count_fields(alloc, table, class)?;
    let reached = reached(alloc, table, class)?;
    Ok(ClassAnswer {
        field_count,
        reached,
    })
}

/// What is asked of the classes of a file, of which there are so many.
fn answer_file(
    alloc: Global,
    table: &ClassTable<'_>,
    file: u32,
    count: usize,
) -> Result<FileAnswers, NoMemory>
    requires { count ≤ 65535 }
    ensures { IfOk result (AreFileAnswers table.now file count) }
{
    let mut classes = Vec::new(alloc);
    for row in 0..count {
        let class = ClassId {
            file,
            row: row as u32,
        };
        classes.push(answer(alloc, table, class)?)?;
    }
    Ok(FileAnswers { classes })
}

/// How many classes a file has.
fn class_count(table: &ClassTable<'_>, file: usize) -> usize
    ensures { result ≡ count_at table.now file }
{
    match table.files.get(file) {
        Some(file) => file.classes.len(),
        None => 0,
    }
}

/// What is asked of the classes of a table.
pub fn answer_all(alloc: Global, table: &ClassTable<'_>) -> Result<Vec<FileAnswers>, NoMemory>
    requires { IsSmall table.now }
    ensures { IfOk result (λ all. AreAnswers table.now all.items) }
{
    let mut all = Vec::new(alloc);
    for file in 0..table.files.len() {
        let count = class_count(table, file);
        all.push(answer_file(alloc, table, file as u32, count)?)?;
    }
    Ok(all)
}

/// The answers of a class, in constant time; `None` where there is no such class.
pub fn answer_of(all: &[FileAnswers], class: ClassId) -> Option<&ClassAnswer>
    ensures { option_copied result ≡ answer_at all.now (class_seen class) }
{
    let file = all.get(class.file as usize)?;
    file.classes.get(class.row as usize)
}
