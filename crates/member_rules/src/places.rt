//! The places of the rows of a table of classes.

ghost use Rattle.std.specs.Prelude.{◌≡◌, IfOk, OnOk};
ghost use Rattle.assemblies.specs.Binding.{range};
ghost use Rattle.kept_rules.specs.Row.{in_option, enclosing_row};
ghost use Rattle.kept_rules.specs.Rules.{type_at};
ghost use Rattle.member_keys.specs.Seen.{class_seen};
ghost use Rattle.row_rules.specs.Links.{row_at, keeps_each, Adds};
ghost use Rattle.member_rules.specs.Members.{row_where};

use member_keys::ClassId;
use plain_types::fault::NoMemory;
use row_numbers::Table;
use row_rules::{RowPlace, RowRules};

/// The place of a row of a table. There is no room for those of 2^32 rows and more.
pub fn row_place(file: u16, table: Table, row: usize) -> Result<RowPlace, NoMemory>
    ensures { IfOk result (λ place. place ≡ record { file = file; table = table; row = row }) }
{
    let Ok(row) = u32::try_from(row) else {
        return Err(NoMemory);
    };
    Ok(RowPlace { file, table, row })
}

/// The place of a class. There is no room for the classes of 2^16 files and more.
pub fn class_place(class: ClassId) -> Result<RowPlace, NoMemory>
    ensures { IfOk result (λ place. row_at place ≡ type_at (class_seen class)) }
{
    let Ok(file) = u16::try_from(class.file) else {
        return Err(NoMemory);
    };
    Ok(RowPlace {
        file,
        table: Table::TypeDef,
        row: class.row,
    })
}

/// Adds that a row keeps a type of its file, if there is one.
pub fn keep_type(rules: &mut RowRules, place: RowPlace, class: Option<u32>) -> Result<(), NoMemory>
    ensures { OnOk result (Adds (keeps_each (row_at place) (in_option (enclosing_row place.file) class)) rules.old rules.new) }
{
    match class {
        Some(row) => {
            let then = RowPlace {
                file: place.file,
                table: Table::TypeDef,
                row,
            };
            rules.keep(place, then)
        }
        None => Ok(()),
    }
}

/// Adds that a row keeps another one, where that passes.
pub fn keep_if(
    rules: &mut RowRules,
    place: RowPlace,
    passes: bool,
    then: RowPlace,
) -> Result<(), NoMemory>
    ensures { OnOk result (Adds (keeps_each (row_at place) (row_where passes (row_at then))) rules.old rules.new) }
{
    if passes {
        rules.keep(place, then)
    } else {
        Ok(())
    }
}

/// So many rows from the first on, as far as they are there.
#[tactic(auto, using(crate::proofs::RangeLaws::range_between))]
pub fn range<T>(rows: &[T], first: u32, count: u32) -> &[T]
    ensures { result.now ≡ range first count rows.now }
{
    let start = rows.len().min(first as usize);
    let end = rows.len().min(first as usize + count as usize);
    &rows[start..end]
}
