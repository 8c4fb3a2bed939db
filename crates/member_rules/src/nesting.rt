//! The rules of types that are nested in others (ECMA-335 II.22.32).

ghost use Rattle.std.specs.Prelude.{◌≡◌, OnOk};
ghost use Rattle.row_rules.specs.Links.{Adds};
ghost use Rattle.member_rules.specs.Members.{enclosing_links};

use crate::places::{keep_type, row_place};
use class_table::FileRows;
use plain_types::fault::NoMemory;
use row_numbers::Table;
use row_rules::RowRules;

/// Adds that each type of a file keeps the type that it is nested in (ECMA-335 II.22.32).
///
/// # Errors
///
/// [`NoMemory`] also where a type's row is 2^32 or more; no file has so many.
pub fn add_enclosing(rules: &mut RowRules, rows: &FileRows<'_>, file: u16) -> Result<(), NoMemory>
    ensures { OnOk result (Adds (enclosing_links file rows.now) rules.old rules.new) }
{
    for n in 0..rows.classes.len() {
        let place = row_place(file, Table::TypeDef, n)?;
        keep_type(rules, place, rows.classes[n].enclosing)?;
    }
    Ok(())
}
