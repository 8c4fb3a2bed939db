//! Rules that metadata break.

ghost use Rattle.std.specs.Prelude.{◌≡◌, ◌<◌, ◌^◌, false};
ghost use Rattle.file_tables.specs.Rules.{rule_at, rule_of_row};

use plain_types::fault::{Fault, Place, WHOLE_FILE};

/// A broken rule of the file, with the offset from the metadata root.
pub fn broken(rule: u8, offset: usize) -> Fault
    requires { offset < 2 ^ 32 }
    ensures { result ≡ (rule_at rule offset false).fault }
{
    let place = Place {
        file: 0,
        table: WHOLE_FILE,
        row: 0,
        offset: offset as u32,
    };
    Fault { rule, place }
}

/// A rule that a row breaks.
pub fn broken_row(rule: u8, table: u8, row: u32) -> Fault
    ensures { result ≡ (rule_of_row rule table row false).fault }
{
    let place = Place {
        file: 0,
        table,
        row,
        offset: 0,
    };
    Fault { rule, place }
}
