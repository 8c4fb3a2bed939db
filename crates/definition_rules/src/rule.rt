//! The rule of one reference.

ghost use Rattle.std.specs.Prelude.{◌≡◌, ◌<◌, ℕ, List, OnOk, Some, length};
ghost use Rattle.std.specs.Option.{option_map};
ghost use Rattle.machine.specs.Data.{Id};
ghost use Rattle.kept_rules.specs.Row.{in_option};
ghost use Rattle.member_keys.specs.Seen.{class_seen};
ghost use Rattle.row_numbers.specs.Tables.{row_in};
ghost use Rattle.row_rules.specs.Links.{row_at, keeps_each, Adds};
ghost use Rattle.definition_rules.specs.Definitions.{one_row};

use cil_world::World;
use member_keys::ClassId;
use plain_types::fault::NoMemory;
use row_numbers::Table;
use row_rules::{RowPlace, RowRules};

/// Adds that a row keeps its definition, a row of a table of one of the world's files, if it has one.
pub fn keep_definition(
    rules: &mut RowRules,
    place: RowPlace,
    world: &World<'_>,
    table: Table,
    definition: Option<ClassId>,
) -> Result<(), NoMemory>
    requires { (c : Id) → option_map class_seen definition ≡ Some c → c.file < length world.now }
    ensures { OnOk result (Adds (keeps_each (row_at place) (in_option one_row (option_map (λ (c : Id). row_in table c.file c.row) (option_map class_seen definition)))) rules.old rules.new) }
{
    let Some(definition) = definition else {
        return Ok(());
    };
    if definition.file >= u32::from(world.files()) {
        return Ok(());
    }
    let then = RowPlace {
        file: definition.file as u16,
        table,
        row: definition.row,
    };
    rules.keep(place, then)
}
