//! Tokens of types (ECMA-335 II.24.2.6).

ghost use Rattle.std.specs.Prelude.{◌≡◌};
ghost use Rattle.assemblies.specs.Chosen.{token_to};
ghost use Rattle.image_form.specs.Signatures.{type_word};
ghost use Rattle.world_rows.specs.Tokens.{type_token};
ghost use Rattle.kept_marks.specs.Masks.{choice_of_rows, masks_of};

use cil_tables::Tables;
use file_tables::numbers::{TYPE_DEF, TYPE_REF, TYPE_SPEC};
use kept_marks::FileChoice;
use row_numbers::Table;
use type_names::{Token, from_zero};

/// Where the numbers of references begin.
const REFERENCES: u64 = 0x4000;

/// Where the numbers of specifications begin.
const SPECIFICATIONS: u64 = 0x8000;

/// The number of a type's token in the image of a file's kept rows: the row of the type, the row of a reference behind 0x4000,
/// or that of a specification behind 0x8000, each among the kept ones. A token that names no type names the row past the last
/// type.
pub fn type_word(choice: &FileChoice<'_>, tables: &Tables<'_>, token: Token) -> u64
    ensures { result ≡ type_word (token_to (choice_of_rows (masks_of choice.now)) (type_token tables.now token.table token.row)) }
{
    if token.table == TYPE_DEF {
        let row = from_zero(tables.rows(TYPE_DEF), token.row);
        u64::from(choice.below(Table::TypeDef, u64::from(row)))
    } else if token.table == TYPE_REF {
        let row = from_zero(tables.rows(TYPE_REF), token.row);
        REFERENCES + u64::from(choice.below(Table::TypeRef, u64::from(row)))
    } else if token.table == TYPE_SPEC {
        let row = from_zero(tables.rows(TYPE_SPEC), token.row);
        SPECIFICATIONS + u64::from(choice.below(Table::TypeSpec, u64::from(row)))
    } else {
        let row = tables.rows(TYPE_DEF);
        u64::from(choice.below(Table::TypeDef, u64::from(row)))
    }
}
