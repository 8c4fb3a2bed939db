//! The tokens that keys stand for.

ghost use Rattle.std.specs.Prelude.{◌≡◌, ◌<◌, ◌≤◌, length, sum_by, count_by, ◌==◌};
ghost use Rattle.base_tables.specs.Shape.{item_of, items_of};
ghost use Rattle.cil_layout.specs.Text.{text_size};
ghost use Rattle.base_lib.specs.Keys.{has_key, table_of, literal_len, row_behind, token_before, token_of_key};

use base_tables::shape::{Entry, Item};
use cil_layout::rows::{
    ASSEMBLY_REF, FIELD, INTERFACE_IMPL, LITERAL, MEMBER_REF, METHOD_DEF, TYPE_DEF, TYPE_REF,
};

/// Whether an item has a key.
fn is_named(key: &str, item: &Item) -> bool
    ensures { result ≡ has_key key.now (item_of item.now) }
{
    let (entry, name, ..) = *item;
    match entry {
        Entry::Implements => false,
        Entry::Literal | Entry::TypeDef | Entry::Field | Entry::Method => name == key,
        Entry::Assembly | Entry::TypeOf | Entry::MethodOf => name == key,
    }
}

/// The table of an item's row, or that of literals.
fn table_of_item(item: &Item) -> u8
    ensures table { result ≡ table_of (item_of item.now) }
    ensures below { result < 128 }
{
    let (entry, ..) = *item;
    match entry {
        Entry::Literal => LITERAL,
        Entry::TypeDef => TYPE_DEF,
        Entry::Field => FIELD,
        Entry::Method => METHOD_DEF,
        Entry::Implements => INTERFACE_IMPL,
        Entry::Assembly => ASSEMBLY_REF,
        Entry::TypeOf => TYPE_REF,
        Entry::MethodOf => MEMBER_REF,
    }
}

/// The bytes of a literal's entry, by its units.
fn len_of_text(units: u32) -> u32
    requires { units ≤ 1000000 }
    ensures { result ≡ text_size units }
{
    let bytes = 2 * units + 1;
    if bytes < 128 {
        bytes + 1
    } else if bytes < 16_384 {
        bytes + 2
    } else {
        bytes + 4
    }
}

/// The bytes of a literal's entry; 0 for other items.
fn len_of_literal(item: &Item) -> u32
    requires { literal_len (item_of item.now) ≤ 1000000 }
    ensures { result ≡ literal_len (item_of item.now) }
{
    let (entry, text, ..) = *item;
    match entry {
        Entry::Literal => len_of_text(text.len() as u32),
        Entry::TypeDef | Entry::Field | Entry::Method | Entry::Implements => 0,
        Entry::Assembly | Entry::TypeOf | Entry::MethodOf => 0,
    }
}

/// How many items have a row in a table.
#[tactic(auto, using(crate::proofs::Walks::count_step))]
fn rows_before(before: &[Item], table: u8) -> usize
    ensures count { result ≡ count_by (λ x. table_of x == table) (items_of before.now) }
    ensures most { result ≤ length before.now }
{
    let mut count = 0;
    for item in before {
        if table_of_item(item) == table {
            count += 1;
        }
    }
    count
}

/// The bytes of the literals' entries.
#[tactic(auto, using(crate::proofs::Walks::sum_step, crate::proofs::Walks::sum_below))]
fn literals_before(before: &[Item]) -> u32
    requires { sum_by literal_len (items_of before.now) ≤ 1000000 }
    ensures { result ≡ sum_by literal_len (items_of before.now) }
{
    let mut sum = 0;
    for item in before {
        sum += len_of_literal(item);
    }
    sum
}

/// The row of an item of a table that stands behind others.
fn row_for(before: &[Item], table: u8) -> u32
    requires few { length before.now ≤ 60000 }
    requires short { sum_by literal_len (items_of before.now) ≤ 1000000 }
    ensures row { result ≡ row_behind (items_of before.now) table }
    ensures small { result ≤ 1000001 }
{
    if table == LITERAL {
        return literals_before(before) + 1;
    }
    let rows = rows_before(before, table) as u32;
    if table == TYPE_DEF {
        rows + 2
    } else {
        rows + 1
    }
}

/// The token of an item that stands behind others.
fn token_behind(before: &[Item], item: &Item) -> u32
    requires few { length before.now ≤ 60000 }
    requires short { sum_by literal_len (items_of before.now) ≤ 1000000 }
    ensures { result ≡ token_before (items_of before.now) (item_of item.now) }
{
    let table = table_of_item(item);
    (table as u32) * 0x0100_0000 + row_for(before, table)
}

/// The token of the first item that has a key; 0 where none has it.
#[tactic(auto, using(crate::proofs::Walks::sum_before))]
pub fn token_for(items: &[Item], key: &str) -> u32
    requires few { length items.now ≤ 60000 }
    requires short { sum_by literal_len (items_of items.now) ≤ 1000000 }
    ensures { result ≡ token_of_key (items_of items.now) key.now }
{
    for (i, item) in items.iter().enumerate() {
        if is_named(key, item) {
            return token_behind(&items[..i], item);
        }
    }
    0
}
