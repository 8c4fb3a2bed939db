//! The rows of a table that are kept.

ghost use Rattle.std.specs.Prelude.{◌≡◌, ◌+◌, ◌<◌, ◌≤◌, ◌&&◌, ℕ, Bool, List, [], ◌∷◌, ◌++◌, IfOk, OnOk, if◌then◌else◌, length, map, slice_index_or};
ghost use Rattle.std.specs.List.{filter};
ghost use Rattle.kept_rows.specs.Select.{select};
ghost use Rattle.msspot_write.specs.declared.parts.PartRow.{PartRow};
ghost use Rattle.kept_marks.specs.Masks.{masks_of};

use kept_marks::FileChoice;
use msspot_write::PartRow;
use plain_types::fault::NoMemory;
use plain_types::list::Items;
use row_numbers::Table;
use std::alloc::Global;

/// A table of the image, and the table of a file of whose rows it is made.
pub trait TableParts {
    /// The rows of the file's table.
    ghost rows: { Self → List (List ℕ) };

    /// A row is one of those of which the image's table is made.
    ghost belongs: { Self → List ℕ → Bool };

    /// What a row is in the image.
    ghost part: { Self → List ℕ → PartRow };

    /// A row, by its number from 0, is one of those of which the image's table is made.
    fn belongs(&self, n: u32) -> bool
        requires { n < length (rows self.now) }
        ensures { result ≡ belongs self.now (slice_index_or (rows self.now) n []) };

    /// What a row is in the image, by its number from 0.
    fn part(&self, alloc: Global, n: u32) -> Result<PartRow, NoMemory>
        requires { n < length (rows self.now) }
        ensures { IfOk result (λ p. p ≡ part self.now (slice_index_or (rows self.now) n [])) };
}

/// Adds the part of a row that has a number among those of which the image's table is made, if it is kept.
fn push_kept<T: TableParts>(
    alloc: Global,
    out: &mut Vec<PartRow>,
    choice: &FileChoice<'_>,
    table: Table,
    of: &T,
    n: u32,
    number: u32,
) -> Result<(), NoMemory>
    requires { n < length (T.rows of.now) }
    ensures { OnOk result (out.new.items ≡ out.old.items ++ (if masks_of choice.now table number then T.part of.now (slice_index_or (T.rows of.now) n []) ∷ [] else [])) }
{
    if choice.keeps(table, number) {
        out.push(of.part(alloc, n)?)?;
    }
    Ok(())
}

/// The parts of the rows of which the image's table is made and that are kept, in their order.
#[tactic(auto, using(crate::proofs::SelectLaws::all_parts))]
pub fn kept_parts<T: TableParts>(
    alloc: Global,
    choice: &FileChoice<'_>,
    table: Table,
    of: &T,
    count: u32,
) -> Result<Items<PartRow>, NoMemory>
    requires { count ≡ length (T.rows of.now) }
    ensures { IfOk result (λ parts. parts ≡ map (T.part of.now) (select (masks_of choice.now table) (filter (T.belongs of.now) (T.rows of.now)))) }
{
    let mut out = Vec::new(alloc);
    let mut number: u32 = 0;
    for n in 0..count {
        if of.belongs(n) {
            push_kept(alloc, &mut out, choice, table, of, n, number)?;
            number += 1;
        }
    }
    Ok(Items::from_vec(out))
}
