//! The kept rows of a table, one after the other.

ghost use Rattle.std.specs.Prelude.{◌≡◌, ◌<◌, ◌+◌, ◌++◌, ℕ, List, [], IfOk, OnOk, if◌then◌else◌};
ghost use Rattle.kept_rows.specs.Select.{rows};
ghost use Rattle.msspot_write.specs.declared.parts.PartRow.{PartRow};
ghost use Rattle.kept_marks.specs.Masks.{masks_of};
ghost use Rattle.image_rows.specs.Walk.{parts_from};

use kept_marks::FileChoice;
use msspot_write::PartRow;
use plain_types::fault::NoMemory;
use plain_types::list::Items;
use row_numbers::Table;
use std::alloc::Global;

/// A table of the image of which each row of a file's table has some rows. Such a row may name a range of a further table, in
/// which the ranges lie one behind the other.
pub trait RangedParts {
    /// How many rows the file's table has.
    ghost rows: { Self → ℕ };

    /// What a row has in the image, with the first row of the range that it names.
    ghost parts: { Self → ℕ → ℕ → List PartRow };

    /// How many rows the range of a row has.
    ghost range: { Self → ℕ → ℕ };

    /// Adds what a row has in the image, by its number from 0 and the first row of its range, and tells how many rows the range
    /// has.
    fn push(
        &self,
        alloc: Global,
        out: &mut Vec<PartRow>,
        n: u32,
        first: u64,
    ) -> Result<u64, NoMemory>
        requires { n < rows self.now }
        ensures range { IfOk result (λ count. count ≡ range self.now n) }
        ensures parts { OnOk result (out.new.items ≡ out.old.items ++ parts self.now first n) };
}

/// Adds what a row has in the image, if it is kept, and moves on behind its range.
fn push_ranged<T: RangedParts>(
    alloc: Global,
    out: &mut Vec<PartRow>,
    first: &mut u64,
    choice: &FileChoice<'_>,
    table: Table,
    of: &T,
    n: u32,
) -> Result<(), NoMemory>
    requires { n < T.rows of.now }
    ensures next { OnOk result (first.new ≡ (if masks_of choice.now table n then first.old + T.range of.now n else first.old)) }
    ensures parts { OnOk result (out.new.items ≡ out.old.items ++ (if masks_of choice.now table n then T.parts of.now first.old n else [])) }
{
    if choice.keeps(table, n) {
        let range = of.push(alloc, out, n, *first)?;
        *first = first.checked_add(range).ok_or(NoMemory)?;
    }
    Ok(())
}

/// What the kept rows of a table have in the image, in their order.
pub fn ranged_parts<T: RangedParts>(
    alloc: Global,
    choice: &FileChoice<'_>,
    table: Table,
    of: &T,
    count: u32,
) -> Result<Items<PartRow>, NoMemory>
    requires { count ≡ T.rows of.now }
    ensures { IfOk result (λ all. all ≡ parts_from (T.parts of.now) (T.range of.now) 0 (rows (masks_of choice.now table) count)) }
{
    let mut out = Vec::new(alloc);
    let mut first: u64 = 0;
    for n in 0..count {
        push_ranged(alloc, &mut out, &mut first, choice, table, of, n)?;
    }
    Ok(Items::from_vec(out))
}
