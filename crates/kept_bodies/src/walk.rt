//! The kept methods of a file with their bodies, one after the other.

ghost use Rattle.std.specs.Prelude.{◌≡◌, ◌<◌, ◌≤◌, ◌+◌, ◌*◌, ◌++◌, ℕ, List, Option, IfOk, OnOk};
ghost use Rattle.file_tables.specs.Metadata.{row_count};
ghost use Rattle.cil_code.specs.Bodies.{BodyPart};
ghost use Rattle.world_rows.specs.Tokens.{methods};
ghost use Rattle.looked_rows.specs.Looked.{file_with};
ghost use Rattle.row_numbers.specs.declared.table.Table.TheVariants as table;
ghost use Rattle.kept_marks.specs.Masks.{masks_of};
ghost use Rattle.kept_bodies.specs.Kept.{body_at};
ghost use Rattle.kept_bodies.specs.Walk.{parts_from};

use cil_code::Body;
use cil_rows::{MethodDefRow, read_row};
use cil_tables::Tables;
use file_tables::bytes::has_bit;
use file_tables::numbers::METHOD_DEF;
use kept_marks::FileChoice;
use looked_rows::read_body;
use pe_reader::{Pe, SectionCursor};
use plain_types::fault::NoMemory;
use plain_types::list::Items;
use row_numbers::Table;
use std::alloc::Global;

/// A list of the image of which each method of a file has some. What a method has may name a range of a further list, in which the
/// ranges lie one behind the other.
pub trait MethodParts {
    /// What the list is of.
    type Part: Drop;

    /// How many methods the file has.
    ghost count: { Self → ℕ };

    /// What the method of a number has in the list, with the first row of the range that it names and with its body.
    ghost parts: { Self → ℕ → ℕ → Option BodyPart → List Self.Part };

    /// How many rows the range of a method with such a body has.
    ghost range: { Self → Option BodyPart → ℕ };

    /// How many rows the range of a method with such a body has.
    fn range(&self, body: &Option<Body<'_>>) -> u32
        ensures { result ≡ range self.now body.now };

    /// Adds what a method has in the list, by its number from 0, the first row of its range and its body.
    fn push(
        &self,
        alloc: Global,
        out: &mut Vec<Self::Part>,
        n: u32,
        first: u64,
        body: &Option<Body<'_>>,
    ) -> Result<(), NoMemory>
        requires { n < count self.now }
        ensures { OnOk result (out.new.items ≡ out.old.items ++ parts self.now first n body.now) };
}

/// The body of a method, by its number from 0. An internal call has none (ECMA-335 II.23.1.11).
fn body_of<'a>(sections: &mut SectionCursor<'a>, tables: &Tables<'_>, n: u32) -> Option<Body<'a>>
    requires { n < row_count tables.now methods }
    ensures body { result ≡ body_at (file_with sections.old tables.now) n }
    ensures same { sections.new ≡ sections.old }
{
    let _few = tables.rows(METHOD_DEF);
    let row: MethodDefRow = read_row(tables, n + 1);
    if has_bit(u64::from(row.impl_flags), 12) {
        return None;
    }
    read_body(sections, tables, row.rva)
}

/// Adds what a method has in the list, and moves on behind its range.
fn push_method<T: MethodParts>(
    alloc: Global,
    out: &mut Vec<T::Part>,
    first: &mut u64,
    of: &T,
    n: u32,
    body: &Option<Body<'_>>,
) -> Result<(), NoMemory>
    requires few { n < T.count of.now }
    requires low { first.old ≤ n * 4294967295 }
    ensures next { OnOk result (first.new ≡ first.old + T.range of.now body.now) }
    ensures low { OnOk result (first.new ≤ (n + 1) * 4294967295) }
    ensures parts { OnOk result (out.new.items ≡ out.old.items ++ T.parts of.now first.old n body.now) }
{
    of.push(alloc, out, n, *first, body)?;
    *first += u64::from(of.range(body));
    Ok(())
}

/// What the kept methods of a file have in the list, in their order. Each body is read once.
pub fn all_parts<T: MethodParts>(
    alloc: Global,
    choice: &FileChoice<'_>,
    pe: &Pe<'_>,
    tables: &Tables<'_>,
    of: &T,
) -> Result<Items<T::Part>, NoMemory>
    requires { T.count of.now ≡ row_count tables.now methods }
    ensures { IfOk result (λ all. all ≡ parts_from (masks_of choice.now table.MethodDef) (λ first n. T.parts of.now first n (body_at (file_with pe.now tables.now) n)) (λ n. T.range of.now (body_at (file_with pe.now tables.now) n)) (row_count tables.now methods) 0 0) }
{
    let mut out = Vec::new(alloc);
    let mut first: u64 = 0;
    let mut sections = pe.cursor();
    for n in 0..tables.rows(METHOD_DEF) {
        if choice.keeps(Table::MethodDef, n) {
            let body = body_of(&mut sections, tables, n);
            push_method(alloc, &mut out, &mut first, of, n, &body)?;
        }
    }
    Ok(Items::from_vec(out))
}
