//! The codes of all kept methods.

ghost use Rattle.std.specs.Prelude.{◌≡◌, ℕ, List, [], ◌∷◌, ◌++◌, ◌<◌, true, Some, None, IfOk, IfErr, OnOk, if◌then◌else◌, map, slice_index_or, unsigned_abs};
ghost use Rattle.file_tables.specs.Metadata.{rows_of, row_count};
ghost use Rattle.world_rows.specs.Tokens.{methods};
ghost use Rattle.classes.specs.Queries.{first_some};
ghost use Rattle.kept_closure.specs.Named.{InOption};
ghost use Rattle.looked_rows.specs.Looked.{file_with};
ghost use Rattle.msspot_write.specs.Written.{codes_of as bytes_of};
ghost use Rattle.row_numbers.specs.declared.table.Table.TheVariants as table;
ghost use Rattle.kept_marks.specs.Masks.{masks_of};
ghost use Rattle.code_shrink.specs.Limits.{far_in, wide_in, IsRefused};
ghost use Rattle.code_shrink.specs.Shrunk.{CanShrink, shrunk_bytes};
ghost use Rattle.converted.specs.Bodies.{body_of, code_in};
ghost use Rattle.converted.specs.Over.{over_distances, over_switches};
ghost use Rattle.image_codes.specs.Codes.{codes_of_kept, AllCanShrink, IsPast, IsLeft};

use crate::body::method_body;
use crate::refusal::CodesRefusal;
use cil_code::Body;
use cil_tables::Tables;
use code_shrink::{Renumber, ShrinkRefusal, shrink};
use file_tables::numbers::METHOD_DEF;
use kept_marks::FileChoice;
use pe_reader::{Pe, SectionCursor};
use plain_types::fault::NoMemory;
use row_numbers::Table;
use std::alloc::Global;

/// The codes that were shortened, and the targets of the first switch that has too many, if one was met.
#[derive(Drop)]
pub struct Shrunk {
    codes: Vec<Vec<u8>>,
    wide: Option<u32>,
}

/// A copy of bytes.
fn copied(alloc: Global, bytes: &[u8]) -> Result<Vec<u8>, NoMemory>
    ensures { IfOk result (λ copy. copy.items ≡ bytes.now) }
{
    Ok(Vec::from_slice(alloc, bytes)?)
}

/// The shortened code of a method; one without a body has none.
fn shrink_body<R: Renumber>(
    alloc: Global,
    body: &Option<Body<'_>>,
    renumber: &R,
) -> Result<Vec<u8>, ShrinkRefusal>
    requires { InOption (λ b. CanShrink b.code) body.now }
    ensures near { OnOk result (far_in (code_in body.now) ≡ None) }
    ensures few { OnOk result (wide_in (code_in body.now) ≡ None) }
    ensures code { IfOk result (λ code. code.items ≡ shrunk_bytes (R.numbered renumber.now) (code_in body.now)) }
    ensures refused { IfErr result (IsRefused (code_in body.now)) }
{
    match body {
        Some(body) => {
            let tiny = shrink(alloc, body, renumber)?;
            Ok(copied(alloc, tiny.code())?)
        }
        None => Ok(Vec::new(alloc)),
    }
}

/// Adds a code.
fn push_code(codes: &mut Vec<Vec<u8>>, code: Vec<u8>) -> Result<(), NoMemory>
    ensures { OnOk result (codes.new.items ≡ codes.old.items ++ code ∷ []) }
{
    codes.push(code)?;
    Ok(())
}

impl Shrunk {
    /// Adds the code of the next method, or notes that a switch of it has too many targets; an error is that a distance is outside.
    fn add<R: Renumber>(
        &mut self,
        alloc: Global,
        body: &Option<Body<'_>>,
        renumber: &R,
    ) -> Result<(), CodesRefusal>
        requires { InOption (λ b. CanShrink b.code) body.now }
        ensures left { OnOk result ((rest whole : List (List ℕ)) → IsLeft (R.numbered renumber.now) self.old (code_in body.now ∷ rest) whole → IsLeft (R.numbered renumber.now) self.new rest whole) }
        ensures past { IfErr result (λ refusal. (rest whole : List (List ℕ)) (f : ℕ) → IsLeft (R.numbered renumber.now) self.old (code_in body.now ∷ rest) whole → IsPast f whole refusal) }
    {
        match shrink_body(alloc, body, renumber) {
            Ok(code) => {
                push_code(&mut self.codes, code)?;
            }
            Err(ShrinkRefusal::Branch { distance }) => {
                return Err(CodesRefusal::Distance {
                    size: distance.unsigned_abs(),
                });
            }
            Err(ShrinkRefusal::Switch { targets }) => {
                self.wide = self.wide.or(Some(targets));
            }
            Err(ShrinkRefusal::NoMemory) => return Err(CodesRefusal::NoMemory),
        }
        Ok(())
    }

    /// The codes, where no switch has too many targets.
    fn finish(self) -> Result<Vec<Vec<u8>>, CodesRefusal>
        ensures codes { IfOk result (λ codes. (token : ℕ → ℕ) (whole : List (List ℕ)) → IsLeft token self [] whole → bytes_of codes.items ≡ map (shrunk_bytes token) whole) }
        ensures near { OnOk result ((token : ℕ → ℕ) (whole : List (List ℕ)) (f : ℕ) → IsLeft token self [] whole → over_distances f whole ≡ None) }
        ensures few { OnOk result ((token : ℕ → ℕ) (whole : List (List ℕ)) (f : ℕ) → IsLeft token self [] whole → over_switches f whole ≡ None) }
        ensures past { IfErr result (λ refusal. (token : ℕ → ℕ) (whole : List (List ℕ)) (f : ℕ) → IsLeft token self [] whole → IsPast f whole refusal) }
    {
        match self.wide {
            Some(targets) => Err(CodesRefusal::Switch { targets }),
            None => Ok(self.codes),
        }
    }
}

/// Adds the code of the method of a row, if it is kept.
fn add_row<R: Renumber>(
    alloc: Global,
    found: &mut Shrunk,
    choice: &FileChoice<'_>,
    tables: &Tables<'_>,
    sections: &mut SectionCursor<'_>,
    renumber: &R,
    n: u32,
) -> Result<(), CodesRefusal>
    requires row { n < row_count tables.now methods }
    requires sound { AllCanShrink (masks_of choice.now) (file_with sections.old tables.now) }
    ensures left { OnOk result ((rest whole : List (List ℕ)) → IsLeft (R.numbered renumber.now) found.old (if masks_of choice.now table.MethodDef n then code_in (body_of (file_with sections.old tables.now) (slice_index_or (rows_of tables.now methods) n [])) ∷ rest else rest) whole → IsLeft (R.numbered renumber.now) found.new rest whole) }
    ensures past { IfErr result (λ refusal. (rest whole : List (List ℕ)) (f : ℕ) → IsLeft (R.numbered renumber.now) found.old (if masks_of choice.now table.MethodDef n then code_in (body_of (file_with sections.old tables.now) (slice_index_or (rows_of tables.now methods) n [])) ∷ rest else rest) whole → IsPast f whole refusal) }
    ensures same { sections.new ≡ sections.old }
{
    if !choice.keeps(Table::MethodDef, n) {
        return Ok(());
    }
    let body = method_body(sections, tables, n);
    found.add(alloc, &body, renumber)
}

/// The codes of a file's kept methods with operands of 16 bits, in the order of their rows: each token is the number that `renumber` gives
/// it, each distance leads to where its target comes to lie. A method without a body has no code.
///
/// Their code has to break no rule of opcodes and ends (ECMA-335 III.1.7.2), and each branch and switch of it has to lead to instructions.
///
/// `Distance` exactly where a distance of a long branch or a switch comes to lie outside -32,768 to 32,767, `Switch` exactly where none
/// does, but a switch has more than 255 targets; of both the first, by method and offset. In the time of the bytes of code.
pub fn image_codes<R: Renumber>(
    alloc: Global,
    choice: &FileChoice<'_>,
    tables: &Tables<'_>,
    pe: &Pe<'_>,
    renumber: &R,
) -> Result<Vec<Vec<u8>>, CodesRefusal>
    requires { AllCanShrink (masks_of choice.now) (file_with pe.now tables.now) }
    ensures codes { IfOk result (λ codes. bytes_of codes.items ≡ map (shrunk_bytes (R.numbered renumber.now)) (codes_of_kept (masks_of choice.now) (file_with pe.now tables.now))) }
    ensures near { OnOk result ((f : ℕ) → over_distances f (codes_of_kept (masks_of choice.now) (file_with pe.now tables.now)) ≡ None) }
    ensures few { OnOk result ((f : ℕ) → over_switches f (codes_of_kept (masks_of choice.now) (file_with pe.now tables.now)) ≡ None) }
    ensures past { IfErr result (λ refusal. (f : ℕ) → IsPast f (codes_of_kept (masks_of choice.now) (file_with pe.now tables.now)) refusal) }
{
    let mut found = Shrunk {
        codes: Vec::new(alloc),
        wide: None,
    };
    let mut sections = pe.cursor();
    for n in 0..tables.rows(METHOD_DEF) {
        match add_row(
            alloc,
            &mut found,
            choice,
            tables,
            &mut sections,
            renumber,
            n,
        ) {
            Ok(()) => {}
            Err(refusal) => return Err(refusal),
        }
    }
    found.finish()
}
