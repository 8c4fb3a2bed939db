//! The literals that a file's kept methods load (ECMA-335 III.4.16).

ghost use Rattle.std.specs.Prelude.{◌≡◌, ◌<◌, ◌^◌, ◌%◌, ◌++◌, Some, IfOk, IfSome, OnOk, length};
ghost use Rattle.std.specs.Option.{option_copied};
ghost use Rattle.file_tables.specs.Metadata.{row_count};
ghost use Rattle.kept_rows.specs.Select.{below};
ghost use Rattle.cil_code.specs.Walk.{instructions_of};
ghost use Rattle.assemblies.specs.Rows.{RawText};
ghost use Rattle.code_shrink.specs.Starts.{way};
ghost use Rattle.world_rows.specs.Tokens.{methods};
ghost use Rattle.world_rows.specs.Lines.{literal, raw_text, units_from};
ghost use Rattle.looked_rows.specs.Looked.{file_with};
ghost use Rattle.msspot_write.specs.Spelt.{operand_parts};
ghost use Rattle.row_numbers.specs.declared.table.Table.TheVariants as table;
ghost use Rattle.kept_marks.specs.Masks.{Masks, masks_of};
ghost use Rattle.kept_bodies.specs.Literals.{loaded_by, literals_of, literals_made, literal_rows};

use crate::walk::{MethodParts, all_parts};
use cil_code::{Body, Instr, instruction};
use cil_opcodes::{Operand, row};
use cil_tables::Tables;
use code_shrink::ShortPlaces;
use kept_marks::FileChoice;
use msspot_write::PartLiteral;
use pe_reader::Pe;
use plain_types::fault::NoMemory;
use plain_types::list::Items;
use row_numbers::Table;
use std::alloc::Global;

/// The first byte of a literal's token (ECMA-335 II.24.2.4, III.4.16).
const LITERALS: u64 = 0x70;

/// The bytes of the literal that a token names, if it names one.
#[tactic(auto, using(crate::proofs::LiteralLaws::even_text))]
fn text<'a>(tables: &Tables<'a>, token: u64) -> Option<&'a [u8]>
    ensures text { raw_text (option_copied result) ≡ literal tables.now token }
    ensures even { IfSome result (λ bytes. length bytes.now % 2 ≡ 0) }
{
    if token / 0x100_0000 == LITERALS {
        tables.user_string((token % 0x100_0000) as u32)
    } else {
        None
    }
}

/// The bytes of the literal that an instruction loads, if it loads one.
#[tactic(auto, using(crate::proofs::LiteralLaws::other_operand))]
fn loaded<'a>(tables: &Tables<'a>, instr: &Instr) -> Option<&'a [u8]>
    ensures text { raw_text (option_copied result) ≡ loaded_by tables.now instr.now }
    ensures even { IfSome result (λ bytes. length bytes.now % 2 ≡ 0) }
{
    let row = row(instr.op)?;
    match row.operand {
        Operand::StringToken => text(tables, instr.operand.unsigned_abs()),
        _ => None,
    }
}

/// Adds a literal, by its units' bytes.
fn push_text(
    alloc: Global,
    out: &mut Vec<PartLiteral>,
    method: u32,
    offset: u32,
    bytes: &[u8],
) -> Result<(), NoMemory>
    requires { length bytes.now % 2 ≡ 0 }
    ensures { OnOk result (out.new.items ≡ out.old.items ++ operand_parts method offset (RawText (units_from bytes.now))) }
{
    let text = Vec::from_slice(alloc, bytes)?;
    out.push(PartLiteral {
        method,
        offset,
        text: Items::from_vec(text),
    })?;
    Ok(())
}

/// Adds the literal that an instruction loads, if it loads one.
fn push_loaded(
    alloc: Global,
    out: &mut Vec<PartLiteral>,
    tables: &Tables<'_>,
    method: u32,
    offset: u32,
    instr: &Instr,
) -> Result<(), NoMemory>
    ensures { OnOk result (out.new.items ≡ out.old.items ++ operand_parts method offset (loaded_by tables.now instr.now)) }
{
    match loaded(tables, instr) {
        Some(bytes) => push_text(alloc, out, method, offset, bytes),
        None => Ok(()),
    }
}

/// Adds the literals that code loads.
fn push_of_code(
    alloc: Global,
    out: &mut Vec<PartLiteral>,
    tables: &Tables<'_>,
    method: u32,
    places: &ShortPlaces,
    code: &[u8],
) -> Result<(), NoMemory>
    requires { length code.now < 2 ^ 32 }
    ensures { OnOk result (out.new.items ≡ out.old.items ++ literals_of tables.now method (way places.now) (instructions_of code.now)) }
{
    let mut at: u32 = 0;
    'walk: while (at as usize) < code.len() {
        let Ok(instr) = instruction(code, at) else {
            return Ok(());
        };
        push_loaded(alloc, out, tables, method, places.short(at), &instr)?;
        at += instr.length;
    }
    Ok(())
}

/// Adds the literals that a body loads.
fn push_of_body(
    alloc: Global,
    out: &mut Vec<PartLiteral>,
    tables: &Tables<'_>,
    method: u32,
    body: &Body<'_>,
) -> Result<(), NoMemory>
    ensures { (kept : Masks) → OnOk result (out.new.items ≡ out.old.items ++ literals_made kept tables.now method (Some body.now)) }
{
    let _few = body.code_size();
    let places = ShortPlaces::new(alloc, body.code())?;
    push_of_code(alloc, out, tables, method, &places, body.code())
}

/// The literals of the methods of a file.
#[derive(Drop)]
struct Literals<'k, 't, 'a> {
    choice: &'t FileChoice<'k>,
    tables: &'t Tables<'a>,
}

impl<'k, 't, 'a> MethodParts for Literals<'k, 't, 'a> {
    type Part = PartLiteral;

    ghost count = { λ l. row_count l.tables.now methods };

    ghost parts = { λ l first n. literals_made (masks_of l.choice.now) l.tables.now (below (masks_of l.choice.now table.MethodDef) n) };

    ghost range = { λ l body. 0 };

    fn range(&self, _body: &Option<Body<'_>>) -> u32 {
        0
    }

    fn push(
        &self,
        alloc: Global,
        out: &mut Vec<PartLiteral>,
        n: u32,
        _first: u64,
        body: &Option<Body<'_>>,
    ) -> Result<(), NoMemory> {
        let method = self.choice.below(Table::MethodDef, u64::from(n));
        match body {
            Some(body) => push_of_body(alloc, out, self.tables, method, body),
            None => Ok(()),
        }
    }
}

/// For each literal that a kept method loads (ECMA-335 III.4.16), by method and offset, the method's number among the kept ones,
/// where the instruction stands in the shortened code, and the literal's units in UTF-16, each as two bytes with the lowest first.
pub fn literal_parts(
    alloc: Global,
    choice: &FileChoice<'_>,
    pe: &Pe<'_>,
    tables: &Tables<'_>,
) -> Result<Items<PartLiteral>, NoMemory>
    ensures { IfOk result (λ parts. parts ≡ literal_rows (masks_of choice.now) (file_with pe.now tables.now)) }
{
    let literals = Literals { choice, tables };
    all_parts(alloc, choice, pe, tables, &literals)
}
