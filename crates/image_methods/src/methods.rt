//! The kept methods of a file (ECMA-335 II.22.26, II.25.4).

ghost use Rattle.std.specs.Prelude.{◌≡◌, ◌<◌, ◌++◌, ◌==◌, not, if◌then◌else◌, IfOk, OnOk, [], ◌∷◌, length, map, slice_get};
ghost use Rattle.std.specs.Option.{option_map_or};
ghost use Rattle.file_tables.specs.Metadata.{row_count, column_of};
ghost use Rattle.cil_code.specs.Bodies.{BodyPart};
ghost use Rattle.machine.specs.Program.{Body as ABody};
ghost use Rattle.assemblies.specs.Chosen.{raw_to, first_of};
ghost use Rattle.image_form.specs.Form.{method_flags};
ghost use Rattle.world_rows.specs.Tokens.{methods, locals_signatures, number_of, bytes_at};
ghost use Rattle.world_rows.specs.Lines.{locals_of};
ghost use Rattle.looked_rows.specs.Looked.{file_with};
ghost use Rattle.class_table.specs.Seen.{native_seen, body_seen};
ghost use Rattle.converted.specs.Bodies.{manner_in};
ghost use Rattle.converted.specs.Images.{column_cut};
ghost use Rattle.msspot_write.specs.Spelt.{numbers, locals_column, body_columns};
ghost use Rattle.kept_marks.specs.Masks.{choice_of_rows, masks_of};
ghost use Rattle.kept_bodies.specs.Kept.{code_kept, kept_code};
ghost use Rattle.image_methods.specs.Methods.{signature_at, method_made, part_made, method_rows};
ghost use Rattle.image_methods.specs.Columns.{native_of, code_columns};

use cil_code::Body;
use cil_rows::{MethodDefRow, StandAloneSigRow, find_row, read_row};
use cil_tables::Tables;
use class_table::{Body as Run, MethodRow};
use file_tables::numbers::METHOD_DEF;
use image_rows::columns::{blob, number, push_numbers, text_name};
use image_signatures::{locals_bytes, method_bytes};
use kept_bodies::{MethodParts, all_parts};
use kept_marks::FileChoice;
use msspot_write::{Column, PartRow};
use pe_reader::Pe;
use plain_types::fault::NoMemory;
use plain_types::list::Items;
use std::alloc::Global;

/// The greatest number of a native of the base library.
const LAST_NATIVE: u16 = 17;

/// The number that stands for no code and no signature.
const NONE: u32 = 0xFFFF;

/// The native of a number, if there is one.
#[tactic(auto, using(crate::proofs::NativeLaws::no_native, crate::proofs::NativeLaws::one_native, crate::proofs::NativeLaws::past_native))]
fn numbered(number: u16) -> Option<u16>
    ensures { result ≡ native_of (native_seen number) }
{
    if number == 0 {
        return None;
    }
    if number <= LAST_NATIVE {
        Some(number)
    } else {
        None
    }
}

/// The number of the native that runs, if one does.
fn native(run: Run) -> Option<u16>
    ensures { result ≡ native_of (body_seen run) }
{
    match run {
        Run::Native(number) => numbered(number),
        Run::Code | Run::Missing => None,
    }
}

/// The flags of a method: static, virtual, newslot, abstract and native, from the lowest bit on.
fn flags(row: &MethodRow<'_>, is_native: bool) -> u64
    ensures { result ≡ method_flags row.now.is_static row.now.is_virtual row.now.is_newslot row.now.is_abstract is_native }
{
    u64::from(row.is_static)
        + 2 * u64::from(row.is_virtual)
        + 4 * u64::from(row.is_newslot)
        + 8 * u64::from(row.is_abstract)
        + 16 * u64::from(is_native)
}

/// Where the signature of a token of locals stands; that of no row of StandAloneSig stands at 0 (ECMA-335 II.22.36).
fn locals_blob(tables: &Tables<'_>, token: u32) -> u32
    ensures { result ≡ column_of tables.now locals_signatures (number_of token) 0 }
{
    match find_row::<StandAloneSigRow>(tables, token % 0x100_0000) {
        Some(row) => row.signature,
        None => 0,
    }
}

/// The signature of locals, by its token; 0 is that of none.
fn locals(
    alloc: Global,
    choice: &FileChoice<'_>,
    tables: &Tables<'_>,
    token: u32,
) -> Result<Column, NoMemory>
    ensures { IfOk result (λ c. c ≡ column_cut (locals_column (not (token == 0)) (map (raw_to (choice_of_rows (masks_of choice.now))) (locals_of tables.now token)))) }
{
    if token == 0 {
        return Ok(number(u64::from(NONE)));
    }
    let bytes = locals_bytes(
        alloc,
        choice,
        tables,
        blob(tables, locals_blob(tables, token)),
    )?;
    Ok(Column::Signature(bytes))
}

/// Adds what stands for the body of a method without code, which has a number for the start of its code.
fn push_without_code(columns: &mut Vec<Column>, start: u32) -> Result<(), NoMemory>
    ensures { OnOk result (columns.new.items ≡ columns.old.items ++ map column_cut (numbers (start ∷ 0 ∷ 65535 ∷ 0 ∷ 0 ∷ 0 ∷ []))) }
{
    push_numbers(columns, &[u64::from(start), 0, u64::from(NONE), 0, 0, 0])
}

/// Where a range begins; one without rows begins at 0.
fn range_start(first: u64, count: u32) -> u64
    ensures { result ≡ first_of first count }
{
    if count == 0 { 0 } else { first }
}

/// Adds what stands for a body: its code, locals and stack, and the range of its clauses.
fn push_code(
    alloc: Global,
    columns: &mut Vec<Column>,
    choice: &FileChoice<'_>,
    tables: &Tables<'_>,
    first: u64,
    body: &Body<'_>,
) -> Result<(), NoMemory>
    ensures { OnOk result (columns.new.items ≡ columns.old.items ++ map column_cut (code_columns first (not (body.now.locals_token == 0)) (kept_code (masks_of choice.now) tables.now body.now))) }
{
    let clauses = body.clause_count();
    columns.push(Column::Code)?;
    columns.push(Column::Code)?;
    columns.push(locals(alloc, choice, tables, body.locals_token())?)?;
    columns.push(number(u64::from(body.max_stack())))?;
    columns.push(number(range_start(first, clauses)))?;
    columns.push(number(u64::from(clauses)))?;
    Ok(())
}

/// Adds what stands for what a method runs: a native has its number, and one without a body nothing.
fn push_body(
    alloc: Global,
    columns: &mut Vec<Column>,
    choice: &FileChoice<'_>,
    tables: &Tables<'_>,
    native: Option<u16>,
    first: u64,
    body: &Option<Body<'_>>,
) -> Result<(), NoMemory>
    ensures { (run : ABody) → native ≡ native_of run → OnOk result (columns.new.items ≡ columns.old.items ++ map column_cut (body_columns first (manner_in body.now) run (code_kept (masks_of choice.now) tables.now body.now))) }
{
    if let Some(number) = native {
        return push_without_code(columns, u32::from(number));
    }
    match body {
        Some(body) => push_code(alloc, columns, choice, tables, first, body),
        None => push_without_code(columns, NONE),
    }
}

/// What a method is in the image, with the first row of its clauses.
fn method_part(
    alloc: Global,
    choice: &FileChoice<'_>,
    tables: &Tables<'_>,
    row: &MethodRow<'_>,
    signature: u32,
    first: u64,
    body: &Option<Body<'_>>,
) -> Result<PartRow, NoMemory>
    ensures { IfOk result (λ p. p ≡ part_made first (method_made (masks_of choice.now) tables.now row.now (bytes_at tables.now signature) body.now)) }
{
    let native = native(row.body);
    let bytes = method_bytes(alloc, choice, tables, blob(tables, signature))?;
    let mut columns = Vec::with_capacity(alloc, 9)?;
    columns.push(text_name(alloc, row.name)?)?;
    columns.push(Column::Signature(bytes))?;
    columns.push(number(flags(row, native.is_some())))?;
    push_body(alloc, &mut columns, choice, tables, native, first, body)?;
    Ok(PartRow {
        columns: Items::from_vec(columns),
    })
}

/// The methods of a file.
#[derive(Drop)]
struct Methods<'k, 't, 'a> {
    choice: &'t FileChoice<'k>,
    tables: &'t Tables<'a>,
    rows: &'t [MethodRow<'a>],
}

impl<'k, 't, 'a> MethodParts for Methods<'k, 't, 'a> {
    type Part = PartRow;

    ghost count = { λ of. row_count of.tables.now methods };

    ghost parts = { λ of first n body. option_map_or (λ c. part_made first (method_made (masks_of of.choice.now) of.tables.now c (signature_at of.tables.now n) body) ∷ []) (slice_get of.rows.now n) [] };

    ghost range = { λ of body. option_map_or (λ (b : BodyPart). length b.clauses) body 0 };

    fn range(&self, body: &Option<Body<'_>>) -> u32 {
        match body {
            Some(body) => body.clause_count(),
            None => 0,
        }
    }

    fn push(
        &self,
        alloc: Global,
        out: &mut Vec<PartRow>,
        n: u32,
        first: u64,
        body: &Option<Body<'_>>,
    ) -> Result<(), NoMemory> {
        let Some(row) = self.rows.get(n as usize) else {
            return Ok(());
        };
        let _few = self.tables.rows(METHOD_DEF);
        let columns: MethodDefRow = read_row(self.tables, n + 1);
        let part = method_part(
            alloc,
            self.choice,
            self.tables,
            row,
            columns.signature,
            first,
            body,
        )?;
        out.push(part)?;
        Ok(())
    }
}

/// For each kept method (ECMA-335 II.22.26) its name, signature and flags, and its body: code, locals, stack and the range of its
/// clauses, which lie in the order of the methods. A native has its number where others have the start of their code, and a method
/// without a body 0xFFFF. The rows of the table of classes have to be those of the file.
pub fn method_parts(
    alloc: Global,
    choice: &FileChoice<'_>,
    pe: &Pe<'_>,
    tables: &Tables<'_>,
    rows: &[MethodRow<'_>],
) -> Result<Items<PartRow>, NoMemory>
    requires { length rows.now ≡ row_count tables.now methods }
    ensures { IfOk result (λ parts. parts ≡ method_rows (masks_of choice.now) (file_with pe.now tables.now) rows.now) }
{
    let of = Methods {
        choice,
        tables,
        rows,
    };
    all_parts(alloc, choice, pe, tables, &of)
}
