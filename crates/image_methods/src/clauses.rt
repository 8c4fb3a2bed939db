//! The exception clauses of a file's kept methods (ECMA-335 II.25.4.6).

ghost use Rattle.std.specs.Prelude.{◌≡◌, ◌++◌, Some, IfOk, OnOk, [], ◌∷◌, map};
ghost use Rattle.assemblies.specs.Chosen.{kind_to};
ghost use Rattle.file_tables.specs.Metadata.{row_count};
ghost use Rattle.world_rows.specs.Tokens.{methods};
ghost use Rattle.world_rows.specs.Lines.{raw_kind};
ghost use Rattle.code_shrink.specs.Starts.{way};
ghost use Rattle.looked_rows.specs.Looked.{file_with};
ghost use Rattle.msspot_write.specs.Spelt.{clause_numbers};
ghost use Rattle.kept_marks.specs.Masks.{choice_of_rows, masks_of};
ghost use Rattle.image_methods.specs.Methods.{clause_made, clauses_made, clause_rows};

use cil_code::{Body, Clause};
use cil_tables::Tables;
use code_shrink::ShortPlaces;
use image_rows::columns::{number, push_numbers};
use image_signatures::type_word;
use kept_bodies::{MethodParts, all_parts};
use kept_marks::FileChoice;
use msspot_write::PartRow;
use pe_reader::Pe;
use plain_types::fault::NoMemory;
use plain_types::list::Items;
use std::alloc::Global;
use type_names::split_token;

/// The class of a clause that catches none.
const NO_CLASS: u64 = 0xFFFF;

/// The kind of a clause in the image, 0 a catch, 1 neither a catch nor a finally, 2 a finally; and the class that it catches.
#[tactic(auto, using(crate::proofs::ClauseLaws::catch_numbers, crate::proofs::ClauseLaws::finally_numbers, crate::proofs::ClauseLaws::other_numbers))]
fn kind_numbers(choice: &FileChoice<'_>, tables: &Tables<'_>, clause: &Clause) -> [u64; 2]
    ensures { result ≡ clause_numbers (kind_to (choice_of_rows (masks_of choice.now)) (raw_kind tables.now clause.now.kind clause.now.token)) [] }
{
    match clause.kind {
        0 => [0, type_word(choice, tables, split_token(clause.token))],
        2 => [2, NO_CLASS],
        _ => [1, NO_CLASS],
    }
}

/// What a clause is in the image.
#[tactic(auto, using(crate::proofs::ClauseLaws::clause_columns))]
fn clause_part(
    alloc: Global,
    choice: &FileChoice<'_>,
    tables: &Tables<'_>,
    places: &ShortPlaces,
    clause: &Clause,
) -> Result<PartRow, NoMemory>
    ensures { IfOk result (λ p. p ≡ clause_made (masks_of choice.now) tables.now (way places.now) clause.now) }
{
    let [kind, class] = kind_numbers(choice, tables, clause);
    let regions = [
        u64::from(places.short(clause.try_start)),
        u64::from(places.short(clause.try_end)),
        u64::from(places.short(clause.start)),
        u64::from(places.short(clause.end)),
    ];
    let mut columns = Vec::with_capacity(alloc, 6)?;
    columns.push(number(kind))?;
    columns.push(number(class))?;
    push_numbers(&mut columns, &regions)?;
    Ok(PartRow {
        columns: Items::from_vec(columns),
    })
}

/// Adds what clauses are in the image.
fn push_clauses(
    alloc: Global,
    out: &mut Vec<PartRow>,
    choice: &FileChoice<'_>,
    tables: &Tables<'_>,
    places: &ShortPlaces,
    clauses: &[Clause],
) -> Result<(), NoMemory>
    ensures { OnOk result (out.new.items ≡ out.old.items ++ map (clause_made (masks_of choice.now) tables.now (way places.now)) clauses.now) }
{
    for clause in clauses {
        out.push(clause_part(alloc, choice, tables, places, clause)?)?;
    }
    Ok(())
}

/// Adds the clauses of a body, whose code is walked over if it has any.
#[tactic(auto, using(crate::proofs::ClauseLaws::body_clauses))]
fn push_of_body(
    alloc: Global,
    out: &mut Vec<PartRow>,
    choice: &FileChoice<'_>,
    tables: &Tables<'_>,
    body: &Body<'_>,
) -> Result<(), NoMemory>
    ensures { OnOk result (out.new.items ≡ out.old.items ++ clauses_made (masks_of choice.now) tables.now (Some body.now)) }
{
    let clauses = body.clauses(alloc)?;
    if clauses.as_slice().is_empty() {
        return Ok(());
    }
    let _few = body.code_size();
    let places = ShortPlaces::new(alloc, body.code())?;
    push_clauses(alloc, out, choice, tables, &places, clauses.as_slice())
}

/// The clauses of the methods of a file.
#[derive(Drop)]
struct Clauses<'k, 't, 'a> {
    choice: &'t FileChoice<'k>,
    tables: &'t Tables<'a>,
}

impl<'k, 't, 'a> MethodParts for Clauses<'k, 't, 'a> {
    type Part = PartRow;

    ghost count = { λ c. row_count c.tables.now methods };

    ghost parts = { λ c first n. clauses_made (masks_of c.choice.now) c.tables.now };

    ghost range = { λ c body. 0 };

    fn range(&self, _body: &Option<Body<'_>>) -> u32 {
        0
    }

    fn push(
        &self,
        alloc: Global,
        out: &mut Vec<PartRow>,
        _n: u32,
        _first: u64,
        body: &Option<Body<'_>>,
    ) -> Result<(), NoMemory> {
        match body {
            Some(body) => push_of_body(alloc, out, self.choice, self.tables, body),
            None => Ok(()),
        }
    }
}

/// For each exception clause (ECMA-335 II.25.4.6) of each kept method its kind, the class that it catches, and its regions in the
/// shortened code.
pub fn clause_parts(
    alloc: Global,
    choice: &FileChoice<'_>,
    pe: &Pe<'_>,
    tables: &Tables<'_>,
) -> Result<Items<PartRow>, NoMemory>
    ensures { IfOk result (λ parts. parts ≡ clause_rows (masks_of choice.now) (file_with pe.now tables.now)) }
{
    let clauses = Clauses { choice, tables };
    all_parts(alloc, choice, pe, tables, &clauses)
}
