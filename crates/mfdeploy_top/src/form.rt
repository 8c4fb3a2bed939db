//! The first form of a file.

ghost use Rattle.std.specs.Prelude.{◌≡◌, ◌≤◌, length, Ok, Err, MatchResult, IfOk, IfSome, IsSome, true};
ghost use Rattle.std.specs.Option.{option_copied};
ghost use Rattle.file_tables.specs.Streams.{is_root};
ghost use Rattle.tiny_interp.specs.Postfix.{first_value};
ghost use Rattle.mfdeploy_top.specs.FirstPath.{code_of};
ghost use Rattle.mfdeploy_top.specs.FirstForm.{is_first_header, is_first_method, is_first_signature, first_rva, first_body, first_method, first_code};

use cil_tables::{Tables, stream};
use file_tables::bytes::{has_bit, u16_at, u32_at};
use pe_reader::{Pe, metadata};
use plain_types::fault::{Fault, Place, WHOLE_FILE};
use tiny_interp::postfix::is_postfix;

/// Whether narrow heaps and the row counts of the first form stand in the header of `#~`.
#[tactic(auto, unfolding(crate::specs::FirstForm::is_first_header))]
fn is_first_header(tables: &[u8]) -> bool
    requires { 106 ≤ length tables.now }
    ensures { result ≡ is_first_header tables.now }
{
    tables[6] == 0
        && u32_at(tables, 8) == 0x47
        && u32_at(tables, 12) == 0x9
        && u32_at(tables, 24) == 1
        && u32_at(tables, 28) == 1
        && u32_at(tables, 32) == 2
        && u32_at(tables, 36) == 1
        && u32_at(tables, 40) == 1
        && u32_at(tables, 44) == 1
}

/// Whether the method is CIL, static, and neither virtual nor abstract nor of another platform.
#[tactic(auto, unfolding(crate::specs::FirstForm::is_first_method))]
fn is_first_method(tables: &[u8]) -> bool
    requires { 106 ≤ length tables.now }
    ensures { result ≡ is_first_method tables.now }
{
    let flags = u64::from(u16_at(tables, 98));
    u16_at(tables, 96) == 0
        && has_bit(flags, 4)
        && !has_bit(flags, 6)
        && !has_bit(flags, 10)
        && !has_bit(flags, 13)
}

/// Whether the method takes nothing and returns an `int32`.
#[tactic(auto, unfolding(crate::specs::FirstForm::is_first_signature))]
fn is_first_signature(tables: &[u8], blobs: &[u8]) -> bool
    requires { 106 ≤ length tables.now }
    ensures { result ≡ is_first_signature tables.now blobs.now }
{
    let at = usize::from(u16_at(tables, 102));
    match blobs.get(at..) {
        Some([0x03, 0x00, 0x00, 0x08, ..]) => true,
        _ => false,
    }
}

/// The RVA of the method's body, where the tables are those of the first form.
#[tactic(auto, unfolding(crate::specs::FirstForm::first_rva))]
fn first_rva(tables: &[u8], blobs: &[u8]) -> Option<u32>
    ensures { result ≡ first_rva tables.now blobs.now }
{
    if tables.len() >= 106
        && is_first_header(tables)
        && is_first_method(tables)
        && is_first_signature(tables, blobs)
    {
        Some(u32_at(tables, 92))
    } else {
        None
    }
}

/// The code of a tiny body at the front, where it is an expression of constants.
#[tactic(auto, unfolding(crate::specs::FirstForm::first_body))]
fn first_body(bytes: &[u8]) -> Option<&[u8]>
    ensures code { option_copied result ≡ first_body bytes.now }
    ensures expression { IfSome result (λ code. IsSome (first_value code.now)) }
{
    let (header, rest) = bytes.split_first()?;
    let size = usize::from(*header / 4);
    if *header % 4 != 2 || size > rest.len() {
        return None;
    }
    let code = &rest[..size];
    if is_postfix(code) { Some(code) } else { None }
}

/// The entry token of the first form: method 1.
const FIRST_METHOD: u32 = 0x0600_0001;

/// The body of the entry method, up to the end of its section.
#[tactic(auto, unfolding(crate::specs::FirstForm::first_method))]
fn first_method<'a>(pe: &Pe<'a>) -> Option<&'a [u8]>
    requires { is_root pe.now.region ≡ true }
    ensures { option_copied result ≡ first_method pe.now }
{
    if pe.entry() != FIRST_METHOD {
        return None;
    }
    let tables = stream(pe.region(), b"#~");
    let blobs = stream(pe.region(), b"#Blob");
    let rva = first_rva(tables, blobs)?;
    pe.tail(rva)
}

/// The expression of a file that has the first form.
#[tactic(auto, unfolding(crate::specs::FirstForm::first_code))]
fn first_code<'a>(pe: &Pe<'a>) -> Option<&'a [u8]>
    requires { is_root pe.now.region ≡ true }
    ensures code { option_copied result ≡ first_code pe.now }
    ensures expression { IfSome result (λ code. IsSome (first_value code.now)) }
{
    let body = first_method(pe)?;
    first_body(body)
}

/// The refusal of a file that breaks none of rules 1 to 13 and hasn't the first form.
const NOT_BUILT: Fault = Fault {
    rule: 99,
    place: Place {
        file: 0,
        table: WHOLE_FILE,
        row: 0,
        offset: 0,
    },
};

/// The expression of a file, or the first rule that it breaks: one of 1 to 13, or 99 where it hasn't the first form.
#[tactic(auto, using(crate::proofs::FormLemmas::root_is_kept), unfolding(crate::specs::FirstPath::code_of, file_tables::specs::File::file_of, file_tables::specs::File::after_pe, file_tables::specs::File::with_metadata))]
pub fn code_of(bytes: &[u8]) -> Result<&[u8], Fault>
    ensures code { MatchResult result (λ code. code_of bytes.now ≡ Ok code.now) (λ fault. code_of bytes.now ≡ Err fault) }
    ensures expression { IfOk result (λ code. IsSome (first_value code.now)) }
{
    let pe = metadata(bytes)?;
    let _tables = Tables::open(pe.region())?;
    match first_code(&pe) {
        Some(code) => Ok(code),
        None => Err(NOT_BUILT),
    }
}
