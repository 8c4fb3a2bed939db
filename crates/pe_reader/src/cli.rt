//! The CLI header (ECMA-335 II.25.3.3), and the rules on it.

ghost use Rattle.std.specs.Prelude.{◌≡◌, Some, IfOk, IfErr};
ghost use Rattle.file_tables.specs.Pe as pe;
ghost use Rattle.file_tables.specs.Rules.{first_broken};
ghost use Rattle.pe_reader.specs.Headers.{HasHeaders, HasCliHeader};

use crate::header::{Headers, broken};
use crate::section::place_of_range;
use file_tables::bytes::{has_bit, u32_at};
use plain_types::fault::Fault;

/// The size of the CLI header.
const CLI_SIZE: u32 = 72;

/// The first broken rule of 5 and 6, or where the CLI header stands.
#[tactic(auto, unfolding(file_tables::specs::Pe::pe_rules, file_tables::specs::Pe::sections_of, file_tables::specs::Pe::file_place, file_tables::specs::Pe::cli_directory, file_tables::specs::Pe::cli_place, file_tables::specs::Pe::cli_header, file_tables::specs::Pe::has_cli_header, file_tables::specs::Pe::is_il_only))]
pub fn cli_header(file: &[u8], headers: &Headers) -> Result<usize, Fault>
    requires { HasHeaders file.now headers.now }
    ensures broken { IfErr result (λ fault. first_broken (pe.pe_rules file.now) ≡ Some fault) }
    ensures kept { IfOk result (HasCliHeader file.now) }
{
    let directory = headers.optional + 208;
    let rva = u32_at(file, directory);
    let size = u32_at(file, directory + 4);
    let Some(at) = place_of_range(file, headers.sections, headers.count, rva, CLI_SIZE) else {
        return Err(broken(5, directory));
    };
    if size < CLI_SIZE {
        return Err(broken(5, directory));
    }
    let flags = u32_at(file, at + 16) as u64;
    if !has_bit(flags, 0) || has_bit(flags, 4) {
        return Err(broken(6, at + 16));
    }
    Ok(at)
}
