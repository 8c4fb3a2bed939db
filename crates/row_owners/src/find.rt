//! Spans of rows, and the first one in which each row lies.

ghost use Rattle.std.specs.Prelude.{◌≡◌, ℕ, ◌<◌, ◌^◌, IfOk, length, slice_get, Some};
ghost use Rattle.std.specs.Option.{option_map};
ghost use Rattle.assemblies.specs.Binding.{holds};
ghost use Rattle.row_owners.specs.Owners.{claimed, first_span};

use plain_types::fault::NoMemory;
use std::alloc::Global;

/// The rows of a type: the first, from 0, and how many.
#[derive(Clone, Copy)]
pub struct Span {
    pub first: u32,
    pub count: u32,
}

/// Gives a type the rows of its span that no type has so far.
fn claim(owners: &mut [Option<u32>], span: Span, n: u32)
    ensures size { length owners.new ≡ length owners.old }
    ensures each { (row : ℕ) → slice_get owners.new row ≡ option_map (λ o. claimed o (holds span.first span.count row) n) (slice_get owners.old row) }
{
    let first = span.first as usize;
    let end = owners.len().min(first + span.count as usize);
    for row in first..end {
        if owners[row].is_none() {
            owners[row] = Some(n);
        }
    }
}

/// For each of so many rows the first type in whose span it lies. A row is visited once for each type that has it.
pub fn find_owners(alloc: Global, spans: &[Span], count: u32) -> Result<Vec<Option<u32>>, NoMemory>
    requires { length spans.now < 2 ^ 32 }
    ensures size { IfOk result (λ owners. length owners.items ≡ count) }
    ensures each { IfOk result (λ owners. (row : ℕ) → row < count → slice_get owners.items row ≡ Some (first_span spans.now row)) }
{
    let mut owners = vec![in alloc; None; count as usize]?;
    for (n, span) in spans.iter().enumerate() {
        claim(&mut owners, *span, n as u32);
    }
    Ok(owners)
}
