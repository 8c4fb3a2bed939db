//! Rule 9: the stream headers (ECMA-335 II.24.2.2).

ghost use Rattle.std.specs.Prelude.{◌≡◌, ℕ, ◌+◌, ◌*◌, ◌/◌, ◌<◌, ◌≤◌, ◌^◌, length, [], Some, None, IsTrue, IfErr, OnOk, MatchOption, min};
ghost use Rattle.std.specs.List.Sorted.{IsPermutation, IsSortedBy, IsStrictlyIncreasing};
ghost use Rattle.std.specs.Ordering.{is_lt};
ghost use Rattle.file_tables.specs.Streams as streams;
ghost use Rattle.file_tables.specs.Rules.{first_broken};
ghost use Rattle.cil_tables.specs.Place.{HasRoot};
ghost use Rattle.cil_tables.specs.Headers.{name_of, fits, header_order, AreAllNoted, Repeats, IsFirstRepeat, LeastBelow};

use crate::fault::broken;
use crate::root::{Headers, name_at, next_header};
use crate::view::four;
use plain_types::fault::Fault;
use std::cmp::Ordering;

/// So many headers are tested in a small table.
const FEW: usize = 16;

/// The most stream headers that a root can count.
const MOST: usize = 65535;

/// How many headers were noted, and where the next one begins.
#[derive(Clone, Copy)]
struct Noted {
    count: usize,
    next: usize,
}

/// Rule 9 for the header at an offset, whatever the others are named.
#[tactic(auto, unfolding(crate::specs::Headers::fits, file_tables::specs::Streams::stream_at, file_tables::specs::Streams::header_end))]
fn is_inside(region: &[u8], at: usize, name: &[u8]) -> bool
    requires small { length region.now < 2 ^ 32 }
    requires place { at ≤ length region.now }
    requires named { name.now ≡ (streams.stream_at region.now at).name }
    ensures answer { result ≡ fits region.now at }
    ensures within { IsTrue result → at + 12 + 4 * (length name.now / 4) ≤ length region.now }
{
    let end = four(region, at) as usize + four(region, at + 4) as usize;
    next_header(at, name) <= region.len() && name.len() <= 32 && end <= region.len()
}

/// Notes where the headers begin, up to the first that breaks rule 9 whatever the others are named.
fn note_headers(region: &[u8], headers: &Headers, starts: &mut [u32]) -> Noted
    requires small { length region.now < 2 ^ 32 }
    requires root { HasRoot region.now headers.now }
    requires room { headers.now.count ≤ length starts.old }
    ensures { AreAllNoted region.now headers.now starts.new result }
{
    let mut at = headers.first;
    for k in 0..headers.count as usize {
        let name = name_at(region, at);
        if !is_inside(region, at, name) {
            return Noted { count: k, next: at };
        }
        starts[k] = at as u32;
        at = next_header(at, name);
    }
    Noted {
        count: headers.count as usize,
        next: at,
    }
}

/// The order of two headers by their names, and by their offsets where they have one name.
#[tactic(auto, unfolding(crate::specs::Headers::name_of))]
fn compare(region: &[u8], a: u32, b: u32) -> Ordering
    ensures { result ≡ header_order region.now a b }
{
    let by_name = name_at(region, a as usize).cmp(&name_at(region, b as usize));
    by_name.then(a.cmp(&b))
}

/// Sorts headers by their names, and those of one name by their offsets.
fn sort_names(region: &[u8], starts: &mut [u32])
    ensures permutation { IsPermutation starts.old starts.new }
    ensures sorted { IsSortedBy (λ a b. is_lt (header_order region.now a b)) starts.new }
{
    starts.sort_unstable_by(|a, b| compare(region, *a, *b));
}

/// The lesser of two offsets, of which the first may be missing.
fn lesser(least: Option<u32>, at: u32) -> u32
    ensures { MatchOption least (result ≡ at) (λ other. result ≡ min other at) }
{
    match least {
        None => at,
        Some(other) => other.min(at),
    }
}

/// The least offset of a header that has the name of the one in front of it in the list.
fn least_repeat(region: &[u8], starts: &[u32]) -> Option<u32>
    ensures { LeastBelow region.now starts.now (length starts.now) result }
{
    let mut least = None;
    for k in 1..starts.len() {
        let before = name_at(region, starts[k - 1] as usize);
        if before == name_at(region, starts[k] as usize) {
            least = Some(lesser(least, starts[k]));
        }
    }
    least
}

/// Where the first header begins that has the name of an earlier one.
fn first_repeat(region: &[u8], starts: &mut [u32]) -> Option<u32>
    requires { IsStrictlyIncreasing starts.old }
    ensures { MatchOption result ((j : ℕ) → j < length starts.old → Repeats region.now starts.old j → ⊥) (IsFirstRepeat region.now starts.old) }
{
    sort_names(region, starts);
    least_repeat(region, starts)
}

/// The first broken rule 9 among the headers, of which the list has room for the offsets.
fn check_with(region: &[u8], headers: &Headers, starts: &mut [u32]) -> Result<(), Fault>
    requires small { length region.now < 2 ^ 32 }
    requires root { HasRoot region.now headers.now }
    requires room { headers.now.count ≤ length starts.old }
    ensures broken { IfErr result (λ fault. first_broken (streams.rules_of_streams region.now [] (streams.streams_of region.now)) ≡ Some fault) }
    ensures kept { OnOk result (first_broken (streams.rules_of_streams region.now [] (streams.streams_of region.now)) ≡ None) }
{
    let noted = note_headers(region, headers, starts);
    if let Some(at) = first_repeat(region, &mut starts[..noted.count]) {
        return Err(broken(9, at as usize));
    }
    if noted.count < headers.count as usize {
        return Err(broken(9, noted.next));
    }
    Ok(())
}

/// The first broken rule 9 among any number of headers, with a table of 256 KB on the stack, which no other file pays for.
#[inline(never)]
fn check_many(region: &[u8], headers: &Headers) -> Result<(), Fault>
    requires small { length region.now < 2 ^ 32 }
    requires root { HasRoot region.now headers.now }
    ensures broken { IfErr result (λ fault. first_broken (streams.rules_of_streams region.now [] (streams.streams_of region.now)) ≡ Some fault) }
    ensures kept { OnOk result (first_broken (streams.rules_of_streams region.now [] (streams.streams_of region.now)) ≡ None) }
{
    let mut starts = [0u32; MOST];
    check_with(region, headers, &mut starts[..headers.count as usize])
}

/// The first broken rule 9 among the stream headers. For n of them it compares names of at most 32 bytes some n log n
/// times, and goes over the region at most once besides.
pub fn check_headers(region: &[u8], headers: &Headers) -> Result<(), Fault>
    requires small { length region.now < 2 ^ 32 }
    requires root { HasRoot region.now headers.now }
    ensures broken { IfErr result (λ fault. first_broken (streams.rules_of_streams region.now [] (streams.streams_of region.now)) ≡ Some fault) }
    ensures kept { OnOk result (first_broken (streams.rules_of_streams region.now [] (streams.streams_of region.now)) ≡ None) }
{
    if headers.count as usize > FEW {
        return check_many(region, headers);
    }
    let mut starts = [0u32; FEW];
    check_with(region, headers, &mut starts)
}
