//! The metadata root and its stream headers (ECMA-335 II.24.2.1, II.24.2.2).

ghost use Rattle.std.specs.Prelude.{◌≡◌, ◌+◌, ◌-◌, ◌*◌, ◌/◌, ◌<◌, ◌≤◌, ◌^◌, length, drop, IfErr, IfOk, false};
ghost use Rattle.std.specs.Option.{option_map};
ghost use Rattle.std.specs.List.{find};
ghost use Rattle.file_tables.specs.Streams as streams;
ghost use Rattle.file_tables.specs.Rules.{rule_at};
ghost use Rattle.cil_tables.specs.Place.{place_of, HasRoot};

use crate::fault::broken;
use crate::heap::zero_place;
use crate::view::{four, rest, two};
use plain_types::fault::Fault;

/// Where a stream stands in the region.
#[derive(Clone, Copy)]
pub struct Stream {
    pub offset: u32,
    pub size: u32,
}

/// The name in the stream header at an offset.
#[tactic(auto, using(crate::proofs::StreamLaws::name_is, crate::proofs::StreamLaws::name_is_all))]
pub fn name_at(region: &[u8], at: usize) -> &[u8]
    requires { at < 2 ^ 48 }
    ensures name { result.now ≡ (streams.stream_at region.now at).name }
    ensures within { length result.now ≤ length region.now - (at + 8) }
{
    let bytes = rest(region, at + 8);
    match zero_place(bytes) {
        None => bytes,
        Some(n) => &bytes[..n],
    }
}

/// Where the next header begins, behind one with a name of that length.
#[tactic(auto, unfolding(file_tables::specs::Streams::header_end))]
pub fn next_header(at: usize, name: &[u8]) -> usize
    requires { at < 2 ^ 48 }
    ensures next { result ≡ at + 12 + 4 * (length name.now / 4) }
    ensures bound { result ≤ at + 12 + length name.now }
{
    at + 12 + 4 * (name.len() / 4)
}

/// The first stream of a name among so many, the first of which has its header at an offset.
pub fn find_stream(region: &[u8], first: usize, count: u16, name: &[u8]) -> Option<Stream>
    requires small { length region.now < 2 ^ 32 }
    requires begins { first ≤ length region.now }
    ensures { result ≡ option_map place_of (find (streams.has_name name.now) (streams.streams_from region.now first count)) }
{
    let mut at = first;
    for _ in 0..count {
        let here = name_at(region, at);
        if here == name {
            return Some(Stream {
                offset: four(region, at),
                size: four(region, at + 4),
            });
        }
        at = next_header(at, here);
    }
    None
}

/// What the root says of its streams.
#[derive(Clone, Copy)]
pub struct Headers {
    /// Where the first stream header begins.
    pub first: usize,
    pub count: u16,
}

/// Rule 8, and where the stream headers begin.
#[tactic(auto, unfolding(file_tables::specs::Streams::is_root, file_tables::specs::Streams::after_version, file_tables::specs::Streams::stream_count))]
pub fn read_root(region: &[u8]) -> Result<Headers, Fault>
    requires { length region.now < 2 ^ 32 }
    ensures broken { IfErr result (λ fault. (streams.is_root region.now ≡ false) × (fault ≡ (rule_at 8 0 false).fault)) }
    ensures kept { IfOk result (HasRoot region.now) }
{
    if region.len() < 16 || four(region, 0) != 0x424A_5342 {
        return Err(broken(8, 0));
    }
    let version = four(region, 12);
    let after = 16 + version as usize;
    if version % 4 != 0 || after + 4 > region.len() {
        return Err(broken(8, 0));
    }
    Ok(Headers {
        first: after + 4,
        count: two(region, after + 2),
    })
}

/// The stream of a name.
#[tactic(auto, using(crate::proofs::StreamLaws::streams_are), unfolding(file_tables::specs::Streams::stream_named))]
pub fn stream_named(region: &[u8], headers: &Headers, name: &[u8]) -> Option<Stream>
    requires small { length region.now < 2 ^ 32 }
    requires root { HasRoot region.now headers.now }
    ensures { result ≡ option_map place_of (streams.stream_named region.now name.now) }
{
    find_stream(region, headers.first, headers.count, name)
}
