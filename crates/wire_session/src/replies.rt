//! Which reply a request waits for.

ghost use Rattle.std.specs.Prelude.{◌≡◌, ◌<◌, length};
ghost use Rattle.std.specs.Str.{bytes_eq};
ghost use Rattle.wire_session.specs.Replies.{flash_shape, numbers_fit, is_end, is_start, has_asked_length, banks_fit, is_banks, stops_nowhere, state_fits, is_state, is_shown, fits, answers, matches};

use flash_trait::flash::{SECTOR_SIZE, SECTORS};
use little_endian::{u32_at, write_u32};
use wire_packets::command::{
    BAD_CODE, BAD_SET, BANKS, BREAK, CLOSE, CONTINUE, DONE, ENDED, ERASE, FETCH, FLASH_FAILED,
    FRAME, HELLO, NO_MEMORY, NO_SET, OPEN, PROGRAM, READ, RUN, START, UNRESOLVED, VALUE,
};
use wire_packets::packet::{Packet, REPLY};
use wire_packets::payload::{
    BANKS_BANK, BANKS_KIND, BANKS_MARKS, BANKS_NUMBER, BANKS_SIZE, END_FIRST, END_KIND, END_SECOND,
    END_SIZE, END_TEXT, END_THIRD, FINISHED, IN_A_BANK, MAX_PIECE, MAX_TEXT, METHOD, NO_PLACE,
    RANGE_LENGTH, RANGE_SIZE, SEEN_SIZE, SHAPE_SECTOR_SIZE, SHAPE_SECTORS, SHAPE_SIZE, SHOWN_KIND,
    SHOWN_SIZE, STATE_COUNT, STATE_KIND, STATE_SIZE, STOPPED,
};

/// Whether the bytes tell the flash's shape.
fn is_flash_shape(body: &[u8]) -> bool
    ensures { result ≡ bytes_eq body.now flash_shape }
{
    let mut shape = [0; SHAPE_SIZE];
    write_u32(&mut shape, SHAPE_SECTORS, SECTORS);
    write_u32(&mut shape, SHAPE_SECTOR_SIZE, SECTOR_SIZE as u32);
    body == shape.as_slice()
}

/// Whether there are as many bytes as the request asks for.
#[tactic(auto, unfolding(crate::specs::Replies::has_asked_length))]
fn has_asked_length(payload: &[u8], body: &[u8]) -> bool
    ensures { result ≡ has_asked_length payload.now body.now }
{
    if payload.len() != RANGE_SIZE {
        return false;
    }
    let asked = u32_at(payload, RANGE_LENGTH) as usize;
    asked <= MAX_PIECE && body.len() == asked
}

/// Whether the numbers that a kind of end doesn't use are 0.
fn numbers_fit(kind: u8, a: u32, b: u32, c: u32) -> bool
    ensures { result ≡ numbers_fit kind a b c }
{
    match kind {
        UNRESOLVED => true,
        BAD_SET | BAD_CODE => b == 0 && c == 0,
        ENDED | NO_SET => a == 0 && b == 0 && c == 0,
        _ => false,
    }
}

/// Whether the bytes tell the end of a run, with a text of at most so many bytes.
#[tactic(auto, unfolding(crate::specs::Replies::is_end))]
fn is_end(body: &[u8], most: u32) -> bool
    ensures { result ≡ is_end most body.now }
{
    body.len() == END_SIZE
        && numbers_fit(
            body[END_KIND],
            u32_at(body, END_FIRST),
            u32_at(body, END_SECOND),
            u32_at(body, END_THIRD),
        )
        && u32_at(body, END_TEXT) <= most
}

/// Whether the bytes tell of a run that was started.
#[tactic(auto, unfolding(crate::specs::Replies::is_start))]
fn is_start(body: &[u8]) -> bool
    ensures { result ≡ is_start body.now }
{
    match body {
        [] => false,
        [kind, ..] => *kind != BAD_CODE && is_end(body, 0),
    }
}

/// Whether the bank and the number are ones that a kind of set has.
fn banks_fit(kind: u8, bank: u32, number: u32) -> bool
    ensures { result ≡ banks_fit kind bank number }
{
    if kind == IN_A_BANK {
        bank < 2
    } else {
        kind < IN_A_BANK && bank == 0 && number == 0
    }
}

/// Whether the bytes tell of the banks.
#[tactic(auto, unfolding(crate::specs::Replies::is_banks))]
fn is_banks(body: &[u8]) -> bool
    ensures { result ≡ is_banks body.now }
{
    body.len() == BANKS_SIZE
        && banks_fit(
            body[BANKS_KIND],
            u32_at(body, BANKS_BANK),
            u32_at(body, BANKS_NUMBER),
        )
        && body[BANKS_MARKS] < 4
}

/// Whether the last Break that was asked, by its place, told that the run isn't to stop.
fn stops_nowhere(last_break: Option<u32>) -> bool
    ensures { result ≡ stops_nowhere last_break }
{
    match last_break {
        None => false,
        Some(place) => place == NO_PLACE,
    }
}

/// Whether a run that goes on can stand so.
fn state_fits(last_break: Option<u32>, kind: u8, count: u32) -> bool
    ensures { result ≡ state_fits last_break kind count }
{
    match kind {
        STOPPED => !stops_nowhere(last_break),
        FINISHED => count <= MAX_TEXT,
        _ => kind == BAD_CODE,
    }
}

/// Whether the bytes tell how a run that goes on stands.
#[tactic(auto, unfolding(crate::specs::Replies::is_state))]
fn is_state(last_break: Option<u32>, body: &[u8]) -> bool
    ensures { result ≡ is_state last_break body.now }
{
    body.len() == STATE_SIZE && state_fits(last_break, body[STATE_KIND], u32_at(body, STATE_COUNT))
}

/// Whether the bytes show a value.
#[tactic(auto, unfolding(crate::specs::Replies::is_shown))]
fn is_shown(body: &[u8]) -> bool
    ensures { result ≡ is_shown body.now }
{
    body.len() == SHOWN_SIZE && body[SHOWN_KIND] <= METHOD
}

/// Whether the bytes follow [`DONE`] in the reply to a request.
#[tactic(auto, unfolding(crate::specs::Replies::fits))]
fn fits(last_break: Option<u32>, command: u32, payload: &[u8], body: &[u8]) -> bool
    ensures { result ≡ fits last_break command payload.now body.now }
{
    match command {
        OPEN => is_flash_shape(body),
        READ | FETCH => has_asked_length(payload, body),
        RUN => is_end(body, MAX_TEXT),
        BANKS => is_banks(body),
        START => is_start(body),
        CONTINUE => is_state(last_break, body),
        FRAME => body.len() == SEEN_SIZE,
        VALUE => is_shown(body),
        PROGRAM | ERASE | CLOSE | HELLO | BREAK => body.is_empty(),
        _ => false,
    }
}

/// Whether a payload answers a request.
#[tactic(auto, unfolding(crate::specs::Replies::answers))]
fn answers(last_break: Option<u32>, request: &Packet, payload: &[u8]) -> bool
    ensures { result ≡ answers last_break request.now payload.now }
{
    match payload {
        [] => false,
        [DONE, body @ ..] => fits(
            last_break,
            request.command,
            request.payload.as_slice(),
            body,
        ),
        [status, body @ ..] => (*status == FLASH_FAILED || *status == NO_MEMORY) && body.is_empty(),
    }
}

/// Whether a packet is a reply that a request waits for: a reply with its number and command, whose payload is [`DONE`]
/// with what the command asks for, or [`FLASH_FAILED`] or [`NO_MEMORY`] alone. The packet's own number isn't looked at.
/// `last_break` is the place of the last Break that was asked in the session, and `None` before the first: while it is
/// [`NO_PLACE`], no reply to Continue matches that tells of a stop.
#[tactic(auto, unfolding(crate::specs::Replies::matches))]
pub fn matches(last_break: Option<u32>, request: &Packet, reply: &Packet) -> bool
    ensures { result ≡ matches last_break request.now reply.now }
{
    reply.flags == REPLY
        && reply.command == request.command
        && reply.reply_seq == request.seq
        && answers(last_break, request, reply.payload.as_slice())
}
