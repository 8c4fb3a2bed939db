//! The payloads of replies.

ghost use Rattle.std.specs.Prelude.{◌≡◌, ◌≤◌, ◌+◌, ◌++◌, ◌∷◌, [], ◌||◌, length, drop, if◌then◌else◌};
ghost use Rattle.byteorder.specs.Endian.{little_bytes};
ghost use Rattle.deploy_model.specs.Banks as model;
ghost use Rattle.deploy_model.specs.Banks.{holds, image_marker, bank_marker};
ghost use Rattle.deploy_model.specs.Deployment.{banks, banks_bytes};
ghost use Rattle.deploy_model.specs.Board.{piece_of, if_empty, is_run, end_bytes};
ghost use Rattle.wire_session.specs.Replies.{flash_shape};
ghost use Rattle.boot_scan.specs.Images.{FORMAT};
ghost use Rattle.boot_scan.specs.Sets.{place_view};
ghost use Rattle.board_core.specs.Ends.{ended_view};
ghost use Rattle.board_core.specs.Plain.{plain_payload, marks};

use crate::runs::Ended;
use arrayvec::ArrayVec;
use boot_scan::{Place, locate};
use flash_trait::flash::{FLASH_SIZE, SECTOR_SIZE, SECTORS};
use little_endian::u32_at;
use wire_packets::command::{BANKS, CLOSE, DONE, FETCH, NO_REQUEST, OPEN, READ};
use wire_packets::packet::MAX_PAYLOAD;
use wire_packets::payload::{
    FIRST_MARK, IN_A_BANK, LATE_OLD_FORMAT, MAX_PIECE, MAX_TEXT, NOT_FOUND, OLD_FORMAT, RANGE_AT,
    RANGE_LENGTH, RANGE_SIZE, RUN_CELLS, RUN_SIZE, SECOND_MARK,
};

/// The payload of a reply.
pub type Payload = ArrayVec<u8, MAX_PAYLOAD>;

/// How far apart the banks begin.
const BANKS_APART: usize = 131_072;

/// The most cells of a run's memory.
const MOST_CELLS: u32 = 4_194_304;

/// A status alone.
pub fn status(status: u8) -> Payload
    ensures { result.items ≡ status ∷ [] }
{
    let mut out = ArrayVec::new();
    out.try_extend_from_slice(&[status]).unwrap();
    out
}

/// Appends a byte.
fn push_byte(out: &mut Payload, byte: u8)
    requires { length out.old.items + 1 ≤ MAX_PAYLOAD }
    ensures { out.new.items ≡ out.old.items ++ byte ∷ [] }
{
    out.try_extend_from_slice(&[byte]).unwrap()
}

/// Appends a number of four bytes.
fn push_number(out: &mut Payload, number: u32)
    requires { length out.old.items + 4 ≤ MAX_PAYLOAD }
    ensures { out.new.items ≡ out.old.items ++ little_bytes 4 number }
{
    out.try_extend_from_slice(&number.to_le_bytes()).unwrap()
}

/// A piece of some bytes, of at most 1,016 bytes that lie inside them.
fn piece(payload: &[u8], bytes: &[u8]) -> Payload
    ensures { result.items ≡ piece_of payload.now bytes.now }
{
    if payload.len() != RANGE_SIZE {
        return status(NO_REQUEST);
    }
    let at = u32_at(payload, RANGE_AT) as usize;
    let size = u32_at(payload, RANGE_LENGTH) as usize;
    if size > MAX_PIECE || at + size > bytes.len() {
        return status(NO_REQUEST);
    }
    let mut out = status(DONE);
    out.try_extend_from_slice(&bytes[at..at + size]).unwrap();
    out
}

/// The shape of the flash.
fn shape() -> Payload
    ensures { result.items ≡ DONE ∷ flash_shape }
{
    let mut out = status(DONE);
    push_number(&mut out, SECTORS);
    push_number(&mut out, SECTOR_SIZE as u32);
    out
}

/// Whether the marker of an image stands at the front.
fn has_image_marker(bytes: &[u8]) -> bool
    requires { 8 ≤ length bytes.now }
    ensures { result ≡ holds image_marker 0 bytes.now }
{
    match bytes {
        [0x4D, 0x53, 0x53, 0x70, 0x6F, 0x74, 0x31, 0x00, ..] => true,
        _ => false,
    }
}

/// Whether the marker of a bank stands at the front.
fn has_bank_marker(bytes: &[u8]) -> bool
    requires { 8 ≤ length bytes.now }
    ensures { result ≡ holds bank_marker 0 bytes.now }
{
    match bytes {
        [0x4D, 0x53, 0x53, 0x70, 0x6F, 0x74, 0x32, 0x00, ..] => true,
        _ => false,
    }
}

/// A mark, where it holds.
fn mark(holds: bool, mark: u8) -> u8
    ensures value { result ≡ if◌then◌else◌ holds mark 0 }
    ensures most { result ≤ mark }
{
    if holds { mark } else { 0 }
}

/// Whether one of the two markers stands at the front of the flash.
fn has_front_marker(content: &[u8]) -> bool
    requires { length content.now ≡ FLASH_SIZE }
    ensures { result ≡ (holds image_marker 0 content.now || holds bank_marker 0 content.now) }
{
    has_image_marker(content) || has_bank_marker(content)
}

/// The bytes from a place on.
fn behind(bytes: &[u8], at: usize) -> &[u8]
    requires { at ≤ length bytes.now }
    ensures { result.now ≡ drop at bytes.now }
{
    &bytes[at..]
}

/// Whether the marker of a bank stands at a place.
fn has_bank_marker_at(bytes: &[u8], at: usize) -> bool
    requires { at + 8 ≤ length bytes.now }
    ensures { result ≡ holds bank_marker at bytes.now }
{
    let bank = behind(bytes, at);
    has_bank_marker(bank)
}

/// Whether the marker of banks stands at the front of bank 1.
fn has_second_marker(content: &[u8]) -> bool
    requires { length content.now ≡ FLASH_SIZE }
    ensures { result ≡ holds bank_marker (model.base 1) content.now }
{
    has_bank_marker_at(content, BANKS_APART)
}

/// Which markers stand.
fn marks(content: &[u8]) -> u8
    requires { length content.now ≡ FLASH_SIZE }
    ensures { result ≡ marks content.now }
{
    let first = has_front_marker(content);
    let second = has_second_marker(content);
    mark(first, FIRST_MARK) + mark(second, SECOND_MARK)
}

/// The kind, the bank and the number of a place, as the reply to Banks tells them.
fn told(place: Place) -> (u8, u32, u32)
    ensures { (found : model.Found) → (result.0 ≡ (place_view found place).kind) × (result.1 ≡ (place_view found place).bank) × (result.2 ≡ (place_view found place).number) }
{
    match place {
        Place::Nowhere => (NOT_FOUND, 0, 0),
        Place::Front => (OLD_FORMAT, 0, 0),
        Place::LateFront => (LATE_OLD_FORMAT, 0, 0),
        Place::Bank { bank, number } => (IN_A_BANK, u32::from(bank), number),
    }
}

/// What the flash holds, in which bank, and which markers stand.
fn banks(content: &[u8]) -> Payload
    requires { length content.now ≡ FLASH_SIZE }
    ensures { result.items ≡ DONE ∷ banks_bytes (banks FORMAT content.now) }
{
    let (kind, bank, number) = told(locate(content).place);
    let mut out = status(DONE);
    push_byte(&mut out, kind);
    push_number(&mut out, bank);
    push_number(&mut out, number);
    push_byte(&mut out, marks(content));
    out
}

/// How a run ended.
pub fn end(ended: &Ended) -> Payload
    requires { length ended.now.text ≤ MAX_TEXT }
    ensures { result.items ≡ DONE ∷ end_bytes (ended_view ended.now) }
{
    let mut out = status(DONE);
    push_byte(&mut out, ended.kind);
    push_number(&mut out, ended.first);
    push_number(&mut out, ended.second);
    push_number(&mut out, ended.third);
    push_number(&mut out, ended.text.as_slice().len() as u32);
    out
}

/// Whether the bytes ask for a run: steps, and 1 to 4,194,304 cells.
pub fn is_run(payload: &[u8]) -> bool
    ensures { result ≡ is_run payload.now }
{
    if payload.len() != RUN_SIZE {
        return false;
    }
    let cells = u32_at(payload, RUN_CELLS);
    1 <= cells && cells <= MOST_CELLS
}

/// The reply to a request that neither operates the flash nor runs it: the flash's shape, its banks, a piece of it or
/// of the text, the end of the session, or that this is no request.
#[tactic(auto, unfolding(crate::specs::Plain::plain_payload))]
pub fn plain(content: &[u8], text: &[u8], command: u32, payload: &[u8]) -> Payload
    requires { length content.now ≡ FLASH_SIZE }
    ensures { result.items ≡ plain_payload content.now text.now command payload.now }
{
    match command {
        READ => piece(payload, content),
        FETCH => piece(payload, text),
        _ if !payload.is_empty() => status(NO_REQUEST),
        OPEN => shape(),
        BANKS => banks(content),
        CLOSE => status(DONE),
        _ => status(NO_REQUEST),
    }
}
