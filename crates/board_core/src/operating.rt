//! Operations of the flash that requests ask for.

ghost use Rattle.std.specs.Prelude.{◌≡◌, ◌≤◌, ◌<◌, ◌+◌, ◌-◌, [], ◌∷◌, length, drop, IsTrue, IsSome, Option, Some, None, OnOk, IsErrOf, Result, Ok, Err, MatchOption};
ghost use Rattle.flash_trait.specs.Flash.{Program, Erase, IsPossible};
ghost use Rattle.flash_trait.specs.FlashCalls.{FlashState, Completes, IsCut, IsFailed};
ghost use Rattle.deploy_model.specs.Board.{program_asked, erase_asked, operation_asked, reply_to};
ghost use Rattle.board_core.specs.Operated.{Operates};
ghost use Rattle.board_core.specs.Asked.{operation_of};

use flash_trait::flash::{FLASH_SIZE, Flash, FlashErr, SECTORS};
use little_endian::u32_at;
use wire_packets::command::{DONE, ERASE, FLASH_FAILED, PROGRAM};
use wire_packets::packet::{MAX_PAYLOAD, Packet, REPLY};
use wire_packets::payload::{ERASE_SECTOR, ERASE_SIZE, MAX_PIECE, PROGRAM_AT, PROGRAM_BYTES};

/// The power stopped.
#[derive(Clone, Copy, Debug, PartialEq, Eq)]
pub struct PowerOff;

/// An operation that a request asks for.
#[derive(Clone, Copy, Debug)]
pub enum Asked<'a> {
    /// These bytes are programmed from a place on.
    Program { at: u32, bytes: &'a [u8] },
    /// The sector is erased.
    Erase { sector: u32 },
}

/// The bytes that a request to program asks for: 1 to 1,016 of them that lie inside the flash.
fn program_asked(payload: &[u8]) -> Option<Asked<'_>>
    ensures { MatchOption result (program_asked payload.now ≡ None) (λ asked. (program_asked payload.now ≡ Some (operation_of asked)) × IsPossible (operation_of asked)) }
{
    if payload.len() <= PROGRAM_BYTES || payload.len() > MAX_PIECE + PROGRAM_BYTES {
        return None;
    }
    let at = u32_at(payload, PROGRAM_AT);
    if at as usize + (payload.len() - PROGRAM_BYTES) > FLASH_SIZE {
        return None;
    }
    Some(Asked::Program {
        at,
        bytes: &payload[PROGRAM_BYTES..],
    })
}

/// The sector that a request to erase asks for.
fn erase_asked(payload: &[u8]) -> Option<Asked<'_>>
    ensures { MatchOption result (erase_asked payload.now ≡ None) (λ asked. (erase_asked payload.now ≡ Some (operation_of asked)) × IsPossible (operation_of asked)) }
{
    if payload.len() != ERASE_SIZE {
        return None;
    }
    let sector = u32_at(payload, ERASE_SECTOR);
    if sector >= SECTORS {
        return None;
    }
    Some(Asked::Erase { sector })
}

/// The operation that a request asks for.
#[tactic(auto, unfolding(deploy_model::specs::Board::operation_asked))]
pub fn operation_asked(p: &Packet) -> Option<Asked<'_>>
    ensures { MatchOption result (operation_asked p.now ≡ None) (λ asked. (operation_asked p.now ≡ Some (operation_of asked)) × IsPossible (operation_of asked)) }
{
    match p.command {
        PROGRAM => program_asked(p.payload.as_slice()),
        ERASE => erase_asked(p.payload.as_slice()),
        _ => None,
    }
}

/// Makes the operation on a flash that is on.
pub fn operate<F: Flash>(flash: &mut F, asked: &Asked<'_>) -> Result<(), FlashErr>
    requires on { IsTrue (F.state flash.old).on }
    requires possible { IsPossible (operation_of asked.now) }
    ensures ok { OnOk result (Completes (operation_of asked.now) (F.state flash.old) (F.state flash.new)) }
    ensures cut { IsErrOf result FlashErr.Cut → IsCut (operation_of asked.now) (F.state flash.old) (F.state flash.new) }
    ensures failed { IsErrOf result FlashErr.Failed → IsFailed (operation_of asked.now) (F.state flash.old) (F.state flash.new) }
{
    match asked {
        Asked::Program { at, bytes } => flash.program(*at, bytes),
        Asked::Erase { sector } => flash.erase(*sector),
    }
}

/// A reply to a request.
pub(crate) fn reply_to(p: &Packet, payload: &[u8]) -> Packet
    requires { length payload.now ≤ MAX_PAYLOAD }
    ensures { result ≡ reply_to p.now payload.now }
{
    Packet::new(p.command, 0, p.seq, REPLY, payload)
}

/// Does a request that asks for an operation, and gives its reply: [`DONE`], or [`FLASH_FAILED`] where the flash failed.
/// There is none where the power stopped in it.
pub fn handle_operation<F: Flash>(
    p: &Packet,
    asked: &Asked<'_>,
    flash: &mut F,
) -> Result<Packet, PowerOff>
    requires on { IsTrue (F.state flash.old).on }
    requires asked { operation_asked p.now ≡ Some (operation_of asked.now) }
    requires possible { IsPossible (operation_of asked.now) }
    ensures { Operates p.now (F.state flash.old) (F.state flash.new) result }
{
    match operate(flash, asked) {
        Ok(()) => Ok(reply_to(p, &[DONE])),
        Err(FlashErr::Failed) => Ok(reply_to(p, &[FLASH_FAILED])),
        Err(FlashErr::Cut) => Err(PowerOff),
    }
}
