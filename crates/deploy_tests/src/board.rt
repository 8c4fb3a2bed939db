//! A small board, and a session that deploys a set to it.

ghost use Rattle.std.specs.Prelude.{◌≡◌, ◌≤◌, length};

use crate::sets::banks_told;
use block_flash::memory_flash::MemoryFlash;
use deploy_tool::{Deploy, Step};
use flash_trait::flash::{FLASH_SIZE, Flash, FlashErr, SECTORS};
use little_endian::u32_at;
use wire_packets::command::{BANKS, DONE, ERASE, FLASH_FAILED, NO_REQUEST, OPEN, PROGRAM};
use wire_packets::packet::{Packet, REPLY};
use wire_session::act::Act;
use wire_session::answerer::Answerer;
use wire_session::asker::Asker;

/// How a session ended.
#[derive(Clone, Copy, Debug, PartialEq, Eq)]
pub enum Ending {
    Deployed,
    Failed,
    Spent,
    /// The power stopped.
    Off,
    /// A reply was none that the tool waits for, or its numbers were spent.
    Lost,
}

fn program(flash: &mut MemoryFlash, payload: &[u8]) -> Option<Result<(), FlashErr>> {
    if payload.len() < 5 || payload.len() > 1020 || !flash.is_on() {
        return None;
    }
    let at = u32_at(payload, 0);
    if at as usize + (payload.len() - 4) > FLASH_SIZE {
        return None;
    }
    Some(flash.program(at, &payload[4..]))
}

fn erase(flash: &mut MemoryFlash, payload: &[u8]) -> Option<Result<(), FlashErr>> {
    if payload.len() != 4 || !flash.is_on() {
        return None;
    }
    let sector = u32_at(payload, 0);
    if sector >= SECTORS {
        return None;
    }
    Some(flash.erase(sector))
}

fn reply(request: &Packet, payload: &[u8]) -> Packet
    requires { length payload.now ≤ 1024 }
{
    Packet::new(request.command, 0, request.seq, REPLY, payload)
}

/// The reply to a request that is done, and none where the power stopped in it.
fn done(flash: &mut MemoryFlash, request: &Packet) -> Option<Packet> {
    let payload = request.payload.as_slice();
    let made = if request.command == PROGRAM {
        program(flash, payload)
    } else if request.command == ERASE {
        erase(flash, payload)
    } else {
        None
    };
    match made {
        Some(Ok(())) => return Some(reply(request, &[DONE])),
        Some(Err(FlashErr::Failed)) => return Some(reply(request, &[FLASH_FAILED])),
        Some(Err(FlashErr::Cut)) => return None,
        None => {}
    }
    if request.command == OPEN {
        return Some(reply(request, &[DONE, 32, 0, 0, 0, 0, 32, 0, 0]));
    }
    let content = flash.map();
    if request.command == BANKS && content.len() == FLASH_SIZE {
        return Some(reply(request, &banks_told(content)));
    }
    Some(reply(request, &[NO_REQUEST]))
}

/// A packet reaches the board: its reply, where it gets one, and an error where the power stops.
fn reaches(
    answerer: &mut Answerer,
    flash: &mut MemoryFlash,
    packet: &Packet,
) -> Result<Option<Packet>, Ending> {
    match answerer.take(packet) {
        Act::Ignore => Ok(None),
        Act::Resend => Ok(answerer.kept().map(Packet::copied)),
        Act::Do => {
            let reply = done(flash, packet).ok_or(Ending::Off)?;
            answerer.keep(&reply);
            Ok(Some(reply))
        }
    }
}

/// A session that deploys a set. Each request reaches the board so many times, and the last reply comes back.
pub fn deploy(flash: &mut MemoryFlash, set: &[u8], copies: u32) -> Ending
    requires { length set.now ≤ 122864 }
{
    let mut tool = Deploy::new(set);
    let mut asker = Asker::new();
    let mut answerer = Answerer::new();
    let mut step = tool.next(None);
    for _ in 0..200 {
        let Step::Ask { command, payload } = &step else {
            break;
        };
        let Ok(request) = asker.ask(*command, payload.as_slice()) else {
            return Ending::Lost;
        };
        let mut answer = None;
        for _ in 0..copies {
            match reaches(&mut answerer, flash, &request) {
                Ok(reply) => answer = reply,
                Err(ending) => return ending,
            }
        }
        let Some(reply) = answer else {
            return Ending::Lost;
        };
        if !asker.take(&reply) {
            return Ending::Lost;
        }
        step = tool.next(Some(&reply));
    }
    match step {
        Step::Ask {
            command: _,
            payload: _,
        } => Ending::Lost,
        Step::Deployed => Ending::Deployed,
        Step::Failed => Ending::Failed,
        Step::SequenceSpent => Ending::Spent,
    }
}
