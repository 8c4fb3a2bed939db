//! What a deployment asks or tells.

ghost use Rattle.std.specs.Prelude.{◌≡◌, ◌≤◌, ◌++◌, [], length};
ghost use Rattle.byteorder.specs.Endian.{little_bytes};
ghost use Rattle.flash_trait.specs.Flash.{Program, Erase};
ghost use Rattle.deploy_model.specs.Deployment.{Asks, command_of, payload_of};
ghost use Rattle.deploy_tool.specs.Steps.{next_view};

use arrayvec::ArrayVec;
use byteorder::{ByteOrder, LittleEndian};
use wire_packets::command::{ERASE, PROGRAM};
use wire_packets::packet::MAX_PAYLOAD;
use wire_packets::payload::MAX_PIECE;

/// What a deployment comes to next. Behind another step than `Ask` it asks nothing more.
#[derive(Debug, Drop)]
pub enum Step {
    /// This is to be asked: a command and the payload of its request.
    Ask {
        command: u32,
        payload: ArrayVec<u8, MAX_PAYLOAD>,
    },
    /// The set stands whole in its bank, with its number and marker. This comes exactly at the reply to the last
    /// operation, the program of the marker, where its status is 0.
    Deployed,
    /// The flash failed: the last request's reply has status 2.
    Failed,
    /// The set that was found has the number 4,294,967,295, which no number follows. This comes at the reply to Banks
    /// alone, and nothing was written.
    SequenceSpent,
}

/// A request without payload.
pub(crate) fn ask_plain(command: u32) -> Step
    ensures { next_view result ≡ Asks command [] }
{
    Step::Ask {
        command,
        payload: ArrayVec::new(),
    }
}

/// The request that programs bytes at a place.
pub(crate) fn ask_program(at: u32, bytes: &[u8]) -> Step
    requires { length bytes.now ≤ MAX_PIECE }
    ensures { next_view result ≡ Asks (command_of (Program at bytes.now)) (payload_of (Program at bytes.now)) }
{
    let mut place = [0u8; 4];
    LittleEndian::write_u32(&mut place, at);
    let mut payload = ArrayVec::new();
    payload.try_extend_from_slice(&place).unwrap();
    payload.try_extend_from_slice(bytes).unwrap();
    Step::Ask {
        command: PROGRAM,
        payload,
    }
}

/// The request that erases a sector.
pub(crate) fn ask_erase(sector: u32) -> Step
    ensures { next_view result ≡ Asks (command_of (Erase sector)) (payload_of (Erase sector)) }
{
    let mut number = [0u8; 4];
    LittleEndian::write_u32(&mut number, sector);
    let mut payload = ArrayVec::new();
    payload.try_extend_from_slice(&number).unwrap();
    Step::Ask {
        command: ERASE,
        payload,
    }
}
