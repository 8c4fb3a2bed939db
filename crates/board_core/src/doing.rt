//! A request that is done.

ghost use Rattle.std.specs.Prelude.{◌≡◌, ◌==◌, ◌&&◌, IsTrue, length};
ghost use Rattle.deploy_model.specs.Board.{is_run};
ghost use Rattle.flash_trait.specs.FlashCalls.{FlashState};
ghost use Rattle.board_core.specs.Ends.{Ends, parts_with};
ghost use Rattle.board_core.specs.Handling.{HasRun, IsAnswered, Does};

use crate::operating::{PowerOff, handle_operation, operation_asked, reply_to};
use crate::replies::{Payload, end, is_run, plain, status};
use crate::runs::Runs;
use flash_trait::flash::{FLASH_SIZE, Flash};
use little_endian::{u32_at, u64_at};
use plain_types::list::Items;
use std::alloc::Global;
use wire_packets::command::{NO_MEMORY, RUN};
use wire_packets::packet::Packet;
use wire_packets::payload::{RUN_CELLS, RUN_SIZE, RUN_STEPS};

/// Boots and runs what the flash holds, and keeps its text. Where there is no memory, the last text stays.
fn run<R: Runs>(
    text: &mut Items<u8>,
    alloc: Global,
    runs: &R,
    payload: &[u8],
    content: &[u8],
) -> Payload
    requires { length payload.now ≡ RUN_SIZE }
    ensures { HasRun (parts_with (R.runs runs.now)) payload.now content.now text.old text.new result.items }
{
    let steps = u64_at(payload, RUN_STEPS);
    let cells = u32_at(payload, RUN_CELLS);
    match runs.boot_and_run(alloc, content, steps, cells) {
        Err(_) => status(NO_MEMORY),
        Ok(ended) => {
            let reply = end(&ended);
            *text = ended.text;
            reply
        }
    }
}

/// Whether a request asks for a run.
fn asks_run(p: &Packet) -> bool
    ensures test { result ≡ ((p.now.command == RUN) && is_run p.now.payload.items) }
    ensures command { IsTrue result → p.now.command ≡ RUN }
    ensures size { IsTrue result → length p.now.payload.items ≡ RUN_SIZE }
{
    p.command == RUN && is_run(p.payload.as_slice())
}

/// The payload of the reply to a request for no operation.
fn answer<R: Runs>(
    text: &mut Items<u8>,
    alloc: Global,
    runs: &R,
    p: &Packet,
    content: &[u8],
) -> Payload
    requires { length content.now ≡ FLASH_SIZE }
    ensures { IsAnswered (parts_with (R.runs runs.now)) p.now content.now text.old text.new result.items }
{
    if asks_run(p) {
        run(text, alloc, runs, p.payload.as_slice(), content)
    } else {
        plain(content, text.as_slice(), p.command, p.payload.as_slice())
    }
}

/// Does a request, and gives its reply; there is none where the power stopped in it.
pub fn done<F: Flash, R: Runs>(
    text: &mut Items<u8>,
    alloc: Global,
    runs: &R,
    p: &Packet,
    flash: &mut F,
) -> Result<Packet, PowerOff>
    requires on { IsTrue (F.state flash.old).on }
    ensures { Does (parts_with (R.runs runs.now)) p.now text.old text.new (F.state flash.old) (F.state flash.new) result }
{
    match operation_asked(p) {
        Some(asked) => handle_operation(p, &asked, flash),
        None => {
            let payload = answer(text, alloc, runs, p, flash.map());
            Ok(reply_to(p, payload.as_slice()))
        }
    }
}
