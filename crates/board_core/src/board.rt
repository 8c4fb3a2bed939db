//! A board in a session.

ghost use Rattle.std.specs.Prelude.{◌≡◌, IsTrue};
ghost use Rattle.flash_trait.specs.FlashCalls.{FlashState};
ghost use Rattle.board_core.specs.Ends.{Ends, parts_with};
ghost use Rattle.board_core.specs.Handling.{begun, Handles};

use crate::doing::done;
use crate::handled::Handled;
use crate::runs::Runs;
use flash_trait::flash::Flash;
use plain_types::list::Items;
use std::alloc::Global;
use std::marker::Model;
use wire_packets::packet::Packet;
use wire_session::{Act, Answerer};

/// A board in a session with a tool: its answering end, and the text of the last run.
#[derive(Debug, Drop)]
pub struct Core {
    answerer: Answerer,
    text: Items<u8>,
}

impl Model for Core {
    ghost use Rattle.std.specs.Prelude.{◌≡◌, false};
    ghost use Rattle.board_core.specs.Handling.{CoreState};

    ghost Value = { CoreState };

    ghost view = { λ c. record { board = c.answerer; text = c.text } };

    ghost invariant = { λ c. c.answerer.doing ≡ false };
}

impl Core {
    /// A session in which nothing was done. Nothing is allocated.
    pub fn new(alloc: Global) -> Self
        ensures { result ≡ begun }
    {
        Core {
            answerer: Answerer::new(),
            text: Items::from_vec(Vec::new(alloc)),
        }
    }

    /// Handles a packet that came: the next request is done, once, and its reply kept; the last one gets the kept reply
    /// again; nothing comes of any other packet, nor of a reply. A run takes its memory before anything runs, and where
    /// there is none the reply says so; no other request takes memory. Where the power stops in an operation there is
    /// no reply, and a new session begins.
    pub fn handle<F: Flash, R: Runs>(
        &mut self,
        alloc: Global,
        runs: &R,
        p: &Packet,
        flash: &mut F,
    ) -> Handled
        requires on { IsTrue (F.state flash.old).on }
        ensures { Handles (parts_with (R.runs runs.now)) p.now self.old self.new (F.state flash.old) (F.state flash.new) result }
    {
        match self.answerer.take(p) {
            Act::Ignore => Handled::Quiet,
            Act::Resend => match self.answerer.kept() {
                None => Handled::Quiet,
                Some(reply) => Handled::Reply(reply.copied()),
            },
            Act::Do => match done(&mut self.text, alloc, runs, p, flash) {
                Err(_) => {
                    *self = Core::new(alloc);
                    Handled::Off
                }
                Ok(reply) => {
                    self.answerer.keep(&reply);
                    Handled::Reply(reply)
                }
            },
        }
    }
}
