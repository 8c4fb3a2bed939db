//! The answering end of a session.

ghost use Rattle.std.specs.Prelude.{◌≡◌, ◌==◌, IsTrue, IsNone, ◌↔◌, option_copied};
ghost use Rattle.wire_session.specs.Answering.{nothing_done, act_on, after_take, after_keep};

use crate::act::Act;
use std::marker::Model;
use wire_packets::packet::{LAST_SEQ, Packet, REQUEST};

/// The end of a session that answers. It does its requests in the order of their numbers, each once.
#[derive(Debug, Drop)]
pub struct Answerer {
    last: u16,
    kept: Option<Packet>,
    doing: bool,
}

impl Model for Answerer {
    ghost use Rattle.wire_session.specs.Answering.{Answering, IsAnswering};

    ghost Value = { Answering };

    ghost view = { λ a. record { last = a.last; kept = a.kept; doing = a.doing } };

    ghost invariant = { λ a. IsAnswering (record { last = a.last; kept = a.kept; doing = a.doing }) };
}

impl Answerer {
    /// A session in which nothing was done.
    pub fn new() -> Self
        ensures { result ≡ nothing_done }
    {
        Answerer {
            last: 0,
            kept: None,
            doing: false,
        }
    }

    /// What to do with a packet that came: the next request is done, the last one gets the kept reply again, and every
    /// other packet and each reply is ignored. After 65,535 there is no next.
    pub fn take(&mut self, p: &Packet) -> Act
        ensures act { result ≡ act_on self.old p.now }
        ensures after { self.new ≡ after_take self.old p.now }
    {
        let act = if p.flags != REQUEST {
            Act::Ignore
        } else if self.last < LAST_SEQ && p.seq == self.last + 1 {
            Act::Do
        } else if self.last > 0 && p.seq == self.last {
            Act::Resend
        } else {
            Act::Ignore
        };
        self.doing = act == Act::Do;
        act
    }

    /// Makes the request that is being done the last one, and this its kept reply.
    pub fn keep(&mut self, reply: &Packet)
        requires { IsTrue self.old.doing }
        ensures { self.new ≡ after_keep self.old reply.now }
    {
        self.last += 1;
        self.kept = Some(reply.copied());
        self.doing = false;
    }

    /// The reply to the last request, and `None` exactly where no request was done in this session.
    pub fn kept(&self) -> Option<&Packet>
        ensures reply { option_copied result ≡ self.now.kept }
        ensures none { IsNone result ↔ (self.now.last ≡ 0) }
    {
        self.kept.as_ref()
    }
}
