//! The asking end of a session.

ghost use Rattle.std.specs.Prelude.{◌≡◌, ◌≤◌, ◌↔◌, length, IfOk, OnErr, IsErr};
ghost use Rattle.wire_session.specs.Asking.{nothing_asked, next_request, after_ask, is_awaited, after_reply, has_turn, after_turn, break_after};

use crate::replies::matches;
use little_endian::u32_at;
use std::marker::Model;
use wire_packets::command::BREAK;
use wire_packets::packet::{LAST_SEQ, MAX_PAYLOAD, Packet};
use wire_packets::payload::{BREAK_PLACE, BREAK_SIZE};

/// 65,535 requests were asked in this session.
#[derive(Clone, Copy, Debug, PartialEq, Eq)]
pub struct NumbersSpent;

/// The most turns that a request takes.
pub const MOST_TURNS: u8 = 8;

/// The end of a session that asks. It numbers its requests 1, 2, 3 and so on, and one of them is open at a time.
#[derive(Debug, Drop)]
pub struct Asker {
    asked: u16,
    waiting: Option<Packet>,
    turns: u8,
    /// The place of the last Break that was asked.
    last_break: Option<u32>,
}

impl Model for Asker {
    ghost use Rattle.wire_session.specs.Asking.{Asking};

    ghost Value = { Asking };

    ghost view = { λ a. record { asked = a.asked; waiting = a.waiting; turns = a.turns; last_break = a.last_break } };
}

/// The place of the last Break, once this was asked too.
fn break_after(last: Option<u32>, command: u32, payload: &[u8]) -> Option<u32>
    ensures { result ≡ break_after last command payload.now }
{
    if command == BREAK && payload.len() == BREAK_SIZE {
        Some(u32_at(payload, BREAK_PLACE))
    } else {
        last
    }
}

impl Asker {
    /// A session in which nothing was asked.
    pub fn new() -> Self
        ensures { result ≡ nothing_asked }
    {
        Asker {
            asked: 0,
            waiting: None,
            turns: 0,
            last_break: None,
        }
    }

    /// The next request, which is open from now on. `NumbersSpent` comes exactly after 65,535 requests.
    pub fn ask(&mut self, command: u32, payload: &[u8]) -> Result<Packet, NumbersSpent>
        requires { length payload.now ≤ MAX_PAYLOAD }
        ensures request { IfOk result (λ p. p ≡ next_request self.old command payload.now) }
        ensures asked { IfOk result (λ _. self.new ≡ after_ask self.old command payload.now) }
        ensures spent { IsErr result ↔ (65535 ≤ self.old.asked) }
        ensures err { OnErr result (self.new ≡ self.old) }
    {
        if self.asked == LAST_SEQ {
            return Err(NumbersSpent);
        }
        let number = self.asked + 1;
        self.asked = number;
        self.waiting = Some(Packet::request(command, number, payload));
        self.turns = 0;
        self.last_break = break_after(self.last_break, command, payload);
        Ok(Packet::request(command, number, payload))
    }

    /// Whether the packet is the reply to the open request, which then is open no more.
    pub fn take(&mut self, p: &Packet) -> bool
        ensures awaited { result ≡ is_awaited self.old p.now }
        ensures after { self.new ≡ after_reply self.old p.now }
    {
        let awaited = match &self.waiting {
            None => false,
            Some(request) => matches(self.last_break, request, p),
        };
        if awaited {
            self.waiting = None;
        }
        awaited
    }

    /// Takes a turn of the open request, where one is left of its eight.
    pub fn turn(&mut self) -> bool
        ensures left { result ≡ has_turn self.old }
        ensures after { self.new ≡ after_turn self.old }
    {
        if self.waiting.is_none() || self.turns >= MOST_TURNS {
            return false;
        }
        self.turns += 1;
        true
    }
}
