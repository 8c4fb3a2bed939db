//! The network that a script describes. It keeps each request and reply of the session and delivers them by their
//! numbers, each as often as the script says.

ghost use Rattle.std.specs.Prelude.{◌≡◌, ◌++◌, ◌∷◌, [], List, map, IfOk, OnOk, OnErr};
ghost use Rattle.wire_script.specs.Script.{delivery, next_delivery, newest, turn_of, script_after};
ghost use Rattle.wire_script.specs.Script.{with_again};
ghost use Rattle.wire_script.specs.declared.delivery.Planned.TheVariants.{Request, Reply};

use crate::delivery::{Delivery, Planned};
use crate::net::{Item, Net};
use plain_types::fault::NoMemory;
use std::alloc::Global;
use std::collections::VecDeque;
use std::marker::Model;
use wire_packets::packet::Packet;

/// A network between a tool and a board.
#[derive(Debug, Drop)]
pub struct Wire {
    alloc: Global,
    script: VecDeque<Item>,
    /// How many turns that deliver the newest come before the script's.
    again: u16,
    requests: Vec<Packet>,
    replies: Vec<Packet>,
    left: VecDeque<Planned>,
}

impl Model for Wire {
    ghost use Rattle.wire_script.specs.Script.{Network};
    ghost use Rattle.wire_script.specs.Script.{with_again};

    ghost Value = { Network };

    ghost view = { λ w. record { script = with_again w.again w.script.items; requests = w.requests.items; replies = w.replies.items; left = w.left.items } };
}

/// The packet that is delivered, where it is there.
fn delivery(requests: &[Packet], replies: &[Packet], planned: Planned) -> Option<Delivery>
    ensures { result ≡ delivery requests.now replies.now planned }
{
    match planned {
        Planned::Request(n) => requests
            .get(n as usize)
            .map(|p| Delivery::ToBoard(p.copied())),
        Planned::Reply(n) => replies
            .get(n as usize)
            .map(|p| Delivery::ToTool(p.copied())),
        Planned::NewestRequest => requests.last().map(|p| Delivery::ToBoard(p.copied())),
        Planned::NewestReply => replies.last().map(|p| Delivery::ToTool(p.copied())),
    }
}

/// The next delivery. What isn't there yet is skipped.
fn next_delivery(requests: &[Packet], replies: &[Packet], left: &mut VecDeque<Planned>) -> Delivery
    ensures { (result, left.new.items) ≡ next_delivery requests.now replies.now left.old.items }
{
    while let Some(planned) = left.pop_front() {
        if let Some(found) = delivery(requests, replies, planned) {
            return found;
        }
    }
    Delivery::TurnOver
}

/// What a turn delivers that delivers the newest.
fn newest_turn(alloc: Global) -> Result<VecDeque<Planned>, NoMemory>
    ensures { IfOk result (λ left. left.items ≡ newest) }
{
    let mut left = VecDeque::new(alloc);
    left.push_back(Planned::NewestRequest)?;
    left.push_back(Planned::NewestReply)?;
    Ok(left)
}

/// What a turn delivers that delivers these requests and then these replies.
fn listed_turn(
    alloc: Global,
    requests: &[u16],
    replies: &[u16],
) -> Result<VecDeque<Planned>, NoMemory>
    ensures { IfOk result (λ left. left.items ≡ map Request requests.now ++ map Reply replies.now) }
{
    let mut left = VecDeque::new(alloc);
    plan_requests(&mut left, requests)?;
    plan_replies(&mut left, replies)?;
    Ok(left)
}

/// Plans the delivery of requests.
fn plan_requests(left: &mut VecDeque<Planned>, numbers: &[u16]) -> Result<(), NoMemory>
    ensures { OnOk result (left.new.items ≡ left.old.items ++ map Request numbers.now) }
{
    for number in numbers {
        left.push_back(Planned::Request(*number))?;
    }
    Ok(())
}

/// Plans the delivery of replies.
fn plan_replies(left: &mut VecDeque<Planned>, numbers: &[u16]) -> Result<(), NoMemory>
    ensures { OnOk result (left.new.items ≡ left.old.items ++ map Reply numbers.now) }
{
    for number in numbers {
        left.push_back(Planned::Reply(*number))?;
    }
    Ok(())
}

/// What the next turn delivers.
fn planned_turn(
    alloc: Global,
    again: u16,
    script: &VecDeque<Item>,
) -> Result<VecDeque<Planned>, NoMemory>
    ensures { IfOk result (λ left. left.items ≡ turn_of (with_again again script.now.items)) }
{
    if again > 0 {
        return newest_turn(alloc);
    }
    match script.front() {
        Some(Item::Turn(requests, replies)) => {
            listed_turn(alloc, requests.as_slice(), replies.as_slice())
        }
        _ => newest_turn(alloc),
    }
}

/// Takes the next turn away.
fn take_turn(again: &mut u16, script: &mut VecDeque<Item>)
    ensures { with_again again.new script.new.items ≡ script_after (with_again again.old script.old.items) }
{
    if *again > 0 {
        *again -= 1;
        return;
    }
    if let Some(Item::Newest(turns)) = script.pop_front() {
        *again = turns.saturating_sub(1);
    }
}

impl Wire {
    ghost use Rattle.wire_script.specs.Script.{new_network, after_send, after_next, after_reply, after_clear};

    /// The network of a script, before any session.
    pub fn new(alloc: Global, net: Net) -> Self
        ensures { result ≡ new_network net }
    {
        Wire {
            alloc,
            script: net.into_items(),
            again: 0,
            requests: Vec::new(alloc),
            replies: Vec::new(alloc),
            left: VecDeque::new(alloc),
        }
    }

    /// Sends a request, which begins a turn. An error changes nothing.
    pub fn send(&mut self, p: &Packet) -> Result<(), NoMemory>
        ensures ok { OnOk result (self.new ≡ after_send self.old p.now) }
        ensures err { OnErr result (self.new ≡ self.old) }
    {
        let left = planned_turn(self.alloc, self.again, &self.script)?;
        self.requests.push(p.copied())?;
        self.left = left;
        take_turn(&mut self.again, &mut self.script);
        Ok(())
    }

    /// The next delivery of the turn.
    pub fn next(&mut self) -> Delivery
        ensures delivery { result ≡ (next_delivery self.old.requests self.old.replies self.old.left).0 }
        ensures after { self.new ≡ after_next self.old }
    {
        next_delivery(&self.requests, &self.replies, &mut self.left)
    }

    /// Appends a reply of the board. An error changes nothing.
    pub fn reply(&mut self, p: &Packet) -> Result<(), NoMemory>
        ensures ok { OnOk result (self.new ≡ after_reply self.old p.now) }
        ensures err { OnErr result (self.new ≡ self.old) }
    {
        self.replies.push(p.copied())?;
        Ok(())
    }

    /// Drops the rest of the turn and empties both lists. The script goes on.
    pub fn clear(&mut self)
        ensures { self.new ≡ after_clear self.old }
    {
        self.left.clear();
        self.requests.clear();
        self.replies.clear();
    }
}
