//! What is still to come over a link in memory.

ghost use Rattle.std.specs.Prelude.{◌≡◌, ◌<◌, ◌≤◌, List, [], true, None, Some, length, take, min};
ghost use Rattle.std.specs.Option.{ForSome};
ghost use Rattle.std.specs.List.{list_all};
ghost use Rattle.outside_in_memory.specs.Queued.{has_bytes, queued, Comes, NextPiece, FrontPiece};

use mf_types::link::{Coming, Got, RECEIVE_SIZE};
use plain_types::list::Items;
use std::collections::VecDeque;
use std::marker::Model;

/// The rest of a piece that was begun, and the items after it.
#[derive(Debug, Drop)]
pub struct Queue {
    begun: Option<Items<u8>>,
    from: usize,
    items: VecDeque<Coming>,
}

impl Model for Queue {
    ghost use Rattle.std.specs.Prelude.{◌≡◌, ◌<◌, List, length, true};
    ghost use Rattle.std.specs.Option.{ForSome};
    ghost use Rattle.std.specs.List.{list_all};
    ghost use Rattle.mf_types.specs.declared.link.Coming.{Coming};
    ghost use Rattle.outside_in_memory.specs.Queued.{has_bytes, queued};

    ghost Value = { List Coming };

    ghost view = { λ q. queued q.begun q.from q.items.items };

    ghost invariant = { λ q. ForSome q.begun (λ piece. q.from < length piece) × (list_all has_bytes q.items.items ≡ true) };
}

/// Copies the front of a piece, as much as fits, and tells how much.
fn copy_front(piece: &[u8], into: &mut [u8]) -> usize
    requires { length into.old ≡ 2048 }
    ensures size { result ≡ min 2048 (length piece.now) }
    ensures bytes { take result into.new ≡ take result piece.now }
{
    let n = piece.len().min(RECEIVE_SIZE);
    into[..n].copy_from_slice(&piece[..n]);
    n
}

/// Takes the first item away, where it is a piece gives it, and tells a silence by none.
fn next_piece(items: &mut VecDeque<Coming>) -> Option<Items<u8>>
    requires { list_all has_bytes items.old.items ≡ true }
    ensures next { NextPiece result items.old.items items.new.items }
    ensures pieces { list_all has_bytes items.new.items ≡ true }
{
    match items.pop_front() {
        Some(Coming::Piece(piece)) => Some(piece),
        _ => None,
    }
}

/// The piece whose rest comes next, which isn't begun any more.
fn front(
    begun: &mut Option<Items<u8>>,
    from: &mut usize,
    items: &mut VecDeque<Coming>,
) -> Option<Items<u8>>
    requires begun { ForSome begun.old (λ piece. from.old < length piece) }
    requires pieces { list_all has_bytes items.old.items ≡ true }
    ensures front { FrontPiece result from.new (queued begun.old from.old items.old.items) items.new.items }
    ensures none { begun.new ≡ None }
    ensures pieces { list_all has_bytes items.new.items ≡ true }
{
    if let Some(piece) = begun.take() {
        return Some(piece);
    }
    *from = 0;
    next_piece(items)
}

/// Keeps a piece that was begun.
fn keep(begun: &mut Option<Items<u8>>, piece: Items<u8>)
    ensures { begun.new ≡ Some piece }
{
    *begun = Some(piece);
}

impl Queue {
    /// The items to come, each piece of which has a byte.
    pub fn new(items: VecDeque<Coming>) -> Self
        requires { list_all has_bytes items.items ≡ true }
        ensures { result ≡ items.items }
    {
        Queue {
            begun: None,
            from: 0,
            items,
        }
    }

    /// Takes what comes next: the front of a piece, or a silence.
    #[tactic(auto, using(crate::proofs::QueueLemmas::takes_on, crate::proofs::QueueLemmas::takes_all))]
    pub fn take(&mut self, into: &mut [u8]) -> Got
        requires { length into.old ≡ 2048 }
        ensures { Comes result into.new self.old self.new }
    {
        let Some(piece) = front(&mut self.begun, &mut self.from, &mut self.items) else {
            return Got::Silent;
        };
        let n = copy_front(&piece.as_slice()[self.from..], into);
        if self.from + n < piece.as_slice().len() {
            self.from += n;
            keep(&mut self.begun, piece);
        }
        Got::Bytes(n)
    }
}
