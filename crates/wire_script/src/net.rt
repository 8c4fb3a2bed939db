//! The words that script a network.

ghost use Rattle.std.specs.Prelude.{◌≡◌, ◌<◌, ℕ, map, IfOk, IsErrOf, Some, None};
ghost use Rattle.wire_script.specs.Net.{pieces, each, packet_number, number_list, newest_item, turn_item, item, script, Gives};

use numerals::numeral::number;
use plain_types::fault::NoMemory;
use plain_types::list::Items;
use std::alloc::{AllocError, AllocFailed, Global};
use std::collections::VecDeque;
use std::marker::Model;

/// An item of a script.
#[derive(Debug, Drop)]
pub enum Item {
    /// So many turns, each of which delivers the newest request and then the newest reply.
    Newest(u16),
    /// A turn that delivers these requests to the board and then these replies to the tool, by their numbers.
    Turn(Items<u16>, Items<u16>),
}

/// The script of a network: its turns in order.
#[derive(Debug, Drop)]
pub struct Net {
    items: VecDeque<Item>,
}

impl Model for Net {
    ghost use Rattle.std.specs.Prelude.{List};
    ghost use Rattle.wire_script.specs.declared.net.Item.{Item};

    ghost Value = { List Item };

    ghost view = { λ n. n.items.items };
}

/// Why a word is no script.
#[derive(Clone, Copy, Debug, PartialEq, Eq)]
pub enum NetRefusal {
    /// The word spells none.
    NotNet,
    /// The host has no memory left.
    NoMemory,
}

impl From<NoMemory> for NetRefusal {
    ghost use Rattle.std.specs.Prelude.{◌≡◌};
    ghost use Rattle.wire_script.specs.declared.net.NetRefusal.TheVariants as refusals;

    ghost from_gives = { λ _ e. e ≡ refusals.NoMemory };

    fn from(_error: NoMemory) -> NetRefusal {
        NetRefusal::NoMemory
    }
}

impl From<AllocError> for NetRefusal {
    ghost use Rattle.std.specs.Prelude.{◌≡◌};
    ghost use Rattle.wire_script.specs.declared.net.NetRefusal.TheVariants as refusals;

    ghost from_gives = { λ _ e. e ≡ refusals.NoMemory };

    fn from(_error: AllocError) -> NetRefusal {
        NetRefusal::NoMemory
    }
}

impl<T: Drop> From<AllocFailed<T>> for NetRefusal {
    ghost use Rattle.std.specs.Prelude.{◌≡◌};
    ghost use Rattle.wire_script.specs.declared.net.NetRefusal.TheVariants as refusals;

    ghost from_gives = { λ _ e. e ≡ refusals.NoMemory };

    fn from(_error: AllocFailed<T>) -> NetRefusal {
        NetRefusal::NoMemory
    }
}

/// The greatest number that a script writes.
const MOST_NUMBER: u64 = 65_535;

/// The most items that a script has.
const MOST_ITEMS: usize = 4096;

/// The pieces of a word between the separators.
fn pieces_of(alloc: Global, word: &str, separator: char) -> Result<Vec<&str>, AllocError>
    requires { separator < 128 }
    ensures { IfOk result (λ found. map (λ piece. piece.now) found.items ≡ pieces separator word.now) }
{
    word.split(separator).collect(alloc)
}

/// The number that a word writes, up to 65,535.
fn packet_number(word: &str) -> Option<u16>
    ensures { result ≡ packet_number word.now }
{
    match number(word, MOST_NUMBER) {
        Some(found) => Some(found as u16),
        None => None,
    }
}

/// The numbers of some words.
fn numbers_of(alloc: Global, words: &[&str]) -> Result<Vec<u16>, NetRefusal>
    ensures { Gives (λ found. found.items) result (each packet_number (map (λ word. word.now) words.now)) }
{
    let mut found = Vec::new(alloc);
    for word in words {
        match packet_number(word) {
            Some(number) => found.push(number)?,
            None => return Err(NetRefusal::NotNet),
        }
    }
    Ok(found)
}

/// Numbers with commas between them, or none.
#[tactic(auto, unfolding(crate::specs::Net::number_list))]
fn number_list(alloc: Global, word: &str) -> Result<Items<u16>, NetRefusal>
    ensures { Gives (λ found. found) result (number_list word.now) }
{
    if word.is_empty() {
        return Ok(Items::from_vec(Vec::new(alloc)));
    }
    let words = pieces_of(alloc, word, ',')?;
    Ok(Items::from_vec(numbers_of(alloc, &words)?))
}

/// `*n`, by its parts round the star.
fn newest_item(parts: &[&str]) -> Option<Item>
    ensures { result ≡ newest_item (map (λ part. part.now) parts.now) }
{
    match parts {
        [front, count] if front.is_empty() => match packet_number(count) {
            Some(n) if n > 0 => Some(Item::Newest(n)),
            _ => None,
        },
        _ => None,
    }
}

/// `A:B`, by its parts round the colon.
fn turn_item(alloc: Global, parts: &[&str]) -> Result<Item, NetRefusal>
    ensures { Gives (λ found. found) result (turn_item (map (λ part. part.now) parts.now)) }
{
    match parts {
        [requests, replies] => {
            let requests = number_list(alloc, requests)?;
            let replies = number_list(alloc, replies)?;
            Ok(Item::Turn(requests, replies))
        }
        _ => Err(NetRefusal::NotNet),
    }
}

/// An item by its word.
#[tactic(auto, unfolding(crate::specs::Net::item))]
fn item_of(alloc: Global, word: &str) -> Result<Item, NetRefusal>
    ensures { Gives (λ found. found) result (item word.now) }
{
    let parts = pieces_of(alloc, word, '*')?;
    if let Some(found) = newest_item(&parts) {
        return Ok(found);
    }
    let parts = pieces_of(alloc, word, ':')?;
    turn_item(alloc, &parts)
}

/// The items of some words.
fn items_of(alloc: Global, words: &[&str]) -> Result<VecDeque<Item>, NetRefusal>
    ensures { Gives (λ found. found.items) result (each item (map (λ word. word.now) words.now)) }
{
    let mut found = VecDeque::new(alloc);
    for word in words {
        found.push_back(item_of(alloc, word)?)?;
    }
    Ok(found)
}

/// The script of a word, computed piece by piece.
#[tactic(auto, unfolding(crate::specs::Net::script))]
fn script_of(alloc: Global, word: &str) -> Result<VecDeque<Item>, NetRefusal>
    ensures { Gives (λ found. found.items) result (script word.now) }
{
    if word == "-" {
        return Ok(VecDeque::new(alloc));
    }
    let words = pieces_of(alloc, word, ';')?;
    if words.len() > MOST_ITEMS {
        return Err(NetRefusal::NotNet);
    }
    items_of(alloc, &words)
}

impl Net {
    /// The script that a word spells: `-`, or at most 4,096 items with `;` between them. An item is `*n` with n from 1
    /// to 65,535, or `A:B`, where A and B are numbers up to 65,535 with `,` between them, perhaps none. A number is `0`
    /// or decimal digits of which the first is no zero.
    pub fn parse(alloc: Global, word: &str) -> Result<Net, NetRefusal>
        ensures net { IfOk result (λ net. script word.now ≡ Some net) }
        ensures not_net { IsErrOf result NetRefusal.NotNet → script word.now ≡ None }
    {
        let items = script_of(alloc, word)?;
        Ok(Net { items })
    }

    /// The items in order.
    pub fn into_items(self) -> VecDeque<Item>
        ensures { result.items ≡ self }
    {
        let Net { items } = self;
        items
    }
}
