//! What an operation changes, byte by byte.

ghost use Rattle.std.specs.Prelude.{◌≡◌, ◌+◌, ◌<◌, ◌≤◌, ℕ, length, take, drop};
ghost use Rattle.flash_trait.specs.Flash.{start, span, chosen, IsPossible, AreBytes, after, cut};
ghost use Rattle.block_flash.specs.Change.{operation_of, logged_of};

use arrayvec::ArrayVec;
use flash_trait::flash::SECTOR_SIZE;

/// An operation that is asked for.
#[derive(Clone, Copy, Debug)]
pub enum Change<'a> {
    Program { at: u32, bytes: &'a [u8] },
    Erase { sector: u32 },
}

/// An operation that was made.
#[derive(Debug, Drop)]
pub enum Logged {
    Program { at: u32, bytes: ArrayVec<u8, 8192> },
    Erase { sector: u32 },
}

/// An operation that was made, with the bytes that its range held before.
#[derive(Debug, Drop)]
pub struct Entry {
    pub operation: Logged,
    pub before: ArrayVec<u8, 8192>,
}

impl Change<'_> {
    /// Where the range of the operation begins.
    fn start(&self) -> usize
        requires { IsPossible (operation_of self.now) }
        ensures value { result ≡ start (operation_of self.now) }
        ensures inside { result + span (operation_of self.now) ≤ 262144 }
    {
        match self {
            Change::Program { at, bytes: _ } => *at as usize,
            Change::Erase { sector } => *sector as usize * SECTOR_SIZE,
        }
    }

    /// How many bytes the range has.
    fn span(&self) -> usize
        requires { IsPossible (operation_of self.now) }
        ensures value { result ≡ span (operation_of self.now) }
        ensures most { result ≤ 8192 }
    {
        match self {
            Change::Program { at: _, bytes } => bytes.len(),
            Change::Erase { sector: _ } => SECTOR_SIZE,
        }
    }

    /// What a mask byte leaves of the i-th byte of the range.
    fn byte(&self, i: usize, mask: u8, old: u8) -> u8
        requires { i < span (operation_of self.now) }
        ensures { result ≡ chosen (operation_of self.now) i mask old }
    {
        match self {
            Change::Program { at: _, bytes } => old ^ (mask & (old ^ (old & bytes[i]))),
            Change::Erase { sector: _ } => { if mask % 2 == 1 { 0xFF } else { old } }
        }
    }

    /// What the record keeps of the operation.
    fn logged(&self) -> Logged
        requires { IsPossible (operation_of self.now) }
        ensures { logged_of result ≡ operation_of self.now }
    {
        match self {
            Change::Program { at, bytes } => {
                let mut kept = ArrayVec::new();
                kept.try_extend_from_slice(bytes).unwrap();
                Logged::Program {
                    at: *at,
                    bytes: kept,
                }
            }
            Change::Erase { sector } => Logged::Erase { sector: *sector },
        }
    }

    /// The entry of the record that the operation gets, made before the content changes.
    pub fn entry(&self, content: &[u8]) -> Entry
        requires possible { IsPossible (operation_of self.now) }
        requires whole { length content.now ≡ 262144 }
        ensures operation { logged_of result.operation ≡ operation_of self.now }
        ensures before { result.before.items ≡ take (span (operation_of self.now)) (drop (start (operation_of self.now)) content.now) }
    {
        let start = self.start();
        let mut before = ArrayVec::new();
        before
            .try_extend_from_slice(&content[start..start + self.span()])
            .unwrap();
        Entry {
            operation: self.logged(),
            before,
        }
    }

    /// Makes the operation, as far as the mask lets it.
    pub fn make(&self, content: &mut [u8], mask: &[u8])
        requires possible { IsPossible (operation_of self.now) }
        requires whole { length content.old ≡ 262144 }
        requires bytes { AreBytes content.old }
        requires mask { 0 < length mask.now }
        ensures content { content.new ≡ cut (operation_of self.now) mask.now content.old }
        ensures bytes { AreBytes content.new }
    {
        let start = self.start();
        for i in 0..self.span() {
            let byte = self.byte(i, mask[i % mask.len()], content[start + i]);
            content[start + i] = byte;
        }
    }

    /// Makes the whole operation.
    pub fn make_whole(&self, content: &mut [u8])
        requires possible { IsPossible (operation_of self.now) }
        requires whole { length content.old ≡ 262144 }
        requires bytes { AreBytes content.old }
        ensures content { content.new ≡ after (operation_of self.now) content.old }
        ensures bytes { AreBytes content.new }
    {
        self.make(content, &[0xFF]);
    }
}
