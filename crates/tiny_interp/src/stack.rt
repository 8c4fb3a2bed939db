//! A stack of at most eight numbers.

ghost use Rattle.std.specs.Prelude.{◌≡◌, ◌<◌, ◌≤◌, [], ◌∷◌, length, MatchOption, OnSome};

use arrayvec::ArrayVec;
use std::marker::Model;

/// At most eight numbers. Contracts see them with the top first.
#[derive(Drop)]
pub struct Stack {
    values: ArrayVec<i32, 8>,
}

impl Model for Stack {
    ghost use Rattle.std.specs.Prelude.{List, ℤ, reverse};

    ghost Value = { List ℤ };

    ghost view = { λ s. reverse s.values.items };
}

impl Stack {
    /// An empty stack.
    pub fn new() -> Self
        ensures { result ≡ [] }
    {
        Stack {
            values: ArrayVec::new(),
        }
    }

    /// How many numbers it holds.
    pub fn len(&self) -> usize
        ensures count { result ≡ length self.now }
        ensures most { result ≤ 8 }
    {
        self.values.len()
    }

    /// Puts a number on top.
    pub fn push(&mut self, value: i32)
        requires { length self.old < 8 }
        ensures { self.new ≡ value ∷ self.old }
    {
        self.values.push(value);
    }

    /// Takes the top off.
    pub fn pop(&mut self) -> Option<i32>
        ensures taken { MatchOption result (self.old ≡ []) (λ value. self.old ≡ value ∷ self.new) }
        ensures room { OnSome result (length self.new < 8) }
    {
        let _most = self.len();
        let top = self.values.pop()?;
        Some(top)
    }
}
