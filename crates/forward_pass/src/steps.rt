//! What the pass asks of a method's instructions.

ghost use Rattle.std.specs.Prelude.{◌≡◌, ◌<◌, ℕ, List, [], IfOk, Some, length, slice_get};
ghost use Rattle.ecma_types.specs.declared.stack.StackType.{StackType as WorldType};
ghost use Rattle.machine_typed.specs.Typing.{StackType as MachineType};
ghost use Rattle.code_rules.specs.Pass.{Step};
ghost use Rattle.forward_pass.specs.Seen.{is_target, step_at};
ghost use Rattle.forward_pass.specs.Told.{Acts, Tells};

use ecma_types::stack::StackType;
use plain_types::fault::NoMemory;
use std::alloc::Global;

/// How a handler begins at an instruction, if one does (ECMA-335 III.1.7.5).
#[derive(Clone, Copy, Debug, PartialEq, Eq)]
pub enum Begins {
    /// No handler begins there.
    Nothing,
    /// One begins with nothing on the stack.
    Empty,
    /// One begins with the exception that it caught, of this type.
    Exception(StackType),
}

/// What is known of an instruction, whatever lies on the stack.
#[derive(Clone, Copy, Debug, PartialEq, Eq)]
pub struct StepFacts {
    /// The offset behind it, in bytes from the start of the code.
    pub next: u32,
    /// The handler that begins there.
    pub begins: Begins,
    /// A try begins there.
    pub tries: bool,
    /// The lowest of rules 45 (a transfer), 46 (the operand's token) and 47 (the number of an argument or local) that it breaks.
    pub broken: Option<u8>,
    /// How many targets its branches have.
    pub branches: usize,
    /// Control goes on behind it; nothing is said of an instruction that breaks a rule on every stack.
    pub falls: bool,
    /// Control may fall into it: rule 45 lets the instruction before it.
    pub falls_well: bool,
    /// Some branch of the method leads there; it may be said of other offsets too, at the cost of memory.
    pub targeted: bool,
}

/// The instructions of a method, each named by the offset at which it begins, in bytes from the start of the code.
pub trait Steps {
    /// The instructions, by rising offsets; none are where nothing is said of them.
    ghost are_steps: { Self → List Step → Type 0 };

    /// A type of the stack as the machine has it.
    ghost seen: { Self → WorldType → MachineType };

    /// What is known of the instruction at an offset. Nothing is said where none begins.
    fn facts(&self, alloc: Global, at: u32) -> Result<StepFacts, NoMemory>
        ensures { IfOk result (λ facts. (listed : List Step) → are_steps self.now listed → (s : Step) → step_at listed at ≡ Some s → Tells (seen self.now) s (is_target listed at) facts) };

    /// A target of the branches of the instruction at an offset, counted from 0. Nothing is said where there is none.
    fn target(&self, at: u32, branch: usize) -> u32
        ensures { (listed : List Step) → are_steps self.now listed → (s : Step) → step_at listed at ≡ Some s → branch < length s.goes → slice_get s.goes branch ≡ Some result };

    /// Makes the stack, whose last type is the topmost one, what the instruction at an offset leaves there; `Some` is the
    /// lowest rule that it breaks with these types, and nothing is said of the stack then. It is asked only of instructions
    /// that break nothing whatever lies on the stack.
    fn act(
        &self,
        alloc: Global,
        at: u32,
        stack: &mut Vec<StackType>,
    ) -> Result<Option<u8>, NoMemory>
        ensures { IfOk result (λ broken. (listed : List Step) → are_steps self.now listed → (s : Step) → step_at listed at ≡ Some s → s.broken ≡ [] → Acts (seen self.now) s stack.old.items stack.new.items broken) };
}
