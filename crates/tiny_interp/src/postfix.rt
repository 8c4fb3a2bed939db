//! The evaluation of code that is a postfix expression.

ghost use Rattle.std.specs.Prelude.{◌≡◌, ◌≢◌, ℤ, ◌<◌, ◌+◌, ◌==◌, ◌↔◌, IsTrue, IsSome, IfSome, Some, None, option_map, nat_le, length, if◌then◌else◌, MatchOption};
ghost use Rattle.tiny_interp.specs.declared.postfix.Item.TheVariants.{Number};
ghost use Rattle.tiny_interp.specs.Postfix.{item_at, combined, single, stack_after, first_value, first_count};

use crate::stack::Stack;

/// What an instruction of the expression stands for.
#[derive(Clone, Copy, Debug, PartialEq, Eq)]
pub enum Item {
    Number(i32),
    Add,
    Subtract,
    Multiply,
    Return,
}

/// What an expression comes to: its value, and how many instructions it has.
#[derive(Clone, Copy, Debug, PartialEq, Eq)]
struct Outcome {
    value: i32,
    count: u64,
}

/// The instruction at the front of a code, and the code after it.
#[tactic(auto, unfolding(crate::specs::Postfix::item_at))]
fn item_at(code: &[u8]) -> Option<(Item, &[u8])>
    ensures { option_map (λ p. (p.0, p.1.now)) result ≡ item_at code.now }
{
    let (op, rest) = code.split_first()?;
    match *op {
        0x15..=0x1E => Some((Item::Number(i32::from(*op) - 0x16), rest)),
        0x1F => {
            let (byte, rest) = rest.split_first()?;
            Some((Item::Number(i32::from(byte.cast_signed())), rest))
        }
        0x20 => {
            let (bytes, rest) = rest.split_first_chunk::<4>()?;
            Some((Item::Number(i32::from_le_bytes(*bytes)), rest))
        }
        0x58 => Some((Item::Add, rest)),
        0x59 => Some((Item::Subtract, rest)),
        0x5A => Some((Item::Multiply, rest)),
        0x2A => Some((Item::Return, rest)),
        _ => None,
    }
}

/// What an operation makes of two numbers.
fn combined(item: Item, first: i32, second: i32) -> Option<i32>
    ensures { result ≡ combined item first second }
{
    match item {
        Item::Add => Some(first.wrapping_add(second)),
        Item::Subtract => Some(first.wrapping_sub(second)),
        Item::Multiply => Some(first.wrapping_mul(second)),
        Item::Number(_) | Item::Return => None,
    }
}

/// Takes two numbers off the stack, and puts what an operation makes of them on it.
fn operate(item: Item, stack: &mut Stack) -> Option<()>
    requires { (n : ℤ) → item ≢ Number n }
    ensures { MatchOption result (stack_after item stack.old ≡ None) (λ _. stack_after item stack.old ≡ Some stack.new) }
{
    let second = stack.pop()?;
    let first = stack.pop()?;
    let value = combined(item, first, second)?;
    stack.push(value);
    Some(())
}

/// What an item makes of the stack, where it has room or enough numbers for it.
fn apply(item: Item, stack: &mut Stack) -> Option<()>
    ensures { MatchOption result (stack_after item stack.old ≡ None) (λ _. stack_after item stack.old ≡ Some stack.new) }
{
    match item {
        Item::Number(value) if stack.len() < 8 => {
            stack.push(value);
            Some(())
        }
        Item::Number(_) => None,
        _ => operate(item, stack),
    }
}

/// The expression's value and count of instructions, where the code is one.
fn evaluate(code: &[u8]) -> Option<Outcome>
    ensures value { option_map (λ o. o.value) result ≡ first_value code.now }
    ensures count { IfSome result (λ o. o.count ≡ first_count code.now) }
{
    let mut stack = Stack::new();
    let mut rest = code;
    for index in 0..code.len() {
        let (item, behind) = item_at(rest)?;
        if let Item::Return = item {
            let value = finished(&mut stack, behind)?;
            let count = index as u64 + 1;
            return Some(Outcome { value, count });
        }
        apply(item, &mut stack)?;
        rest = behind;
    }
    None
}

/// What the return makes of the stack, before this rest of the code.
fn finished(stack: &mut Stack, behind: &[u8]) -> Option<i32>
    ensures { result ≡ (if length behind.now == 0 then single stack.old else None) }
{
    let value = stack.pop()?;
    if !behind.is_empty() || stack.len() > 0 {
        return None;
    }
    Some(value)
}

/// Whether the code is an expression that [`run1`] evaluates: whole instructions among the `int32` constants, `add`,
/// `sub` and `mul`, then `ret` as the last byte, where the stack always has enough values, at most eight, and one at
/// the end.
pub fn is_postfix(code: &[u8]) -> bool
    ensures { IsTrue result ↔ IsSome (first_value code.now) }
{
    evaluate(code).is_some()
}

/// The value of an expression, unless it has more instructions than `steps`.
pub fn run1(code: &[u8], steps: u64) -> Option<i32>
    requires { IsSome (first_value code.now) }
    ensures { result ≡ (if nat_le (first_count code.now) steps then first_value code.now else None) }
{
    let outcome = evaluate(code)?;
    if outcome.count <= steps {
        Some(outcome.value)
    } else {
        None
    }
}

#[cfg(test)]
mod tests {
    use super::*;

    #[test]
    fn constants_are_evaluated(rt: HostRuntime) {
        let ten_times: [u8; 7] = [0x1F, 0x0A, 0x19, 0x5A, 0x17, 0x59, 0x2A];
        let overflow: [u8; 8] = [0x20, 0xFF, 0xFF, 0xFF, 0x7F, 0x17, 0x58, 0x2A];
        assert_eq!(rt; answer(&ten_times, 6), Some(Some(29)));
        assert_eq!(rt; answer(&ten_times, 5), Some(None));
        assert_eq!(rt; answer(&overflow, 9), Some(Some(-2147483648)));
    }

    #[test]
    fn other_code_is_no_expression(rt: HostRuntime) {
        let nine: [u8; 11] = [0x16; 11];
        let others: [&[u8]; 8] = [
            &[],
            &[0x2A],
            &[0x16, 0x16, 0x2A],
            &[0x16, 0x58, 0x2A],
            &[0x16, 0x2A, 0x2A],
            &[0x1F, 0x2A],
            &[0x16, 0x00, 0x2A],
            &nine,
        ];
        for code in others {
            assert!(rt; !is_postfix(code), "{code:?}");
        }
    }

    /// What `run1` gives, where the code is an expression.
    fn answer(code: &[u8], steps: u64) -> Option<Option<i32>> {
        if is_postfix(code) {
            Some(run1(code, steps))
        } else {
            None
        }
    }
}
