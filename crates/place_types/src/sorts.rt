//! Numbers and references on the stack, and what operators make of them (ECMA-335 III.1.5).

ghost use Rattle.std.specs.Prelude.{◌≡◌};
ghost use Rattle.std.specs.Option.{option_map};
ghost use Rattle.machine_typed.specs.Typing.{is_reference as is_reference_type, is_int as is_int_type, binary_type, shift_type, unary_type, sort_of, is_comparable};
ghost use Rattle.place_types.specs.Types.{stack_of};

use ecma_types::stack::StackType;

/// Whether it is null or another reference.
pub fn is_reference(of: &StackType) -> bool
    ensures { result ≡ is_reference_type (stack_of of.now) }
{
    matches!(of, StackType::Null | StackType::O(_))
}

/// Whether it is an int32.
pub fn is_int(of: &StackType) -> bool
    ensures { result ≡ is_int_type (stack_of of.now) }
{
    matches!(of, StackType::I)
}

/// The type of an operator of one number.
pub fn unary(x: &StackType) -> Option<StackType>
    ensures { option_map stack_of result ≡ unary_type (sort_of (stack_of x.now)) }
{
    match x {
        StackType::I => Some(StackType::I),
        StackType::L => Some(StackType::L),
        _ => None,
    }
}

/// The type of an operator of two numbers of one width.
pub fn binary(x: &StackType, y: &StackType) -> Option<StackType>
    ensures { option_map stack_of result ≡ binary_type (sort_of (stack_of x.now)) (sort_of (stack_of y.now)) }
{
    match x {
        StackType::I if matches!(y, StackType::I) => Some(StackType::I),
        StackType::L if matches!(y, StackType::L) => Some(StackType::L),
        _ => None,
    }
}

/// The type of a shift of a number by an int32.
pub fn shift(x: &StackType, y: &StackType) -> Option<StackType>
    ensures { option_map stack_of result ≡ shift_type (sort_of (stack_of x.now)) (sort_of (stack_of y.now)) }
{
    match y {
        StackType::I => unary(x),
        _ => None,
    }
}

/// Whether two values are compared, where `references` says that references are.
pub fn is_compared(references: bool, x: &StackType, y: &StackType) -> bool
    ensures { result ≡ is_comparable references (sort_of (stack_of x.now)) (sort_of (stack_of y.now)) }
{
    match x {
        StackType::I => matches!(y, StackType::I),
        StackType::L => matches!(y, StackType::L),
        StackType::Null | StackType::O(_) => references && is_reference(y),
        StackType::Pointer(_) | StackType::H => false,
    }
}
