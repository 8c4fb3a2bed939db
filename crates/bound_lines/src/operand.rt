//! Operands.

ghost use Rattle.std.specs.Prelude.{◌≡◌, ℕ, Some, List, slice_get, unsigned_abs};
ghost use Rattle.std.specs.Option.{option_map};
ghost use Rattle.classes.specs.Code as listed;
ghost use Rattle.assemblies.specs.Binding as binding;
ghost use Rattle.world_rows.specs.World.{size_of};
ghost use Rattle.image_bytes.specs.Layout as layout;
ghost use Rattle.image_form.specs.Codes.{short, lie_of, number_of, operand_of, Unsigned};
ghost use Rattle.image_form.specs.Form.{meaning};
ghost use Rattle.member_keys.specs.Seen.{class_seen, type_seen};
ghost use Rattle.msspot_read.specs.Held.{held_of};
ghost use Rattle.set_names.specs.Names.{seen_all};
ghost use Rattle.tiny_code.specs.Numbers.{IsToken, plain_seen};
ghost use Rattle.bound_lines.specs.Lines.{operand_seen};

use crate::lines::{BoardOperand, LiteralAt, Targets};
use crate::members::{field_named, method_named};
use crate::types::type_named;
use bound_answers::BoundSet;
use cil_opcodes::shape::Operand;
use member_keys::{ClassId, TypeKey};
use msspot_read::Image;
use tiny_code::{CodeInstr, Number};

/// The number of an operand that is one.
fn signed(number: Number<'_>) -> i64
    ensures { result ≡ number_of (plain_seen number.entry) }
{
    match number {
        Number::Signed(number) => number,
        Number::Unsigned(number) => i64::from(number),
        Number::Bare | Number::Distances(_) => 0,
    }
}

/// The number of a token.
fn word(number: Number<'_>) -> u16
    requires { (n : ℕ) × (plain_seen number ≡ Unsigned n) }
    ensures { result ≡ unsigned_abs (number_of (plain_seen number.entry)) }
{
    match number {
        Number::Unsigned(number) => number,
        Number::Bare | Number::Signed(_) | Number::Distances(_) => unreachable!(),
    }
}

/// A type as an operand.
fn of_type(found: Option<TypeKey>) -> BoardOperand<'static>
    ensures { (is : List layout.Image) → operand_seen is result ≡ binding.or_unresolved listed.OfType (option_map type_seen found) }
{
    match found {
        Some(found) => BoardOperand::OfType(found),
        None => BoardOperand::Unresolved,
    }
}

/// A field as an operand.
fn of_field(found: Option<ClassId>) -> BoardOperand<'static>
    ensures { (is : List layout.Image) → operand_seen is result ≡ binding.or_unresolved listed.OfField (option_map class_seen found) }
{
    match found {
        Some(found) => BoardOperand::OfField(found),
        None => BoardOperand::Unresolved,
    }
}

/// A method as an operand.
fn of_method(found: Option<ClassId>) -> BoardOperand<'static>
    ensures { (is : List layout.Image) → operand_seen is result ≡ binding.or_unresolved listed.OfMethod (option_map class_seen found) }
{
    match found {
        Some(found) => BoardOperand::OfMethod(found),
        None => BoardOperand::Unresolved,
    }
}

/// What the operand of an instruction of an image names.
#[tactic(auto, using(crate::proofs::CodeLaws::text_is))]
pub fn operand<'a>(
    set: &BoundSet<'_, '_, '_, 'a>,
    image: &Image<'a>,
    file: u16,
    found: CodeInstr<'a>,
) -> BoardOperand<'a>
    requires here { Some image.now ≡ slice_get set.now file }
    requires token { IsToken (lie_of short found.row.operand) (plain_seen found.number) }
    ensures { operand_seen set.now result ≡ binding.operand (size_of (seen_all set.now)) (seen_all set.now) file (operand_of (meaning (held_of image.now)) found.entry.row.operand found.entry.next (plain_seen found.entry.number)) }
{
    let number = found.number;
    match found.row.operand {
        Operand::Nothing => BoardOperand::NoOperand,
        Operand::Int8 | Operand::UInt8 | Operand::UInt16 | Operand::Int32 | Operand::Int64 => {
            BoardOperand::Number(signed(number))
        }
        Operand::BranchShort | Operand::BranchLong | Operand::Switch => {
            BoardOperand::Targets(Targets {
                next: found.next,
                distances: number,
            })
        }
        Operand::TypeToken => of_type(type_named(set, file, word(number))),
        Operand::FieldToken | Operand::AnyToken => of_field(field_named(set, file, word(number))),
        Operand::MethodToken => of_method(method_named(set, file, word(number))),
        Operand::StringToken => BoardOperand::OfText(LiteralAt {
            assembly: file,
            place: word(number),
        }),
    }
}
