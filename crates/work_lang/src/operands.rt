//! The operands of operations and of calls.

ghost use Rattle.std.specs.Prelude.{◌≡◌, Some};
ghost use Rattle.line_words.specs.Steps.{Steps};
ghost use Rattle.op_table.specs.Kind.{IsKind};
ghost use Rattle.op_table.specs.Value.{parsed_value};
ghost use Rattle.work_lang.specs.Operands.{form_of, is_later, arity_of, alone_in, value_in, position_in, values_in, zero_call, position_kind, operands_in};
ghost use Rattle.work_lang.specs.declared.operands.Arity.TheVariants as arities;
ghost use Rattle.work_lang.specs.Reading.{number_at, operands_at};

use crate::fault::Slip;
use crate::words::{value, word};
use line_words::Words;
use op_table::{Call, Class, Kind, Operation, ValueFault, Width, read_value};

/// Which operands an operation has.
#[derive(Clone, Copy, Debug, PartialEq, Eq)]
pub enum Arity {
    None,
    /// A value of the object's kind.
    Value,
    /// The position of a bit.
    Position,
    /// Two values of the object's kind.
    Values,
}

/// The operands of a call.
#[derive(Clone, Copy, Debug, PartialEq, Eq)]
pub enum Operands {
    None,
    Value(u128),
    Position(u32),
    Values(u128, u128),
}

/// Positions of bits are read and printed as values of u32.
pub const POSITION: Kind = Kind {
    width: Width::W32,
    signed: false,
    class: Class::Int,
};

fn arity_of(operation: Operation) -> Arity
    ensures { result ≡ arity_of operation }
{
    match operation {
        Operation::Load
        | Operation::FetchNot
        | Operation::Not
        | Operation::FetchNeg
        | Operation::Neg => Arity::None,
        Operation::BitSet | Operation::BitClear | Operation::BitToggle => Arity::Position,
        Operation::CompareExchange | Operation::CompareExchangeWeak => Arity::Values,
        _ => Arity::Value,
    }
}

/// Whether version 1 of the language lacks the operation: it answers the new value.
pub fn is_later(operation: Operation) -> bool
    ensures { result ≡ is_later operation }
{
    matches!(
        operation,
        Operation::AddFetch
            | Operation::SubFetch
            | Operation::AndFetch
            | Operation::NandFetch
            | Operation::OrFetch
            | Operation::XorFetch
    )
}

/// The call of an operation without operands.
fn alone(operation: Operation) -> Call
    requires { arity_of operation ≡ arities.None }
    ensures { alone_in (form_of operation) ≡ Some result }
{
    match operation {
        Operation::Load => Call::Load,
        Operation::FetchNot => Call::Not(false),
        Operation::Not => Call::Not(true),
        Operation::FetchNeg => Call::Neg(false),
        Operation::Neg => Call::Neg(true),
        _ => unreachable!(),
    }
}

/// The call of an operation with a value.
fn with_value(operation: Operation, a: u128) -> Call
    requires { arity_of operation ≡ arities.Value }
    ensures { value_in (form_of operation) a ≡ Some result }
{
    match operation {
        Operation::Store => Call::Store(a),
        Operation::Swap => Call::Swap(a),
        Operation::FetchAdd | Operation::FetchByteAdd => Call::Add(a, false),
        Operation::Add => Call::Add(a, true),
        Operation::FetchSub | Operation::FetchByteSub => Call::Sub(a, false),
        Operation::Sub => Call::Sub(a, true),
        Operation::FetchAnd => Call::And(a, false),
        Operation::And => Call::And(a, true),
        Operation::FetchNand => Call::Nand(a),
        Operation::FetchOr => Call::Or(a, false),
        Operation::Or => Call::Or(a, true),
        Operation::FetchXor => Call::Xor(a, false),
        Operation::Xor => Call::Xor(a, true),
        Operation::FetchMax => Call::Max(a),
        Operation::FetchMin => Call::Min(a),
        Operation::AddFetch => Call::AddFetch(a),
        Operation::SubFetch => Call::SubFetch(a),
        Operation::AndFetch => Call::AndFetch(a),
        Operation::NandFetch => Call::NandFetch(a),
        Operation::OrFetch => Call::OrFetch(a),
        Operation::XorFetch => Call::XorFetch(a),
        _ => unreachable!(),
    }
}

/// The call of an operation with the position of a bit.
fn with_position(operation: Operation, p: u32) -> Call
    requires { arity_of operation ≡ arities.Position }
    ensures { position_in (form_of operation) p ≡ Some result }
{
    match operation {
        Operation::BitSet => Call::BitSet(p),
        Operation::BitClear => Call::BitClear(p),
        Operation::BitToggle => Call::BitToggle(p),
        _ => unreachable!(),
    }
}

/// The call of an operation with two values.
fn with_values(operation: Operation, expected: u128, new: u128) -> Call
    requires { arity_of operation ≡ arities.Values }
    ensures { values_in (form_of operation) expected new ≡ Some result }
{
    match operation {
        Operation::CompareExchange => Call::Cas(expected, new),
        Operation::CompareExchangeWeak => Call::CasWeak(expected, new),
        _ => unreachable!(),
    }
}

/// The call of an operation whose operands are 0.
pub fn zero_call(operation: Operation) -> Call
    ensures { result ≡ zero_call operation }
{
    match arity_of(operation) {
        Arity::None => alone(operation),
        Arity::Value => with_value(operation, 0),
        Arity::Position => with_position(operation, 0),
        Arity::Values => with_values(operation, 0, 0),
    }
}

/// A value of a kind, as the next word.
#[tactic(auto, unfolding(crate::specs::Reading::number_at))]
fn number(kind: Kind, words: &mut Words<'_>) -> Result<u128, Slip>
    requires { IsKind kind }
    ensures { Steps (λ x. x) result words.new.cursor (number_at kind words.old.cursor) }
{
    let text = word(words)?;
    let n = value(words, read_value(kind, text))?;
    Ok(n)
}

/// The number that a word spells as a value of u32: the position of a bit, or how often a block is made. BadNumber where it
/// isn't the text of a number, OutOfRange where the number is 2^32 or more.
pub fn read_position(text: &[u8]) -> Result<u32, ValueFault>
    ensures { result ≡ parsed_value position_kind text.now }
{
    match read_value(POSITION, text) {
        Ok(p) => Ok(p as u32),
        Err(fault) => Err(fault),
    }
}

/// The position of a bit, as the next word.
#[tactic(auto, unfolding(crate::specs::Reading::number_at))]
fn position(words: &mut Words<'_>) -> Result<u32, Slip>
    ensures { Steps (λ x. x) result words.new.cursor (number_at position_kind words.old.cursor) }
{
    let text = word(words)?;
    let p = value(words, read_position(text))?;
    Ok(p)
}

/// The call of an operation, with the operands that follow.
pub fn read_operands(kind: Kind, operation: Operation, words: &mut Words<'_>) -> Result<Call, Slip>
    requires { IsKind kind }
    ensures { Steps (λ x. x) result words.new.cursor (operands_at kind (form_of operation) words.old.cursor) }
{
    match arity_of(operation) {
        Arity::None => Ok(alone(operation)),
        Arity::Value => {
            let a = number(kind, words)?;
            Ok(with_value(operation, a))
        }
        Arity::Position => {
            let p = position(words)?;
            Ok(with_position(operation, p))
        }
        Arity::Values => {
            let expected = number(kind, words)?;
            let new = number(kind, words)?;
            Ok(with_values(operation, expected, new))
        }
    }
}

/// The operands of a call.
pub fn operands_in(call: &Call) -> Operands
    ensures { result ≡ operands_in call.now }
{
    match call {
        Call::Load | Call::Not(_) | Call::Neg(_) => Operands::None,
        Call::Cas(expected, new) | Call::CasWeak(expected, new) => {
            Operands::Values(*expected, *new)
        }
        Call::BitSet(p) | Call::BitClear(p) | Call::BitToggle(p) => Operands::Position(*p),
        Call::Store(a) | Call::Swap(a) => Operands::Value(*a),
        Call::Add(a, _) | Call::Sub(a, _) => Operands::Value(*a),
        Call::And(a, _) | Call::Or(a, _) | Call::Xor(a, _) => Operands::Value(*a),
        Call::Nand(a) | Call::Max(a) | Call::Min(a) => Operands::Value(*a),
        Call::AddFetch(a) | Call::SubFetch(a) => Operands::Value(*a),
        Call::AndFetch(a) | Call::NandFetch(a) => Operands::Value(*a),
        Call::OrFetch(a) | Call::XorFetch(a) => Operands::Value(*a),
    }
}
