//! Printing call lines.

ghost use Rattle.std.specs.Prelude.{◌≡◌, ◌+◌, ◌<◌, ◌≤◌, ◌++◌, ◌∷◌, [], length, map, slice_get, IsSomeAnd};
ghost use Rattle.std.specs.List.{flat_map};
ghost use Rattle.op_table.specs.Kind.{IsKind, values_of};
ghost use Rattle.op_table.specs.Call.{CallFits};
ghost use Rattle.op_table.specs.Value.{value_text};
ghost use Rattle.op_table.specs.Words.{call_word};
ghost use Rattle.op_table.specs.Orders.{order_word};
ghost use Rattle.work_lang.specs.Workload.{HasLine};
ghost use Rattle.work_lang.specs.CallOrders.{and_failure, orders_of};
ghost use Rattle.work_lang.specs.Print.{operand_words, order_words, words_with, call_line};

use crate::operands::{Operands, POSITION, operands_in};
use crate::orders::are_left_out;
use op_table::{Call, Kind, LineBuf, Order, call_word, order_word};
use place_core::{Declared, Line};

/// Adds a space and the text of a value, 41 bytes at most.
fn push_operand(out: &mut LineBuf, kind: Kind, value: u128)
    requires kind { IsKind kind }
    requires value { value < values_of kind }
    requires room { length out.old + 41 ≤ 256 }
    ensures value { out.new ≡ out.old ++ 32 ∷ value_text kind value }
    ensures short { length out.new ≤ length out.old + 41 }
{
    out.push_text(b" ");
    out.push_value(kind, value);
}

/// Adds the operands of a call, each with a space before it.
fn push_operands(out: &mut LineBuf, kind: Kind, call: &Call)
    requires kind { IsKind kind }
    requires fits { CallFits kind call.now }
    requires room { length out.old + 82 ≤ 256 }
    ensures value { out.new ≡ out.old ++ flat_map (λ w. 32 ∷ w) (operand_words kind call.now) }
    ensures short { length out.new ≤ length out.old + 82 }
{
    match operands_in(call) {
        Operands::None => {}
        Operands::Value(value) => push_operand(out, kind, value),
        Operands::Position(position) => push_operand(out, POSITION, u128::from(position)),
        Operands::Values(expected, new) => {
            push_operand(out, kind, expected);
            push_operand(out, kind, new);
        }
    }
}

/// Adds a space and the word of an order, 8 bytes at most.
fn push_order(out: &mut LineBuf, order: Order)
    requires room { length out.old + 8 ≤ 256 }
    ensures value { out.new ≡ out.old ++ 32 ∷ order_word order }
    ensures short { length out.new ≤ length out.old + 8 }
{
    out.push_text(b" ");
    out.push_text(order_word(order).as_bytes());
}

/// Adds the orders of a line, each with a space before it, unless they are left out.
fn push_orders(out: &mut LineBuf, line: &Line)
    requires room { length out.old + 16 ≤ 256 }
    ensures value { out.new ≡ out.old ++ flat_map (λ w. 32 ∷ w) (order_words (orders_of line.now)) }
    ensures short { length out.new ≤ length out.old + 16 }
{
    if are_left_out(line) {
        return;
    }
    push_order(out, line.success);
    if let Some(failure) = line.failure {
        push_order(out, failure);
    }
}

/// Adds a space and the word of a call, 22 bytes at most.
fn push_word(out: &mut LineBuf, kind: Kind, call: &Call)
    requires kind { IsKind kind }
    requires fits { CallFits kind call.now }
    requires room { length out.old + 22 ≤ 256 }
    ensures value { out.new ≡ out.old ++ 32 ∷ call_word kind call.now }
    ensures short { length out.new ≤ length out.old + 22 }
{
    out.push_text(b" ");
    out.push_text(call_word(kind, call).as_bytes());
}

/// Adds the canonical line of a call, without a line feed. It takes 136 bytes at most.
pub fn push_call(out: &mut LineBuf, objects: &[Declared], line: &Line)
    requires line { IsSomeAnd (slice_get objects.now line.now.object) (λ d. IsKind d.kind × HasLine line.now d) }
    requires room { length out.old + 136 ≤ 256 }
    ensures value { out.new ≡ out.old ++ call_line objects.now line.now }
    ensures short { length out.new ≤ length out.old + 136 }
{
    let object = objects[line.object as usize];
    let name = object.name;
    out.push_text(name.bytes());
    push_word(out, object.kind, &line.call);
    push_operands(out, object.kind, &line.call);
    push_orders(out, line);
}
