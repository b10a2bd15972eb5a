//! The orders of a call line.

ghost use Rattle.std.specs.Prelude.{◌≡◌};
ghost use Rattle.line_words.specs.Steps.{Gives, Steps};
ghost use Rattle.work_lang.specs.CallOrders.{left_out, is_seq_cst, are_seq_cst, orders_of};
ghost use Rattle.work_lang.specs.Reading.{order_at, one_order_at, two_orders_at, orders_at};

use crate::fault::{Cause, Slip};
use crate::words::{check, end, need, word};
use line_words::Words;
use op_table::{Call, Order, is_exchange, order_fits, order_of_word};
use place_core::Line;

/// The orders of a call. Only an exchange has a failure order.
#[derive(Clone, Copy, Debug, PartialEq, Eq)]
pub struct Orders {
    pub success: Order,
    pub failure: Option<Order>,
}

/// The orders of a line that has none.
fn left_out(call: &Call) -> Orders
    ensures { result ≡ left_out call.now }
{
    Orders {
        success: Order::SeqCst,
        failure: if is_exchange(call) {
            Some(Order::SeqCst)
        } else {
            None
        },
    }
}

/// The order that the next word is.
#[tactic(auto, unfolding(crate::specs::Reading::order_at))]
fn order(words: &mut Words<'_>) -> Result<Order, Slip>
    ensures { Steps (λ x. x) result words.new.cursor (order_at words.old.cursor) }
{
    let text = word(words)?;
    let order = need(words, Cause::Extra, order_of_word(text))?;
    Ok(order)
}

/// The order of a call that isn't an exchange.
#[tactic(auto, unfolding(crate::specs::Reading::one_order_at))]
fn one_order(call: &Call, words: &mut Words<'_>) -> Result<Orders, Slip>
    ensures { Gives (λ x. x) result (one_order_at call.now words.old.cursor) }
{
    let success = order(words)?;
    check(words, Cause::BadOrder, order_fits(call, success, None))?;
    end(words)?;
    Ok(Orders {
        success,
        failure: None,
    })
}

/// The orders of an exchange.
#[tactic(auto, unfolding(crate::specs::Reading::two_orders_at))]
fn two_orders(call: &Call, words: &mut Words<'_>) -> Result<Orders, Slip>
    ensures { Gives (λ x. x) result (two_orders_at call.now words.old.cursor) }
{
    let success = order(words)?;
    let failure = order(words)?;
    check(
        words,
        Cause::BadOrder,
        order_fits(call, success, Some(failure)),
    )?;
    end(words)?;
    Ok(Orders {
        success,
        failure: Some(failure),
    })
}

/// The orders of a call, which may be left out.
#[tactic(auto, unfolding(crate::specs::Reading::orders_at))]
pub fn read_orders(call: &Call, words: &mut Words<'_>) -> Result<Orders, Slip>
    ensures { Gives (λ x. x) result (orders_at call.now words.old.cursor) }
{
    if words.is_end() {
        Ok(left_out(call))
    } else if is_exchange(call) {
        two_orders(call, words)
    } else {
        one_order(call, words)
    }
}

fn is_seq_cst(order: Order) -> bool
    ensures { result ≡ is_seq_cst order }
{
    order == Order::SeqCst
}

/// Whether the orders of a line are left out where it is printed.
pub fn are_left_out(line: &Line) -> bool
    ensures { result ≡ are_seq_cst (orders_of line.now) }
{
    match line.failure {
        Some(failure) => is_seq_cst(line.success) && is_seq_cst(failure),
        None => is_seq_cst(line.success),
    }
}
