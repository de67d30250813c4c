//! The operators of expressions over values: kinds of operands, 64-bit bounds, exact division,
//! joined texts, and what `and`, `or` and `implies` give by their first operand alone; and copies of
//! values.
//!
//! `value_model` defines the operators (specs/Operators). The checks come in the order kinds, zero
//! divisor, inexact, overflow.
#![tactic(auto)]

mod arith;
mod copies;
mod kinds;

pub use copies::{copy_answer, copy_text};
pub use kinds::{of_first, of_one, of_two};
