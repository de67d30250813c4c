//! A small instance of the rules of `demand_core`, by which its engine is tried: numbers that name
//! pairs of numbers. It shows how a rule is written as a computation, and how code is proved to ask
//! as the computation says.
#![tactic(auto)]

mod example;
mod number;

pub use example::{Example, Pair};
pub use number::Number;
