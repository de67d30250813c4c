//! The reader of a script: it takes the bytes of an input in pieces of any size, never holds the whole of
//! it, and gives one command after the other, or the row of the table of stops at which it stops.
#![tactic(auto)]

mod command;
mod line;
mod piece;
mod reader;
#[cfg(test)]
mod tests;

pub use command::{Command, ReadStop};
pub use reader::ScriptReader;
