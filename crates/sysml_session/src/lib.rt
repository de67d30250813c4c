//! A session over a project: commands are read from an input, done one after the other, and answered on an
//! output, until `end`, a row of the table of stops, a fault or want of memory.
#![tactic(auto)]

mod answering;
mod fault;
mod serving;
#[cfg(test)]
mod tests;

pub use answering::{AnswerFault, Answering, give_piece};
pub use fault::ServeFault;
pub use serving::serve;
