//! Writes the canonical text of a model, as `print_model` defines it.
//!
//! `Writer` puts tokens one after another, each behind the space that the two tokens ask for. Each definition
//! of a head has its function. Expressions and bodies are written without recursion: what is left waits on a
//! list, and a law for each turn says that what is written and what is left stay together.
#![tactic(auto)]

mod begins;
mod bodies;
mod ends;
mod expressions;
mod heads;
mod laws;
mod lines;
mod printing;
mod references;
mod signs;
mod spelling;
mod words;
mod writer;

pub use laws::profile_has_expressions;
pub use printing::print;
