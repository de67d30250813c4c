//! The program's top call: a script on the input, its answers on the output, one line on the errors where it
//! fails. It runs a session over a project that reads KerML and SysML and links by the rules of names.
#![tactic(auto)]

mod program;
#[cfg(test)]
mod tests;

pub use program::run;
pub use session_run::{Status, exit_code};
