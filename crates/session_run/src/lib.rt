//! The program over a project: a script on the input, its answers on the output, one line on the errors
//! where it fails. What it promises hangs on no crate of code below it: any project that answers serves.
#![tactic(auto)]

mod codes;
mod opening;
mod program;
mod saying;
#[cfg(test)]
mod tests;

pub use codes::exit_code;
pub use opening::Opening;
pub use program::run;
pub use session_streams::Status;
