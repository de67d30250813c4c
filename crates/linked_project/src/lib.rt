//! A project whose references are linked after each edit, over whoever links them: what editors and build
//! servers ask of it. Queries change nothing, and each of them answers by the book as it stands.
#![tactic(auto)]

mod asked_pair;
mod edits;
mod fault_rows;
mod file_names;
mod finding;
mod link_rows;
mod project;
mod query_fault;
#[cfg(test)]
mod tests;
mod texts;

pub use file_names::FileNames;
pub use project::LinkedProject;
pub use query_fault::QueryFault;
