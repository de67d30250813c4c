//! The project that editors and build servers call: a book of files in both languages, edited and asked. Its
//! references are linked after each edit, by the kept links of the book.
#![tactic(auto)]

mod project;
#[cfg(test)]
mod tests;

pub use book_model::{Edit, FaultRow, FaultRows, FileReport, LinkRow, LinkRows, Place, Printed};
pub use implied_rules::{ImpliedRow, ImpliedRows};
pub use linked_project::{FileNames, QueryFault};
pub use project::Project;
pub use project_book::{Applied, ApplyFault};
