//! What became of the references of a book's models, for a project that answers: the kept links of its files,
//! which follow its edits (KerML 8.2.3.5, name resolution).
#![tactic(auto)]

mod finding;
mod linked_files;
mod links;
mod settling;

pub use links::BookLinks;
