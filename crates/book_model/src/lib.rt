//! The book of files and the answers of its queries, as definitions: files with the models of their
//! texts, places, labels, spelt names, rows and printed lines; with the types that the definitions and
//! the project share.
//!
//! Read `specs/Book`, `specs/Readings`, `specs/Files`, `specs/Outcomes`, `specs/Rows`, `specs/Printed`,
//! `specs/AskedNames` and `specs/Answers` in this order. `specs/Worked` has evaluated examples, `laws`
//! what holds of all.
#![tactic(auto)]

mod asked_name;
mod edit;
mod laws;
mod rows;

pub use asked_name::AskedName;
pub use edit::Edit;
pub use laws::{
    edited_books_are_proper, edits_are_exact, edits_change_one_file, files_are_ranked,
    labels_have_steps, later_places_print_later, one_answer_each, one_list_of_files,
    outcomes_name_what_stands, references_have_outcomes, rows_are_exact, stored_files_are_files,
    texts_are_found,
};
pub use rows::{FaultRow, FaultRows, FileReport, LinkRow, LinkRows, Place, Printed};
