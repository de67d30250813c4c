//! What holds of books since every text has exactly one outcome: a book over a library has one list of
//! files, commands have one list of answers, and the files are as the laws of links want them.
#![tactic(auto)]

mod laws;

pub use laws::{
    book_has_files, book_references_have_outcomes, commands_have_answers, rows_of_texts_rise,
};
