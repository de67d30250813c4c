//! What a session is: the commands of a script with their spellings, the cut of an input into commands,
//! the table of stops, the course of an input over a book, its answers and its ending.
//!
//! Read `specs/Commands`, `specs/Cut`, `specs/Refusals`, `specs/Answers` and `specs/Stops` in this order.
//! `proofs/Worked` has worked examples, `laws` what holds of all.
#![tactic(auto)]

mod laws;

pub use laws::{
    answers_exist, cut_exists, done_by_end_alone, each_input_has_a_course, one_answer_each,
    one_course, one_cut, rows_end_the_cut,
};
