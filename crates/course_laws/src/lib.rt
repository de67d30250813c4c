//! What holds of the course of a session since every text has exactly one outcome.
#![tactic(auto)]

mod laws;

pub use laws::each_course_has_one_answer;
