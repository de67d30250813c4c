//! Small models with their canonical texts, shown by evaluation. Nothing stands on this crate.
#![tactic(auto)]

mod worked;

pub use worked::models_have_their_texts;
