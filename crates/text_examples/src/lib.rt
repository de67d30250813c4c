//! A text with its model, from its bytes on, shown by evaluation. Nothing stands on this crate.
#![tactic(auto)]

mod worked;

pub use worked::vehicles_text_has_its_model;
