//! Laws of texts that a project keeps: the names of their models can be spelt, and their places stand
//! within the text.
#![tactic(auto)]

mod laws;

pub use laws::{faults_stand_within, models_may_be_kept};
