//! Features as their values see them: whether an element is a feature or an enumerated value, and
//! the feature whose expression decides.
//!
//! `value_model` defines them (specs/Meant), over links of which no more come.
#![tactic(auto)]

mod deciding;
mod elements;
mod own;
mod redefining;

pub use deciding::decider;
pub use elements::{element, is_enumerated, is_feature};
pub use own::Decider;
