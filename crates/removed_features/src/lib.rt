//! What is removed with a member that may be inherited, and whether another feature redefines it (KerML
//! 8.3.3.1.10, Type::removeRedefinedFeatures): read off sets of what the features redefine.
#![tactic(auto)]

mod removal;
mod visible_features;

pub use removal::{removal_notes, removed};
pub use visible_features::{Visible, is_elsewhere, see_features};
