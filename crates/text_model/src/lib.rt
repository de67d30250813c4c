//! The profile, the fault and the model of a text: definitions alone.
//!
//! A text is lexed and derived by its language's grammar; one walk over the tree, by a table of actions
//! by production and a table of meanings by token, makes drafts of its elements; references then get
//! their numbers, element by element. Beside this stand claims about the grammars' inner symbols.
//!
//! `tools/make_table.py` makes the tables from tools/actions: as statics, which `action_of` and
//! `meaning_of` read, and as the definitions that these calls are shown to follow.
#![tactic(auto)]

pub mod action;
mod claims;
pub mod draft;
pub mod fault;
mod kerml_actions;
mod kerml_meanings;
mod sign_meanings;
mod sysml_actions;
mod sysml_meanings;
mod tables;

pub use claims::claims_hold;
pub use fault::FileFault;
pub use tables::{action_of, meaning_of};
