//! That printed items are read back: heads, aliases, imports, notes and whole bodies, in both languages.
//!
//! `specs/Items` has the items of a text as a tree, `specs/ItemTokens` the tokens that are printed of it,
//! `specs/ItemWalk` what reading makes of it, and `specs/Fitting` what may stand where. The laws on whole
//! models stand in `specs/ModelsReadBack`, `SameModels` and `InTheProfile`.
#![tactic(auto)]

mod laws;

pub use laws::{
    items_read_back, models_are_in_profile, models_are_printed, models_come_back, models_read_back,
};
