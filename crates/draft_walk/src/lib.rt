//! From the tokens of a text to the drafts of its elements: the parser's events are told to a walker, which does what
//! each production and each token means. No tree is kept, and no call stands in another of its kind.
#![tactic(auto)]

mod drafting;
mod enter;
mod leave;
mod meanings;
mod nodes;
mod telling;
mod walker;

pub use drafting::draft;
pub use telling::{Drafts, Source};
pub use walker::number_of;

#[cfg(test)]
mod tests;
