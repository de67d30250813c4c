//! What names mean: effective names, generals, inherited, imported and visible members, and what a
//! reference leads to, as lookups over the links decided so far and the models of files.
#![tactic(auto)]

mod keys;
mod laws;
mod view;

pub use keys::{Hit, LinkFact, LinkKey};
pub use laws::{arrivals_keep_links, edits_keep_links, least_links_stand_in_all, links_are_lawful};
pub use view::{LinkLooks, LinkTable, View};
