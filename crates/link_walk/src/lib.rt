//! Searches over models: what is found, what is waited on and what is looked at, each noted once. A
//! search keeps its nodes in a list on the heap and a set of marks, so each node is expanded once.
#![tactic(auto)]

mod answering;
mod gains;
mod links;
mod marked;
mod notes;
mod reading;
mod references;
mod search;
mod trail;

pub use answering::{Found, Hits, Refs, answer};
pub use gains::Gains;
pub use links::Links;
pub use marked::Marked;
pub use notes::Notes;
pub use reading::{Read, element, lead, model, read_target, target};
pub use references::{Wanted, references_of};
pub use search::{walk, walk_from};
pub use trail::{Trail, distinct, is_among};
