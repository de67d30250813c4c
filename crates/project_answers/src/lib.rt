//! The answers of a project, in pieces: what a session asks of it, each command done and its answer given to
//! an output, with one row in memory at most. What becomes of references comes from whoever links them. The
//! steps on the way are here for other callers too: links that follow an edit, files and references in their
//! order, the row of a reference, the names that words are.
#![tactic(auto)]

mod desk;
mod edits;
mod finding;
mod following;
mod implications;
mod lines;
mod linking;
mod links;
mod order;
mod parts;
mod printing;
mod rows;
mod spots;
mod words;
mod wrong;

pub use desk::Desk;
pub use following::{close, open, place_of};
pub use linking::Linking;
pub use links::present;
pub use order::in_order;
pub use rows::row_of;
pub use spots::{Spot, rising};
pub use words::{name_by, name_in};
