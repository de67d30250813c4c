//! The members of namespaces that may be inherited under a name (KerML 8.3.3.1.10,
//! Type::inheritableMemberships): those that aren't private, found by a model's tables.
#![tactic(auto)]

mod candidate_list;
mod open_members;

pub use candidate_list::candidates;
pub use open_members::open_hits;
