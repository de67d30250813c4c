//! The rules of links: what becomes of each reference over the links that are decided so far, and what
//! a qualified name finds (KerML 8.2.3.5, name resolution).
#![tactic(auto)]

mod finding;
mod rules;

pub use finding::{QualifiedName, find};
pub use rules::LinkRules;
