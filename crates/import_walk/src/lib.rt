//! What is visible in a namespace under a name, and what an import brings (KerML 8.3.2.4,
//! Namespace::visibleMemberships and Namespace::importedMemberships).
//!
//! A namespace whose visible members are still to be looked up is a task on a list, with the
//! namespaces that are excluded there, so that no way through imports is limited by a call stack.
//! Where all tasks ask alike, as with plain imports, each namespace is looked up once.
#![tactic(auto)]

mod hunt;
mod plain;
mod tiers;
mod visibility;

pub use tiers::Tiers;
pub use visibility::{imported_hits, visible_hits};
