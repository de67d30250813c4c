//! The lookups in one namespace over all four tiers: declared names, effective names, inherited members
//! and imports (KerML 8.3.2.4, Namespace::visibleMemberships and Namespace::importedMemberships).
#![tactic(auto)]

mod calls;
mod lookups;
mod narrowing;
mod own_tiers;
mod under;

pub use calls::{imported, visible};
pub use lookups::AllLookups;
pub use own_tiers::OwnTiers;
