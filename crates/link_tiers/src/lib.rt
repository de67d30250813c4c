//! What the tiers of names give for a reference: the first tier that isn't empty, the least of its
//! members, and the way on through the later segments (KerML 8.2.3.5, name resolution).
#![tactic(auto)]

mod lookups;
mod namespaces;
mod picking;
mod roots;
mod tiers;

pub use lookups::Lookups;
pub use namespaces::{import_tier, inherited_tier, try_namespace, try_outward};
pub use picking::{Picked, pick};
pub use roots::try_roots;
pub use tiers::try_tier;
