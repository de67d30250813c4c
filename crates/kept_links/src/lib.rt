//! The links of files that are edited: an engine that holds the least linking, forgets what an edit may
//! change, and decides that again (KerML 8.2.3.5, name resolution).
#![tactic(auto)]

mod copying;
mod facts;
mod kept;
mod keys;
mod pending;

pub use copying::copied;
pub use kept::KeptLinks;
pub use keys::keys_of;
