//! Generals, redefined features and inherited members (KerML 8.3.3.1 and 8.3.3.3, Types and
//! Features), exact in what they find, wait on and look at.
#![tactic(auto)]

mod calls;
mod explicit;
mod general_types;
mod redefined;
mod sight;

pub use calls::{all_redefined, generals, settled_generals, settled_redefined, specialises};
pub use general_types::{expand_general, reached};
pub use redefined::{redefined_directly, redefined_from, redefined_from_all};
pub use sight::Sight;
