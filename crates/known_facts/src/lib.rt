//! What the features of a type and of those that it reaches redefine (KerML 8.3.3.3.10, Redefinition),
//! with all that is waited on and looked at for it.
#![tactic(auto)]

mod asked_facts;

pub use asked_facts::ask_facts;
