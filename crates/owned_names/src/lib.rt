//! The names of elements, and the first two tiers of a namespace: the members that bear a name as a
//! declared name, and the nameless ones that have it from what they redefine (KerML 8.3.2.1,
//! Element::effectiveName).
//!
//! Each lookup gives what is found, or the open references on which it waits, and adds the facts at
//! which it looked. Names and redefinitions are found by a model's tables, so that a lookup costs no
//! more where a namespace has many other members.
#![tactic(auto)]

mod declared_tier;
mod effective_tier;
mod member;
mod naming;
mod passed;

pub use declared_tier::{declared, declared_hits, take_hit};
pub use effective_tier::{effective, effective_hits, is_named, take_effective};
pub use link_model::{Hit, LinkFact, LinkKey, LinkLooks, LinkTable, View};
pub use link_walk::{Found, Hits};
pub use member::member_element;
pub use naming::{Naming, naming_of};
