//! What serving a session and running the program do to their streams, as definitions, and the lemmas
//! that a proof of them stands on; with the status that the definitions and the program share.
//!
//! Read `specs/Moves`, `specs/Serving` and `specs/Running` in this order.
#![tactic(auto)]

mod status;

pub use status::Status;
