//! From the bytes of a file to its model, or to its fault and where it is.
#![tactic(auto)]

mod building;

pub use building::build;
pub use text_model::FileFault;

#[cfg(test)]
mod tests;
