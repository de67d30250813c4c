//! The text of a file, kept with the ends of its lines: they are found once, and the line and the column
//! of a place by halving, so that a row of an answer costs no walk over the text.
#![tactic(auto)]

mod source;
#[cfg(test)]
mod tests;

pub use source::SourceText;
