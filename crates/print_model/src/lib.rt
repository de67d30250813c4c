//! The canonical text of a model, and that it reads back.
#![tactic(auto)]

mod laws;

pub use laws::{
    expressions_have_trees, expressions_read_back, names_can_be_spelt, printed_tokens_lex,
    written_texts_lex,
};
