//! The lexer of the textual notation: from bytes to tokens, from a token to the name, text or number that
//! it stands for, and back to its canonical spelling.
//!
//! A text is a list of pieces: spaces, notes and tokens. Each piece is the longest that begins at its place.
#![tactic(auto)]

mod classes;
mod lexer;
mod pieces;
mod reading;
mod scan;
mod sign;
mod spelling;
mod terminal;
mod token;
mod words;

pub use lexer::{lex, one_lexing, tokens_rise};
pub use reading::{comment_of, integer_of, name_of, string_of};
pub use spelling::{spell_name, spell_string};
pub use terminal::terminal_of;
pub use token::{LexFault, NESTING, Token, TokenKind, Tokens};
pub use words::word_number;

#[cfg(test)]
mod tests;
