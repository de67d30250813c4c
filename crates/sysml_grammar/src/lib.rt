//! The grammar of SysML's textual notation as a checked table, and the reserved words of SysML.
//!
//! All modules are made by `tools/make_table.py` from tools/grammars, and so is the definition of the
//! productions, `specs/Rules`.
#![tactic(auto)]

ghost use Rattle.std.specs.Prelude.{◌≡◌, ◌↔◌, IsTrue, IsSome};
ghost use Rattle.element_store.specs.declared.outcome.Language.TheVariants.{Sysml};
ghost use Rattle.token_core.specs.Words.{words, place_in};
ghost use Rattle.ll_core.specs.Checked.{IsCheckedGrammar};
ghost use Rattle.ll_core.specs.Table.{table_of};
ghost use Rattle.sysml_grammar.specs.Grammar.{sysml_table};

pub mod claims;
pub mod names;
pub mod predictions;
pub mod productions;
pub mod symbols;

use element_store::Language;
use ll_core::Grammar;
use token_core::word_number;

/// The grammar of SysML, which is checked.
pub fn grammar() -> Grammar
    ensures checked { IsCheckedGrammar result }
    ensures table { table_of result ≡ sysml_table }
{
    Grammar {
        start: 0,
        productions: &productions::PRODUCTIONS,
        symbols: &symbols::SYMBOLS,
        empty: &claims::EMPTY,
        first: &claims::FIRST,
        follow: &claims::FOLLOW,
        terminals: &claims::TERMINALS,
        height: &claims::HEIGHT,
        rank: &claims::RANK,
        predicted: &predictions::PREDICTED,
        predictions: &predictions::PREDICTIONS,
    }
}

/// Whether the bytes are a reserved word of SysML.
pub fn reserved(word: &[u8]) -> bool
    ensures { IsTrue result ↔ IsSome (place_in (words Sysml) word.now) }
{
    word_number(Language::Sysml, word).is_some()
}
