//! Laws of canonical text. Each is a function with nothing to run: what it ensures holds of the
//! definitions alone.
ghost use Rattle.print_model.specs.Spelt.{ExpressionsHaveTrees};
ghost use Rattle.print_model.specs.Written.{NamesCanBeSpelt, WrittenTextsLex};
ghost use Rattle.print_model.specs.ReadBack.{ExpressionsReadBack, PrintedTokensLex};

/// A law: in both languages, each expression that can be printed is read back. The grammar derives its
/// printed tokens, and the walk over that derivation pushes exactly its nodes, in postfix order.
pub fn expressions_read_back()
    ensures { ExpressionsReadBack }
{}

/// A law: each value and each result of a model that a text has is an expression that can be printed.
/// Its nodes are the postfix list of one tree, whose integers are values and whose names have segments.
pub fn expressions_have_trees()
    ensures { ExpressionsHaveTrees }
{}

/// A law: printed tokens with white space between them are the tokens of their bytes, where each of
/// them is the longest piece at its place.
pub fn printed_tokens_lex()
    ensures { PrintedTokensLex }
{}

/// A law: the canonical text of a model is UTF-8 and has just the tokens that were printed, wherever its
/// names and texts can be spelt, its words are those of its language and its comments end where they close.
pub fn written_texts_lex()
    ensures { WrittenTextsLex }
{}

/// A law: each name in the model of a text has a segment, and its segments can be spelt.
pub fn names_can_be_spelt()
    ensures { NamesCanBeSpelt }
{}
