//! Says of texts whether their language's grammar derives them: the tables, the lexer's numbers and the
//! parser run as one, on texts whose answers come from another program.
//!
//! It reads a text a line, behind the name of its language, and writes a line for each: `accepted` and
//! how many tokens it has, or `syntax` and the byte at which the text stops beginning any text of the
//! language. First it writes the counts of both tables.
#![tactic(auto)]

use element_store::Language;
use linker_base::NoMemory;
use ll_core::{Grammar, Refusal, Symbol, parse};
use std::alloc::Global;
use std::io;
use std::process::ExitCode;
use token_core::{Tokens, lex, terminal_of};

/// The longest line that is read.
const LONGEST: usize = 1_048_576;

/// What is said of a text.
enum Verdict {
    /// The grammar derives it; it has so many tokens.
    Accepted(usize),
    /// It stops at this byte.
    Syntax(usize),
    /// It isn't a text of tokens, or memory is wanted.
    Unread,
}

/// The kinds of the tokens, as the numbers of terminals.
fn kinds_of(alloc: Global, tokens: &Tokens) -> Result<Vec<u16>, NoMemory> {
    let mut kinds = Vec::new(alloc);
    for token in tokens.as_slice() {
        kinds.push(terminal_of(token.kind))?;
    }
    Ok(kinds)
}

/// Where the token with this number begins, or the end of the text.
fn place_of(tokens: &Tokens, number: usize, text: &[u8]) -> usize {
    match tokens.as_slice().get(number) {
        Some(token) => token.from as usize,
        None => text.len(),
    }
}

/// What the grammar of the language says of the text.
fn judged(alloc: Global, language: Language, text: &[u8]) -> Verdict {
    if text.len() > LONGEST {
        return Verdict::Unread;
    }
    let Ok(tokens) = lex(alloc, text, language) else {
        return Verdict::Unread;
    };
    let Ok(kinds) = kinds_of(alloc, &tokens) else {
        return Verdict::Unread;
    };
    let answer = match language {
        Language::Kerml => parse(alloc, kerml_grammar::grammar(), &kinds),
        Language::Sysml => parse(alloc, sysml_grammar::grammar(), &kinds),
    };
    match answer {
        Ok(_) => Verdict::Accepted(kinds.len()),
        Err(Refusal::Syntax(number)) => Verdict::Syntax(place_of(&tokens, number, text)),
        Err(Refusal::NoMemory) => Verdict::Unread,
    }
}

/// The language and the text of a line.
fn parts_of(line: &str) -> Option<(Language, &str)> {
    match line.strip_prefix("kerml ") {
        Some(text) => Some((Language::Kerml, text)),
        None => Some((Language::Sysml, line.strip_prefix("sysml ")?)),
    }
}

/// Whether the symbol is a terminal.
fn is_terminal(symbol: &Symbol) -> bool {
    matches!(symbol, Symbol::Terminal(_))
}

/// How many different terminals stand on the right sides.
fn terminals_in(symbols: &[Symbol]) -> usize {
    symbols
        .iter()
        .enumerate()
        .filter(|(number, symbol)| is_terminal(symbol) && !symbols[..*number].contains(*symbol))
        .count()
}

/// Writes the counts of a table, and whether its test passes as it runs.
fn write_counts(rt: &HostRuntime, name: &str, grammar: &Grammar) -> io::Result<()> {
    let productions = grammar.productions.len();
    let inner = grammar.empty.len();
    let terminals = terminals_in(grammar.symbols);
    let checked = grammar.check();
    println!(rt;
        "{name}: {productions} productions, {inner} inner symbols, {terminals} terminals, checked {checked}"
    )
}

fn write_verdict(rt: &HostRuntime, line: &str) -> io::Result<()> {
    let Some((language, text)) = parts_of(line) else {
        return println!(rt; "no language");
    };
    match judged(rt.alloc(), language, text.as_bytes()) {
        Verdict::Accepted(count) => println!(rt; "accepted {count}"),
        Verdict::Syntax(place) => println!(rt; "syntax {place}"),
        Verdict::Unread => println!(rt; "not read"),
    }
}

fn write_all(rt: &HostRuntime) -> io::Result<()> {
    write_counts(rt, "kerml", &kerml_grammar::grammar())?;
    write_counts(rt, "sysml", &sysml_grammar::grammar())?;
    for line in rt.lines(rt.alloc()) {
        let Ok(line) = line else {
            return println!(rt; "no line");
        };
        write_verdict(rt, &line)?;
    }
    Ok(())
}

fn main(rt: HostRuntime) -> ExitCode {
    match write_all(&rt) {
        Ok(()) => ExitCode::SUCCESS,
        Err(_) => ExitCode::FAILURE,
    }
}
