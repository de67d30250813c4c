//! Reads a text from standard input and lexes it, reads its drafts, or builds its model, and writes how many tokens or
//! elements it has: what `tools/build_speed.py` measures.
//!
//! The arguments are one of the words `read`, `lex`, `draft` and `build`, and the name of a language.
#![tactic(auto)]

use draft_walk::{Source, draft};
use element_store::{FileNo, Language};
use model_build::build;
use std::alloc::Global;
use std::env;
use std::io::{self, Read};
use std::process::ExitCode;
use token_core::lex;

/// The longest text that is read, in bytes.
const LONGEST: usize = 16_777_216;

/// How many tokens the text has.
fn tokens_in(alloc: Global, text: &[u8], language: Language) -> Option<usize> {
    if text.len() > LONGEST {
        return None;
    }
    let tokens = lex(alloc, text, language).ok()?;
    Some(tokens.as_slice().len())
}

/// How many elements are read of the text.
fn drafts_in(alloc: Global, text: &[u8], language: Language) -> Option<usize> {
    if text.len() > LONGEST {
        return None;
    }
    let Ok(tokens) = lex(alloc, text, language) else {
        return None;
    };
    let source = Source {
        text,
        tokens: tokens.as_slice(),
        language,
    };
    let Ok(drafts) = draft(alloc, &source) else {
        return None;
    };
    Some(drafts.elements.len())
}

/// How many elements the model of the text has.
fn elements_in(alloc: Global, text: &[u8], language: Language) -> Option<usize> {
    if text.len() > LONGEST {
        return None;
    }
    let model = build(alloc, FileNo(0), text, language).ok()?;
    Some(model.elements() as usize)
}

/// The count that the word asks for.
fn counted(alloc: Global, word: &str, language: Language, text: &[u8]) -> Option<usize> {
    match word {
        "read" => Some(text.len()),
        "lex" => tokens_in(alloc, text, language),
        "draft" => drafts_in(alloc, text, language),
        "build" => elements_in(alloc, text, language),
        _ => None,
    }
}

/// The language with this name.
fn language_of(word: &str) -> Option<Language> {
    match word {
        "kerml" => Some(Language::Kerml),
        "sysml" => Some(Language::Sysml),
        _ => None,
    }
}

/// The two arguments behind the program's name.
fn words_of(rt: &HostRuntime) -> io::Result<Option<(String, String)>> {
    let mut words = env::args(rt)?.skip(1);
    match (words.next(), words.next()) {
        (Some(stage), Some(language)) => Ok(Some((stage, language))),
        _ => Ok(None),
    }
}

fn write_count(rt: &HostRuntime) -> io::Result<()> {
    let Some((stage, name)) = words_of(rt)? else {
        return println!(rt; "no arguments");
    };
    let Some(language) = language_of(&name) else {
        return println!(rt; "no language");
    };
    let mut text = Vec::new(rt.alloc());
    rt.stdin().read_to_end(&mut text)?;
    match counted(rt.alloc(), &stage, language, &text) {
        Some(count) => println!(rt; "{count}"),
        None => println!(rt; "refused"),
    }
}

fn main(rt: HostRuntime) -> ExitCode {
    match write_count(&rt) {
        Ok(()) => ExitCode::SUCCESS,
        Err(_) => ExitCode::FAILURE,
    }
}
