//! Says of texts what the canonical text of each model is, and whether that reads back to a model with the same
//! canonical text: reading and printing run as one, on texts whose canonical texts come from another program.
//!
//! It reads a text a line, behind the name of its language, and writes the canonical text and a line that ends the
//! answer: `again the same`, `again another`, or `no model` for a text without one.
#![tactic(auto)]

use element_store::{FileNo, Language, Text};
use model_build::build;
use model_printer::print;
use std::alloc::Global;
use std::process::ExitCode;
use std::str::from_utf8;

/// The longest text that is read, in bytes.
const LONGEST: usize = 16_777_216;

/// The language and what stands behind its name on a line.
fn parts_of(line: &str) -> Option<(Language, &str)> {
    match line.strip_prefix("kerml ") {
        Some(text) => Some((Language::Kerml, text)),
        None => Some((Language::Sysml, line.strip_prefix("sysml ")?)),
    }
}

/// The canonical text of a text's model, if it has one.
fn printed(alloc: Global, language: Language, text: &[u8]) -> Option<Text> {
    if text.len() > LONGEST {
        return None;
    }
    match build(alloc, FileNo(0), text, language) {
        Ok(model) => print(alloc, &model).ok(),
        Err(_) => None,
    }
}

/// Writes the canonical text, and whether what it reads back to has the same.
fn write_printed(rt: &HostRuntime, language: Language, text: &Text) -> Option<()> {
    let whole = from_utf8(text.bytes()).ok()?;
    print!(rt; "{whole}").ok()?;
    let again = printed(rt.alloc(), language, text.bytes())?;
    if again.bytes() == text.bytes() {
        println!(rt; "again the same").ok()
    } else {
        println!(rt; "again another").ok()
    }
}

/// Answers one line.
fn write_line(rt: &HostRuntime, line: &str) -> Option<()> {
    let (language, text) = parts_of(line)?;
    match printed(rt.alloc(), language, text.as_bytes()) {
        Some(text) => write_printed(rt, language, &text),
        None => println!(rt; "no model").ok(),
    }
}

fn write_all(rt: &HostRuntime) -> Option<()> {
    for line in rt.lines(rt.alloc()) {
        write_line(rt, line.ok()?.as_str())?;
    }
    Some(())
}

fn main(rt: HostRuntime) -> ExitCode {
    match write_all(&rt) {
        Some(()) => ExitCode::SUCCESS,
        None => ExitCode::FAILURE,
    }
}
