//! Says of texts what model each has, or at which place it is refused and why: the lexer, the parser, the
//! walk and the numbering run as one, on texts whose answers come from another program.
//!
//! It reads a text a line, behind the name of its language, and writes a line for each. A line
//! `LANGUAGE COUNT|BEGIN|PIECE|END` stands for the text that has the piece so many times between the two.
#![tactic(auto)]

mod dump;

use dump::write_model;
use element_store::{FileNo, Language};
use model_build::{FileFault, build};
use std::alloc::Global;
use std::io;
use std::process::ExitCode;

/// The longest text that is read, in bytes.
const LONGEST: usize = 16_777_216;

/// The language and what stands behind its name on a line.
fn parts_of(line: &str) -> Option<(Language, &str)> {
    match line.strip_prefix("kerml ") {
        Some(text) => Some((Language::Kerml, text)),
        None => Some((Language::Sysml, line.strip_prefix("sysml ")?)),
    }
}

/// The text that has the piece so many times between the two others.
fn repeated(alloc: Global, count: usize, parts: [&str; 3]) -> Option<Vec<u8>> {
    let [begin, piece, end] = parts;
    let mut text = Vec::new(alloc);
    text.extend_from_slice(begin.as_bytes()).ok()?;
    for _ in 0..count {
        text.extend_from_slice(piece.as_bytes()).ok()?;
    }
    text.extend_from_slice(end.as_bytes()).ok()?;
    Some(text)
}

/// The text that `COUNT|BEGIN|PIECE|END` stands for.
fn spelt_out(alloc: Global, line: &str) -> Option<Vec<u8>> {
    let (count, rest) = line.split_once("|")?;
    let (begin, rest) = rest.split_once("|")?;
    let (piece, end) = rest.split_once("|")?;
    repeated(alloc, count.parse::<usize>().ok()?, [begin, piece, end])
}

/// Writes the word of a fault and its place.
fn write_fault(rt: &HostRuntime, fault: FileFault) -> io::Result<()> {
    match fault {
        FileFault::Encoding(place) => println!(rt; "encoding {place}"),
        FileFault::Token(place) => println!(rt; "token {place}"),
        FileFault::TooDeep(place) => println!(rt; "deep {place}"),
        FileFault::Syntax(place) => println!(rt; "syntax {place}"),
        FileFault::Limit(place) => println!(rt; "limit {place}"),
        FileFault::NoMemory => println!(rt; "no memory"),
    }
}

/// Writes what the text has.
fn write_answer(rt: &HostRuntime, language: Language, text: &[u8]) -> io::Result<()> {
    if text.len() > LONGEST {
        return println!(rt; "too long");
    }
    match build(rt.alloc(), FileNo(0), text, language) {
        Ok(model) => write_model(rt, &model),
        Err(fault) => write_fault(rt, fault),
    }
}

fn write_line(rt: &HostRuntime, line: &str) -> io::Result<()> {
    let Some((language, text)) = parts_of(line) else {
        return println!(rt; "no language");
    };
    match spelt_out(rt.alloc(), text) {
        Some(long) => write_answer(rt, language, &long),
        None => write_answer(rt, language, text.as_bytes()),
    }
}

fn write_all(rt: &HostRuntime) -> io::Result<()> {
    for line in rt.lines(rt.alloc()) {
        let Ok(line) = line else {
            return println!(rt; "no line");
        };
        write_line(rt, &line)?;
    }
    Ok(())
}

fn main(rt: HostRuntime) -> ExitCode {
    match write_all(&rt) {
        Ok(()) => ExitCode::SUCCESS,
        Err(_) => ExitCode::FAILURE,
    }
}
