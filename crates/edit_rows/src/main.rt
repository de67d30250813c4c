//! Says of edits whether what becomes of each reference afterwards is what a project finds that is opened anew.
//!
//! It reads a command a line. `put NAME TEXT` and `drop NAME` edit the book, and `end` begins a new one. After each edit it
//! writes how many files are present, how many references they have and what is wrong with them, and `the same` where all
//! names have the outcomes that they have in a project to which the present files were given anew.
#![tactic(auto)]

mod books;
mod outcomes;

use books::Book;
use outcomes::{counted, outcomes};
use std::process::ExitCode;

/// Writes what stands after an edit.
fn tell(rt: &HostRuntime, book: &Book) -> Option<()> {
    let anew = book.anew(rt.alloc())?;
    let kept = outcomes(rt.alloc(), &book.project)?;
    let found = outcomes(rt.alloc(), &anew)?;
    let counts = counted(&book.project)?;
    let said = if kept == found { "the same" } else { "another" };
    let (files, references, faults) = (counts.files, counts.references, counts.faults);
    println!(rt; "files {files} references {references} faults {faults} {said}").ok()
}

/// Does what a line says to the book.
fn edit(rt: &HostRuntime, book: &mut Book, line: &str) -> Option<()> {
    match line.strip_prefix("drop ") {
        Some(name) => book.drop(rt.alloc(), name),
        None => {
            let (name, text) = line.strip_prefix("put ")?.split_once(" ")?;
            book.put(rt.alloc(), name, text)
        }
    }
}

fn tell_all(rt: &HostRuntime) -> Option<()> {
    let mut book = Book::open(rt.alloc())?;
    for line in rt.lines(rt.alloc()) {
        let line = line.ok()?;
        if line.as_str() == "end" {
            book = Book::open(rt.alloc())?;
            println!(rt; "end").ok()?;
        } else {
            edit(rt, &mut book, line.as_str())?;
            tell(rt, &book)?;
        }
    }
    Some(())
}

fn main(rt: HostRuntime) -> ExitCode {
    match tell_all(&rt) {
        Some(()) => ExitCode::SUCCESS,
        None => ExitCode::FAILURE,
    }
}
