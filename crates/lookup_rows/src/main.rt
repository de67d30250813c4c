//! Says of small books, over links that are told, what each lookup finds, what it waits on and at what it looks: on books
//! whose answers come from another program.
//!
//! It reads lines. `kerml NAME TEXT` and `sysml NAME TEXT` add a file to the book, where a NAME that begins with `$` is one
//! of the library; `link REFERENCE ELEMENT` and `refuse REFERENCE` decide a reference, and all others are open. Each other
//! line asks a lookup; `rounds` decides all references by plain rounds over the rules of links, whatever was told of them,
//! and `askings` says how often one is asked then; `implied` lists the implied specialisations, and `value ELEMENT` tells
//! what a feature is worth, over the links that are told. `end` answers the lines so far, in order, and begins a new book.
//! A place is the number of a file, a colon, and a number in the file.
#![tactic(auto)]

mod asking;
mod books;
mod places;
mod rounds;
mod values;
mod words;

use asking::{answer, list_implied};
use books::{models_of, table_of};
use link_model::View;
use rounds::{count_all, decide_all};
use std::process::ExitCode;

/// Answers the lines of one book.
fn answer_all(rt: &HostRuntime, lines: &[String]) -> Option<()> {
    let models = models_of(rt, lines)?;
    let table = table_of(rt, &models, lines)?;
    let view = View {
        models: &models,
        table: &table,
    };
    for line in lines {
        match line.as_str() {
            "rounds" => decide_all(rt, &models)?,
            "askings" => count_all(rt, &models)?,
            "implied" => list_implied(rt, &view)?,
            _ => answer(rt, &view, line)?,
        }
    }
    Some(())
}

fn write_all(rt: &HostRuntime) -> Option<()> {
    let mut lines = Vec::new(rt.alloc());
    for line in rt.lines(rt.alloc()) {
        let line = line.ok()?;
        if line.as_str() == "end" {
            answer_all(rt, &lines)?;
            println!(rt; "end").ok()?;
            lines = Vec::new(rt.alloc());
        } else {
            lines.push(line).ok()?;
        }
    }
    Some(())
}

fn main(rt: HostRuntime) -> ExitCode {
    match write_all(&rt) {
        Some(()) => ExitCode::SUCCESS,
        None => ExitCode::FAILURE,
    }
}
