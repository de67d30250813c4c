//! The program `sysml`: it makes the real objects and calls `run`.
#![tactic(auto)]

use demand_core::{Counted, Steps};
use outside_core::{StdSink, StdSource, SteadyShelf};
use std::env;
use std::process::ExitCode;
use sysml_command::{exit_code, run};

/// The exit code where the runtime doesn't give the words. No status has it.
const NO_WORDS: u8 = 8;

/// The words of the command line, the program's name first.
fn words_of(rt: &HostRuntime) -> Option<Vec<String>> {
    let mut words = Vec::new(rt.alloc());
    for word in env::args(rt).ok()? {
        words.push(word).ok()?;
    }
    Some(words)
}

/// Serves the script on standard input; the exit code is that of the status.
fn main(rt: HostRuntime) -> ExitCode {
    let Some(words) = words_of(&rt) else {
        return ExitCode::from(NO_WORDS);
    };
    let mut shelf = SteadyShelf::new(Vec::new(rt.alloc()), Vec::new(rt.alloc()));
    let mut input = StdSource::new(rt.stdin());
    let mut output = StdSink::new(rt.stdout());
    let mut errors = StdSink::new(rt.stderr());
    let mut steps = Steps::new(Counted::new());
    let status = run(
        rt.alloc(),
        &words,
        &mut shelf,
        &mut input,
        &mut output,
        &mut errors,
        &mut steps,
    );
    ExitCode::from(exit_code(status))
}
