//! Prints, for each term of the definitions on standard input, what is known of the runs of its tree.
#![tactic(auto)]

mod verdicts;
mod verified;

use report_queries::answers::{cannot_read, write_answer};
use std::alloc::Global;
use std::io;
use std::io::{Read, Write};
use std::process::ExitCode;
use verdicts::answer;

fn main(rt: HostRuntime) -> ExitCode {
    let mut out = rt.stdout();
    let mut err = rt.stderr();
    ExitCode::from(run(rt.alloc(), rt.stdin(), &mut out, &mut err))
}

fn run<R: Read + Drop, O: Write, E: Write>(
    alloc: Global,
    input: R,
    out: &mut O,
    err: &mut E,
) -> u8 {
    match io::read_to_string(alloc, input) {
        Ok(text) => write_answer(answer(alloc, &text), out, err),
        Err(error) => cannot_read(error.kind(), err),
    }
}
