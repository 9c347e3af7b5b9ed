//! Prints the trees of a built-in sample: `isle-tree SAMPLE`.
#![tactic(auto)]

use report_queries::answers::no_memory;
use report_queries::sample_run::run_sample;
use report_queries::words::words;
use std::alloc::AllocError;
use std::process::ExitCode;

fn main(rt: HostRuntime) -> ExitCode {
    let mut out = rt.stdout();
    let mut err = rt.stderr();
    let status = match words(&rt, rt.alloc()) {
        Ok(words) => run_sample(rt.alloc(), &words, &mut out, &mut err),
        Err(AllocError) => no_memory(&mut err),
    };
    ExitCode::from(status)
}
