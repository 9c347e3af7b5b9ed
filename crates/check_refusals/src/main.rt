//! Says of each claim on refused memory whether it holds in this run: `tools/refuse-memory` runs it with one request for memory
//! refused, the first, the second and so on.
//!
//! A claim makes a copy of what it looks at, makes the calls that may be refused, and compares. Where the refusal falls on a
//! copy, it begins again: one request is refused in a run. The last claims are on calls that take no memory: what they ask is
//! made before their first line is written, and after that `tools/refuse-memory` may refuse every request.
#![tactic(auto)]

mod asked;
mod claims;
mod containers;
mod environments;
mod recorder;
mod visits;

use asked::{Fixture, containers_answer, sites_answer, tables_answer, trees_answer};
use claims::{CLAIMS, RefusalClaim};
use core_syntax::syntax::Fault;
use std::alloc::Global;
use std::io::Write;
use std::process::ExitCode;

fn main(rt: HostRuntime) -> ExitCode {
    let mut out = rt.stdout();
    let mut held = true;
    for claim in CLAIMS {
        held = tell(&mut out, claim.words(), claim.holds(rt.alloc())) && held;
    }
    match prepared(rt.alloc()) {
        Ok(asked) => held = answers(&mut out, &asked) && held,
        Err(_) => held = false,
    }
    ExitCode::from(if held { 0 } else { 1 })
}

// What the calls that take no memory are made on, at the second try where the first one is refused.
fn prepared(alloc: Global) -> Result<Fixture, Fault> {
    match Fixture::new(alloc) {
        Ok(asked) => Ok(asked),
        Err(_) => Fixture::new(alloc),
    }
}

// Makes the calls that take no memory.
fn answers<O: Write>(out: &mut O, asked: &Fixture) -> bool {
    let begun = tell(out, "from here on no call takes memory\n", true);
    let containers = tell(out, "containers answer\n", containers_answer(asked));
    let tables = tell(
        out,
        "tables of types and terms answer\n",
        tables_answer(asked),
    );
    let sites = tell(
        out,
        "sites, constraints and rules of sets answer\n",
        sites_answer(asked),
    );
    let trees = tell(
        out,
        "syntax trees and typed ones answer\n",
        trees_answer(asked),
    );
    begun && containers && tables && sites && trees
}

// Writes the claim's line, after other words where it doesn't hold, and answers whether it holds and is written.
fn tell<O: Write>(out: &mut O, words: &str, holds: bool) -> bool {
    if !holds {
        let _ = out.write_all(b"it does not hold that ");
    }
    out.write_all(words.as_bytes()).is_ok() && holds
}
