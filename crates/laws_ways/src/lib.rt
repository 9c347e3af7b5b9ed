//! Laws of the ways through trees: which returns no run comes to.
//!
//! A function here has an empty body: its clause is a law, and its proof stands in `proofs/`.
#![tactic(auto)]

ghost use Rattle.laws_ways.specs.DeadReturns.{DeadReturnsNeverRun, DeadReturnsAreCutOff};

/// In a term that isn't multi, a tree runs as it does without its dead returns, on all arguments and under every meaning.
#[tactic(auto, using(crate::proofs::DeadReturns::dead_returns_never_run_lem))]
pub fn dead_returns_never_run()
    ensures { DeadReturnsNeverRun }
{}

/// What is cut off are exactly the dead returns: each return of a tree stays or is dead.
#[tactic(auto, using(crate::proofs::DeadReturns::dead_returns_are_cut_off_lem))]
pub fn dead_returns_are_cut_off()
    ensures { DeadReturnsAreCutOff }
{}
