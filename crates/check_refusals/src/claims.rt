//! The claims on calls that may be refused memory.

use crate::containers::{maps_stay, pairs_make_a_map, partitions_stay, removals_stay, sets_stay};
use crate::environments::{ACCEPTED, ExpectedReading, REFUSED, rules_stay};
use crate::visits::visits_begin;
use core_syntax::syntax::Fault;
use std::alloc::Global;

/// A claim that a line of the output stands for.
#[derive(Clone, Copy)]
pub enum RefusalClaim {
    Sets,
    Maps,
    Pairs,
    Partitions,
    Removals,
    Rules,
    Errors,
    Visits,
}

/// All of them, in the order of the lines.
pub const CLAIMS: [RefusalClaim; 8] = [
    RefusalClaim::Sets,
    RefusalClaim::Maps,
    RefusalClaim::Pairs,
    RefusalClaim::Partitions,
    RefusalClaim::Removals,
    RefusalClaim::Rules,
    RefusalClaim::Errors,
    RefusalClaim::Visits,
];

impl RefusalClaim {
    /// The line for it.
    pub fn words(self) -> &'static str {
        match self {
            RefusalClaim::Sets => "a set has what its copy has after a refused insert\n",
            RefusalClaim::Maps => "a map has what its copy has after a refused insert\n",
            RefusalClaim::Pairs => "pairs make their map after a refusal\n",
            RefusalClaim::Partitions => "sets that are apart stay after a refused merge\n",
            RefusalClaim::Removals => "sets that are apart stay after a refused removal\n",
            RefusalClaim::Rules =>
                "types stay and names keep their numbers where reading rules is refused, and it then succeeds\n",
            RefusalClaim::Errors =>
                "types stay and names keep their numbers where reading wrong rules is refused, and it then names their errors\n",
            RefusalClaim::Visits =>
                "a visitor has seen a beginning of its calls after a refused visit\n",
        }
    }

    /// Whether it holds, at the second try where the refusal fell on what the first one made beside.
    pub fn holds(self, alloc: Global) -> bool {
        match self.tried(alloc) {
            Ok(holds) => holds,
            Err(_) => matches!(self.tried(alloc), Ok(true)),
        }
    }

    fn tried(self, alloc: Global) -> Result<bool, Fault> {
        match self {
            RefusalClaim::Sets => Ok(sets_stay(alloc)?),
            RefusalClaim::Maps => Ok(maps_stay(alloc)?),
            RefusalClaim::Pairs => Ok(pairs_make_a_map(alloc)?),
            RefusalClaim::Partitions => Ok(partitions_stay(alloc)?),
            RefusalClaim::Removals => Ok(removals_stay(alloc)?),
            RefusalClaim::Rules => rules_stay(alloc, ACCEPTED, ExpectedReading::Rules(9, 3)),
            RefusalClaim::Errors => rules_stay(
                alloc,
                REFUSED,
                ExpectedReading::UnknownVariable("z"),
            ),
            RefusalClaim::Visits => Ok(visits_begin(alloc)?),
        }
    }
}
