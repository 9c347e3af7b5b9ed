//! The ways to a rule's returns in a tree.

use crate::way_text::{Sites, Way, WayTest};
use cranelift_isle::serialize::{Block, ControlFlow, EvalStep, MatchArm};
use cranelift_isle::syntax::Pos;
use cranelift_isle::trie_again::{BindingId, Constraint};
use std::alloc::AllocError;

/// A rule whose returns are looked for in a tree.
#[derive(Clone, Copy)]
pub(crate) struct Search<'a> {
    /// The sites of the rule's term.
    pub sites: Sites<'a>,
    /// The place of the rule.
    pub rule: Pos,
}

impl<'a> Search<'a> {
    /// Adds a line for each test on the way to each return of the rule, in the order in which they are made, and a line for the
    /// return. What is called is named where it is called first.
    pub fn push_ways(&self, block: &Block, out: &mut String) -> Result<(), AllocError> {
        let mut tests = Vec::new(self.sites.alloc);
        self.push_ways_in(block, &mut tests, out)
    }

    // The same, behind these tests.
    #[cycle(ways)]
    fn push_ways_in(
        &self,
        block: &Block,
        tests: &mut Vec<WayTest>,
        out: &mut String,
    ) -> Result<(), AllocError> {
        for step in &block.steps {
            self.push_ways_of_step(step, tests, out)?;
        }
        Ok(())
    }

    #[cycle(ways)]
    fn push_ways_of_step(
        &self,
        step: &EvalStep,
        tests: &mut Vec<WayTest>,
        out: &mut String,
    ) -> Result<(), AllocError> {
        match &step.check {
            ControlFlow::Match { source, arms } => {
                self.push_ways_of_arms(*source, arms, tests, out)
            }
            ControlFlow::Equal { a, b, body } => {
                tests.push(WayTest::Equal(*a, *b))?;
                self.push_ways_in(body, tests, out)?;
                tests.pop();
                Ok(())
            }
            ControlFlow::Loop { result, body } => {
                tests.push(WayTest::Each(*result))?;
                self.push_ways_in(body, tests, out)?;
                tests.pop();
                Ok(())
            }
            ControlFlow::Return { pos, .. } => {
                if *pos == self.rule {
                    self.push_way(tests, out)?;
                }
                Ok(())
            }
        }
    }

    #[cycle(ways)]
    fn push_ways_of_arms(
        &self,
        source: BindingId,
        arms: &[MatchArm],
        tests: &mut Vec<WayTest>,
        out: &mut String,
    ) -> Result<(), AllocError> {
        for arm in arms {
            tests.push(test_of(source, arm))?;
            self.push_ways_in(&arm.body, tests, out)?;
            tests.pop();
        }
        Ok(())
    }

    // Adds a line for each of these tests, and one for the return.
    fn push_way(&self, tests: &[WayTest], out: &mut String) -> Result<(), AllocError> {
        let mut way = Way::new(&self.sites)?;
        for test in tests {
            way.push_test(test, "", out)?;
        }
        out.push_str("    return\n")
    }
}

/// The test that a match makes for an arm.
pub fn test_of(source: BindingId, arm: &MatchArm) -> WayTest {
    match arm.constraint {
        Constraint::Some => WayTest::Gives(source, value_in(arm)),
        _ => WayTest::Is(source, arm.constraint),
    }
}

// The site of the value that an arm takes out, if it is looked at.
fn value_in(arm: &MatchArm) -> Option<BindingId> {
    match arm.bindings.as_slice() {
        [Some(value)] => Some(*value),
        _ => None,
    }
}
