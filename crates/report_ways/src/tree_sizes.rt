//! What trees have: tests, arms and returns.

use cranelift_isle::serialize::{Block, ControlFlow, EvalStep, MatchArm};

/// How large a tree is.
#[derive(Clone, Copy)]
pub struct TreeSize {
    /// Its tests: matches, equalities and loops.
    pub tests: u64,
    /// The arms of its matches.
    pub arms: u64,
    /// Its returns.
    pub returns: u64,
    /// The most tests in one another.
    pub depth: u64,
}

// A tree without steps.
const NOTHING: TreeSize = TreeSize {
    tests: 0,
    arms: 0,
    returns: 0,
    depth: 0,
};

// Two trees beside each other.
fn beside(left: TreeSize, right: TreeSize) -> TreeSize {
    TreeSize {
        tests: left.tests.saturating_add(right.tests),
        arms: left.arms.saturating_add(right.arms),
        returns: left.returns.saturating_add(right.returns),
        depth: left.depth.max(right.depth),
    }
}

// A test round what follows it.
fn below_test(size: TreeSize) -> TreeSize {
    TreeSize {
        tests: size.tests.saturating_add(1),
        depth: size.depth.saturating_add(1),
        ..size
    }
}

// An arm and its body.
fn in_arm(size: TreeSize) -> TreeSize {
    TreeSize {
        arms: size.arms.saturating_add(1),
        ..size
    }
}

/// How large a tree is.
#[cycle(size)]
pub fn size_of_tree(block: &Block) -> TreeSize {
    let mut size = NOTHING;
    for step in &block.steps {
        size = beside(size, size_of_step(step));
    }
    size
}

#[cycle(size)]
fn size_of_step(step: &EvalStep) -> TreeSize {
    match &step.check {
        ControlFlow::Match { arms, .. } => below_test(size_of_arms(arms)),
        ControlFlow::Equal { body, .. } | ControlFlow::Loop { body, .. } => {
            below_test(size_of_tree(body))
        }
        ControlFlow::Return { .. } => TreeSize {
            returns: 1,
            ..NOTHING
        },
    }
}

#[cycle(size)]
fn size_of_arms(arms: &[MatchArm]) -> TreeSize {
    let mut size = NOTHING;
    for arm in arms {
        size = beside(size, in_arm(size_of_tree(&arm.body)));
    }
    size
}
