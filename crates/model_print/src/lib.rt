//! The printed form of trees: lines of tokens, the text of lines, and a reader that gives sites and trees back.
//!
//! A function here has no code: its clause is a law.
#![tactic(auto)]

ghost use Rattle.model_print.specs.Sample.{SampleIsPrinted};
ghost use Rattle.model_print.specs.TreesRead.{LinesShowTrees, TreesAreRead};

/// The lines of sites and of a tree are read as these, but for the types of truth values and the numbers of an arm's fields.
#[tactic(auto, using(crate::proofs::TreesRead::trees_are_read_lem))]
pub fn trees_are_read()
    ensures { TreesAreRead }
{}

/// So sites and trees that have the same lines are shown alike.
#[tactic(auto, using(crate::proofs::TreesRead::lines_show_trees_lem))]
pub fn lines_show_trees()
    ensures { LinesShowTrees }
{}

/// A tree whose text was written by hand has this text.
pub fn sample_is_printed()
    ensures { SampleIsPrinted }
{}
