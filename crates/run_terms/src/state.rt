//! What a run works with, where it stands, and how it ends.

use crate::values::{Content, Value};
use core_rule_sets::trie_again::Binding;
use core_types::TermId;
use std::alloc::Global;

/// What a run works with.
pub struct Stage<'a, E> {
    /// Where memory is asked of.
    pub alloc: Global,
    /// What is called.
    pub externs: &'a E,
    /// The sites of the tree's set.
    pub sites: &'a [Binding],
    /// The arguments.
    pub args: &'a [Value],
    /// Whether the term is multi.
    pub multi: bool,
}

impl<E> Drop for Stage<'_, E> {
    fn drop(self) {
        let Self {
            alloc: _,
            externs: _,
            sites: _,
            args: _,
            multi: _,
        } = self;
    }
}

/// An impure call that was made.
pub struct Call {
    /// The term.
    pub term: TermId,
    /// What was handed to it.
    pub args: Vec<Value>,
}

impl Drop for Call {
    fn drop(self) {
        let Self { term: _, args: _ } = self;
    }
}

/// How a run ends.
#[derive(Clone, Copy, PartialEq, Eq, Debug)]
pub enum Ending {
    /// A result ended it.
    Ended,
    /// An unwrap found nothing: a call that must answer failed.
    Failed,
    /// It ran through: no rule matches, or the term is multi.
    RanThrough,
    /// A site holds nothing of the form that is used.
    Stuck,
}

/// The impure calls that were made, in order, and the results given, in order.
pub struct Trace {
    /// The calls.
    pub calls: Vec<Call>,
    /// The results.
    pub results: Vec<Content>,
}

impl Drop for Trace {
    fn drop(self) {
        let Self {
            calls: _,
            results: _,
        } = self;
    }
}

/// What a run comes to.
pub struct Outcome {
    /// The calls and results.
    pub trace: Trace,
    /// How it ends.
    pub ending: Ending,
}

impl Drop for Outcome {
    fn drop(self) {
        let Self {
            trace: _,
            ending: _,
        } = self;
    }
}

/// What a site was found to hold.
#[derive(Drop)]
pub enum Found {
    /// A content.
    There(Content),
    /// Nothing, since an unwrap found nothing.
    Failed,
    /// Nothing of the form that is used.
    Missing,
}

/// How binding sites ends.
#[derive(Clone, Copy, PartialEq, Eq, Debug)]
pub enum Bound {
    /// All are bound.
    All,
    /// An unwrap found nothing.
    Failed,
    /// A site holds nothing of the form that is used.
    Missing,
}
