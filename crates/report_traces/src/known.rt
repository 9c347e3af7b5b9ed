//! Answers that are known, and runs by them.
#![tactic(auto, using(run_terms::proofs::ContentSteps::content_steps, run_terms::proofs::ValueSteps::value_steps))]

ghost use Rattle.std.specs.Prelude.{◌≡◌, ◌&&◌, IfOk, Some, option_map, slice_get};
ghost use Rattle.std.specs.Bool.{◌==◌};
ghost use Rattle.cranelift_isle.specs.Envs.{constant_at};
ghost use Rattle.model.specs.rules.Values.{of_struct, value_eq};
ghost use Rattle.run_terms.specs.ValueViews.{content_view, value_view, value_views};
ghost use Rattle.report_traces.specs.KnownAnswers.{answered, known_in, or_nothing};

use crate::echo::named_value;
use cranelift_isle::sema::{Sym, TermId, TypeEnv, TypeId};
use run_terms::externs::Externs;
use run_terms::values::{Content, Value, same_value, value_clones};
use std::alloc::{AllocError, Global};

/// The answer to a call that isn't impure.
pub struct Known {
    /// The term.
    pub term: TermId,
    /// What it is called on: of an extractor the value, of a constructor the arguments as one value (`key_of`).
    pub key: Value,
    /// The answer.
    pub content: Content,
}

impl Drop for Known {
    fn drop(self) {
        let Self {
            term: _,
            key: _,
            content: _,
        } = self;
    }
}

/// The arguments of a constructor as one value.
pub fn key_of(alloc: Global, args: &[Value]) -> Result<Value, AllocError>
    ensures { IfOk result (λ v. value_view v ≡ of_struct 0 (value_views args.now)) }
{
    Ok(Value::Struct(TypeId::BOOL, value_clones(alloc, args)?))
}

// Whether an answer is that to a call.
fn is_of(known: &Known, term: TermId, key: &Value) -> bool
    ensures { result ≡ ((known.now.term.0 == term.0) && value_eq (value_view known.now.key) (value_view key.now)) }
{
    known.term.index() == term.index() && same_value(&known.key, key)
}

/// The answer to a call among those that are known: the first one.
pub fn known_in<'a>(all: &'a [Known], term: TermId, key: &Value) -> Option<&'a Content>
    ensures { option_map (λ c. content_view c.now) result ≡ known_in all.now term.0 (value_view key.now) }
{
    for known in all {
        if is_of(known, term, key) {
            return Some(&known.content);
        }
    }
    None
}

fn or_nothing(content: Option<&Content>) -> Result<Content, AllocError>
    ensures { IfOk result (λ c. content_view c ≡ or_nothing (option_map (λ r. content_view r.now) content.entry)) }
{
    match content {
        Some(content) => content.clone(),
        None => Ok(Content::Nothing),
    }
}

/// Answers calls as it is known. A call whose answer isn't known is answered by nothing. A literal is the value that it writes,
/// and a named constant a value that no other constant has.
pub struct Answered<'a> {
    /// The names and types.
    pub tyenv: &'a TypeEnv,
    /// The answers of extractors.
    pub extracted: &'a [Known],
    /// The answers of pure constructors.
    pub called: &'a [Known],
    /// The answers of impure constructors, in the order of their calls.
    pub made: &'a [Content],
}

impl<'a> Drop for Answered<'a> {
    fn drop(self) {
        let Self {
            tyenv: _,
            extracted: _,
            called: _,
            made: _,
        } = self;
    }
}

impl<'a> Externs for Answered<'a> {
    ghost functions = { λ a. answered (constant_at a.tyenv.now) a.extracted.now a.called.now a.made.now };

    fn bool_literal(&self, alloc: Global, value: bool, ty: TypeId) -> Result<Value, AllocError> {
        Ok(Value::Truth(value))
    }

    fn int_literal(&self, alloc: Global, value: i128, ty: TypeId) -> Result<Value, AllocError> {
        Ok(Value::Atom(ty, value))
    }

    fn constant(&self, alloc: Global, name: Sym) -> Result<Value, AllocError> {
        Ok(named_value(self.tyenv, name))
    }

    fn extractor(
        &self,
        alloc: Global,
        term: TermId,
        argument: &Value,
    ) -> Result<Content, AllocError> {
        or_nothing(known_in(self.extracted, term, argument))
    }

    fn pure_call(
        &self,
        alloc: Global,
        term: TermId,
        arguments: &[Value],
    ) -> Result<Content, AllocError> {
        let key = key_of(alloc, arguments)?;
        or_nothing(known_in(self.called, term, &key))
    }

    fn impure_call(
        &self,
        alloc: Global,
        term: TermId,
        arguments: &[Value],
        before: usize,
    ) -> Result<Content, AllocError> {
        or_nothing(self.made.get(before))
    }
}
