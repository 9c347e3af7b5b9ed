//! What trees call: the meanings of literals, named constants and declared terms, which the caller gives.

ghost use Rattle.std.specs.Prelude.{◌≡◌, IfOk, length};
ghost use Rattle.model.specs.rules.Meaning.{bool_literal, int_literal, TotalMeaning};
ghost use Rattle.run_terms.specs.ValueViews.{value_view, value_views, content_view};

use crate::values::{Content, Value};
use core_types::{Sym, TermId, TypeId};
use std::alloc::{AllocError, Global};

/// What is answered to each call, as a function. An impure call is answered by its term and the number of impure calls made
/// before it, and so is told that number.
pub trait Externs {
    /// What is called means, as functions.
    ghost functions: { Self → TotalMeaning };

    /// The value of a truth literal at a type.
    fn bool_literal(&self, alloc: Global, value: bool, ty: TypeId) -> Result<Value, AllocError>
        ensures { IfOk result (λ v. value_view v ≡ (functions self.now).literals (bool_literal value ty.0)) };

    /// The value of an integer literal at a type.
    fn int_literal(&self, alloc: Global, value: i128, ty: TypeId) -> Result<Value, AllocError>
        ensures { IfOk result (λ v. value_view v ≡ (functions self.now).literals (int_literal value ty.0)) };

    /// The value of a named constant.
    fn constant(&self, alloc: Global, name: Sym) -> Result<Value, AllocError>
        ensures { IfOk result (λ v. value_view v ≡ (functions self.now).constants name.0) };

    /// What an extractor answers on a value.
    fn extractor(
        &self,
        alloc: Global,
        term: TermId,
        argument: &Value,
    ) -> Result<Content, AllocError>
        ensures { IfOk result (λ c. content_view c ≡ (functions self.now).extractors term.0 (value_view argument.now)) };

    /// What a pure constructor answers on values.
    fn pure_call(
        &self,
        alloc: Global,
        term: TermId,
        arguments: &[Value],
    ) -> Result<Content, AllocError>
        ensures { IfOk result (λ c. content_view c ≡ (functions self.now).pures term.0 (value_views arguments.now)) };

    /// What an impure constructor answers, after so many impure calls.
    fn impure_call(
        &self,
        alloc: Global,
        term: TermId,
        arguments: &[Value],
        before: usize,
    ) -> Result<Content, AllocError>
        ensures { IfOk result (λ c. content_view c ≡ (functions self.now).impures term.0 before) };
}
