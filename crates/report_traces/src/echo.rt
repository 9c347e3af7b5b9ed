//! Answers to what trees call, by a rule that a person works out by hand.
#![tactic(auto, using(run_terms::proofs::ContentSteps::content_steps, run_terms::proofs::ValueSteps::value_steps))]

ghost use Rattle.std.specs.Prelude.{◌≡◌, IfOk, map, not, option_map};
ghost use Rattle.cranelift_isle.specs.Meaning.{content_and, many, no_content};
ghost use Rattle.cranelift_isle.specs.Program.{always_answers, kind_of};
ghost use Rattle.cranelift_isle.specs.TermViews.{extractor_view, flags_view, term_view, term_views};
ghost use Rattle.cranelift_isle.specs.Envs.{constant_at};
ghost use Rattle.run_terms.specs.ValueViews.{content_view, value_view, value_views};
ghost use Rattle.report_traces.specs.Echoes.{constant_number, impure_echo, echoes, extracted_by, first_or_zero, for_each_type, given_by, in_form, pure_echo, named_value, outputs_of};

use cranelift_isle::sema::{
    ExtractorKind, Sym, Term, TermFlags, TermId, TermKind, TypeEnv, TypeId,
};
use run_terms::externs::Externs;
use run_terms::values::{Content, Value};
use std::alloc::{AllocError, Global};

/// Answers each call by one rule. A literal is the value that it writes, and a named constant a value that no other
/// constant has. An extractor gives what it is called on, as each of its outputs. A pure constructor gives its first argument,
/// or 0 where it has none; an impure one gives how many impure calls were made before. What may give nothing always gives
/// something, and what is multi gives it twice.
pub struct Echo<'a> {
    /// The names and types.
    pub tyenv: &'a TypeEnv,
    /// The terms.
    pub terms: &'a [Term],
}

impl<'a> Drop for Echo<'a> {
    fn drop(self) {
        let Self { tyenv: _, terms: _ } = self;
    }
}

/// The number that stands for a named constant: its place among the names, counted from the least number.
pub fn constant_number(name: Sym) -> i128
    ensures { result ≡ constant_number name.0 }
{
    i128::MIN + name.index() as i128
}

/// The value of a named constant.
pub fn named_value(tyenv: &TypeEnv, name: Sym) -> Value
    ensures { value_view result ≡ named_value (constant_at tyenv.now name.0) name.0 }
{
    match tyenv.const_types.get(&name) {
        Some(ty) => Value::Atom(*ty, constant_number(name)),
        None => Value::Atom(TypeId::BOOL, constant_number(name)),
    }
}

fn twice(alloc: Global, content: Content) -> Result<Content, AllocError>
    ensures { IfOk result (λ c. content_view c ≡ many (content_and (content_view content) (content_and (content_view content) no_content))) }
{
    let mut both = Vec::new(alloc);
    both.push(content.clone()?)?;
    both.push(content)?;
    Ok(Content::Many(both))
}

// An answer in the form of a call that is multi, or may give nothing.
fn in_form(
    alloc: Global,
    multi: bool,
    optional: bool,
    content: Content,
) -> Result<Content, AllocError>
    ensures { IfOk result (λ c. content_view c ≡ in_form multi optional (content_view content)) }
{
    if multi {
        twice(alloc, content)
    } else if optional {
        Ok(Content::Just(Box::new(alloc, content)?))
    } else {
        Ok(content)
    }
}

fn for_each_type(alloc: Global, types: &[TypeId], value: &Value) -> Result<Vec<Value>, AllocError>
    ensures { IfOk result (λ v. value_views v.items ≡ for_each_type (map (λ ty. ty.0) types.now) (value_view value.now)) }
{
    let mut out = Vec::new(alloc);
    for _ in types {
        out.push(value.clone()?)?;
    }
    Ok(out)
}

// A value as each output of an extractor, whose types these are.
fn outputs_of(alloc: Global, types: &[TypeId], value: &Value) -> Result<Content, AllocError>
    ensures { IfOk result (λ c. content_view c ≡ outputs_of (map (λ ty. ty.0) types.now) (value_view value.now)) }
{
    match types {
        [_] => Ok(Content::One(value.clone()?)),
        _ => Ok(Content::Parts(for_each_type(alloc, types, value)?)),
    }
}

fn always_answers(flags: TermFlags, extractor: &Option<ExtractorKind>) -> bool
    ensures { result ≡ always_answers (flags_view flags) (option_map extractor_view extractor.now) }
{
    match extractor {
        Some(ExtractorKind::ExternalExtractor { infallible, .. }) => *infallible && !flags.multi,
        Some(ExtractorKind::InternalExtractor { .. }) | None => false,
    }
}

fn extracted(alloc: Global, term: &Term, value: &Value) -> Result<Content, AllocError>
    ensures { IfOk result (λ c. content_view c ≡ extracted_by (kind_of (term_view term.now)) (term_view term.now).arg_tys (value_view value.now)) }
{
    match &term.kind {
        TermKind::Decl {
            flags,
            extractor_kind,
            ..
        } => {
            let outputs = outputs_of(alloc, &term.arg_tys, value)?;
            in_form(
                alloc,
                flags.multi,
                !always_answers(*flags, extractor_kind),
                outputs,
            )
        }
        TermKind::EnumVariant { .. } | TermKind::Struct => Ok(Content::Nothing),
    }
}

fn given(alloc: Global, term: &Term, value: Value) -> Result<Content, AllocError>
    ensures { IfOk result (λ c. content_view c ≡ given_by (kind_of (term_view term.now)) (value_view value)) }
{
    match &term.kind {
        TermKind::Decl { flags, .. } => {
            in_form(alloc, flags.multi, flags.partial, Content::One(value))
        }
        TermKind::EnumVariant { .. } | TermKind::Struct => Ok(Content::Nothing),
    }
}

// The first of several values, or 0 of a type where there is none.
fn first_or_zero(ty: TypeId, values: &[Value]) -> Result<Value, AllocError>
    ensures { IfOk result (λ v. value_view v ≡ first_or_zero ty.0 (value_views values.now)) }
{
    match values {
        [first, ..] => first.clone(),
        [] => Ok(Value::Atom(ty, 0)),
    }
}

impl<'a> Externs for Echo<'a> {
    ghost functions = { λ e. echoes (constant_at e.tyenv.now) (term_views e.terms.now) };

    fn bool_literal(&self, alloc: Global, value: bool, ty: TypeId) -> Result<Value, AllocError> {
        Ok(Value::Truth(value))
    }

    fn int_literal(&self, alloc: Global, value: i128, ty: TypeId) -> Result<Value, AllocError> {
        Ok(Value::Atom(ty, value))
    }

    fn constant(&self, alloc: Global, name: Sym) -> Result<Value, AllocError> {
        Ok(named_value(self.tyenv, name))
    }

    fn extractor(
        &self,
        alloc: Global,
        term: TermId,
        argument: &Value,
    ) -> Result<Content, AllocError> {
        match self.terms.get(term.index()) {
            Some(term) => extracted(alloc, term, argument),
            None => Ok(Content::Nothing),
        }
    }

    fn pure_call(
        &self,
        alloc: Global,
        term: TermId,
        arguments: &[Value],
    ) -> Result<Content, AllocError> {
        match self.terms.get(term.index()) {
            Some(term) => given(alloc, term, first_or_zero(term.ret_ty, arguments)?),
            None => Ok(Content::Nothing),
        }
    }

    fn impure_call(
        &self,
        alloc: Global,
        term: TermId,
        arguments: &[Value],
        before: usize,
    ) -> Result<Content, AllocError> {
        match self.terms.get(term.index()) {
            Some(term) => given(alloc, term, Value::Atom(term.ret_ty, before as i128)),
            None => Ok(Content::Nothing),
        }
    }
}
