//! Specs of internal extractors, which count where the extractors that their templates call have none: where a template matches a value, by
//! what a rule asks of it, the internal extractor is called as if it were an external one.

use crate::faults::CallFault;
use crate::makers::Maker;
use crate::moving::number;
use core_rule_sets::trie_again::{Binding, BindingId, TupleIndex};
use core_syntax::syntax::{Ident, Pattern};
use core_terms::{ExtractorKind, Term, TermKind};
use core_types::{TypeId, VariantId};
use spec_cases::steps::Constraint;
use spec_steps::demands::{Same, Tested};
use std::alloc::{AllocError, Global};

// How deep templates are looked into.
const DEEPEST_TEMPLATE: usize = 100;

impl<'c, 's> Maker<'c, 's> {
    /// Calls the internal extractors whose templates match a value by the call of an extractor without a spec. True if there is one, or the
    /// call is made within another one's template. Calls of those that match are then within them.
    pub(crate) fn count_templates(
        &mut self,
        site: usize,
        within: &mut Vec<usize>,
    ) -> Result<bool, CallFault> {
        let Ok(call) = BindingId::try_from(site) else {
            return Err(CallFault::Foreign);
        };
        let Some(parameter) = self.parameter_of(call) else {
            return Ok(false);
        };
        let mut is_known = within.contains(&site);
        if self.is_late(call) {
            return Ok(is_known);
        }
        let lowered = self.lowered;
        for known in &lowered.termenv.terms {
            is_known = self.count_template(known, parameter, call, within)? || is_known;
        }
        Ok(is_known)
    }

    // What the extractor looks at that a site calls.
    fn parameter_of(&self, call: BindingId) -> Option<BindingId> {
        match self.bindings.get(call.index()) {
            Some(Binding::Extractor { parameter, .. }) => Some(*parameter),
            _ => None,
        }
    }

    // Calls a term, if it is an internal extractor whose template matches a value by the call at a site. True if it is.
    fn count_template(
        &mut self,
        term: &'c Term,
        value: BindingId,
        call: BindingId,
        within: &mut Vec<usize>,
    ) -> Result<bool, CallFault> {
        if template_of(term).is_none() || !self.is_said(term.id) {
            return Ok(false);
        }
        let mut calls = Vec::new(self.alloc);
        let Some(args) = self.taken_apart(term, value, call, &mut calls, DEEPEST_TEMPLATE)? else {
            return Ok(false);
        };
        if !calls.contains(&call.index()) {
            return Ok(false);
        }
        within.extend_from_slice(&calls)?;
        self.call_extractor(term, value, &args)?;
        Ok(true)
    }

    // Calls an internal extractor on a value, which gives these, unless it is called on it.
    fn call_extractor(
        &mut self,
        term: &Term,
        value: BindingId,
        args: &[BindingId],
    ) -> Result<(), CallFault> {
        let binding = Binding::Extractor {
            term: term.id,
            parameter: value,
        };
        if self.found(&binding).is_some() {
            return Ok(());
        }
        let call = self.add(binding)?;
        self.counted = self.counted.saturating_add(1);
        self.constraints.push(Tested {
            site: number(call),
            constraint: Constraint::Some,
        })?;
        let outputs = self.outputs_of(call, args.len())?;
        for (output, arg) in outputs.iter().zip(args) {
            self.equalities.push(Same {
                first: number(*output),
                second: number(*arg),
            })?;
        }
        Ok(())
    }

    // What the arguments of an internal extractor stand for, if its template is known to match a value. The sites of the calls that the
    // template makes are added.
    #[cycle(template)]
    fn taken_apart(
        &mut self,
        term: &'c Term,
        value: BindingId,
        near: BindingId,
        calls: &mut Vec<usize>,
        fuel: usize,
    ) -> Result<Option<Vec<BindingId>>, CallFault> {
        let Some(template) = template_of(term) else {
            return Ok(None);
        };
        let mut args = Vec::new(self.alloc);
        for _ in &term.arg_tys {
            args.push(None)?;
        }
        if self.is_met(template, value, near, &mut args, calls, fuel)? {
            Ok(all_of(self.alloc, &args)?)
        } else {
            Ok(None)
        }
    }

    // Whether a pattern of a template is known to match a value. What its arguments stand for is noted.
    #[cycle(template)]
    fn is_met(
        &mut self,
        pattern: &'c Pattern,
        value: BindingId,
        near: BindingId,
        args: &mut [Option<BindingId>],
        calls: &mut Vec<usize>,
        fuel: usize,
    ) -> Result<bool, CallFault> {
        if fuel == 0 {
            return Ok(false);
        }
        match pattern {
            Pattern::Wildcard { .. } => Ok(true),
            Pattern::MacroArg { index, .. } => Ok(is_noted(args, *index, value)),
            Pattern::Term {
                sym,
                args: patterns,
                ..
            } => match self.parts_of(sym, value, near, calls, fuel - 1)? {
                Some(parts) => self.are_met(patterns, &parts, near, args, calls, fuel - 1),
                None => Ok(false),
            },
            Pattern::And { subpats, .. } => {
                self.all_met(subpats, value, near, args, calls, fuel - 1)
            }
            _ => Ok(false),
        }
    }

    // Whether patterns of a template are all known to match a value.
    #[cycle(template)]
    fn all_met(
        &mut self,
        patterns: &'c [Pattern],
        value: BindingId,
        near: BindingId,
        args: &mut [Option<BindingId>],
        calls: &mut Vec<usize>,
        fuel: usize,
    ) -> Result<bool, CallFault> {
        for pattern in patterns {
            if !self.is_met(pattern, value, near, args, calls, fuel)? {
                return Ok(false);
            }
        }
        Ok(true)
    }

    // Whether patterns of a template are known to match values, each the one at its place.
    #[cycle(template)]
    fn are_met(
        &mut self,
        patterns: &'c [Pattern],
        values: &[BindingId],
        near: BindingId,
        args: &mut [Option<BindingId>],
        calls: &mut Vec<usize>,
        fuel: usize,
    ) -> Result<bool, CallFault> {
        for (pattern, value) in patterns.iter().zip(values) {
            if !self.is_met(pattern, *value, near, args, calls, fuel)? {
                return Ok(false);
            }
        }
        Ok(patterns.len() == values.len())
    }

    // What a term brings of a value that it is known to match: a variant, a struct, or an extractor that the rule calls on it.
    #[cycle(template)]
    fn parts_of(
        &mut self,
        name: &Ident,
        value: BindingId,
        near: BindingId,
        calls: &mut Vec<usize>,
        fuel: usize,
    ) -> Result<Option<Vec<BindingId>>, CallFault> {
        let Some(term) = self.term_called(name) else {
            return Ok(None);
        };
        match &term.kind {
            TermKind::EnumVariant { variant } => {
                self.parts_of_variant(value, term.ret_ty, *variant, term.arg_tys.len())
            }
            TermKind::Struct => self.parts_of_struct(value, term.ret_ty, term.arg_tys.len()),
            TermKind::Decl { .. } => match self.call_on(term, value, near)? {
                Some(call) => {
                    calls.push(call.index())?;
                    Ok(Some(self.given_by(term, call)?))
                }
                None => self.taken_apart(term, value, near, calls, fuel),
            },
        }
    }

    // The term of a name.
    fn term_called(&self, name: &Ident) -> Option<&'c Term> {
        let lowered = self.lowered;
        let sym = lowered.tyenv.intern(name)?;
        let term = lowered.termenv.term_map.get(&sym)?;
        lowered.termenv.terms.get(term.index())
    }

    // The fields of a value that is known to be of a variant.
    fn parts_of_variant(
        &mut self,
        value: BindingId,
        ty: TypeId,
        variant: VariantId,
        count: usize,
    ) -> Result<Option<Vec<BindingId>>, CallFault> {
        if !self.is_asked_variant(value, ty, variant) {
            return Ok(None);
        }
        let mut parts = Vec::new(self.alloc);
        for place in 0..count {
            let field = index_of(place)?;
            parts.push(self.site_of(Binding::MatchVariant {
                source: value,
                variant,
                field,
            })?)?;
        }
        Ok(Some(parts))
    }

    // The fields of a value that is known to be a struct.
    fn parts_of_struct(
        &mut self,
        value: BindingId,
        ty: TypeId,
        count: usize,
    ) -> Result<Option<Vec<BindingId>>, CallFault> {
        if !self.is_asked_struct(value, ty) {
            return Ok(None);
        }
        let mut parts = Vec::new(self.alloc);
        for place in 0..count {
            let field = index_of(place)?;
            parts.push(self.site_of(Binding::ExtractStruct {
                source: value,
                field,
            })?)?;
        }
        Ok(Some(parts))
    }

    // Whether a value is asked to be of a variant.
    fn is_asked_variant(&self, value: BindingId, ty: TypeId, variant: VariantId) -> bool {
        for test in &self.constraints {
            if test.site == number(value) && is_of_variant(test.constraint, ty, variant) {
                return true;
            }
        }
        false
    }

    // Whether a value is asked to be a struct.
    fn is_asked_struct(&self, value: BindingId, ty: TypeId) -> bool {
        for test in &self.constraints {
            if test.site == number(value) && is_of_struct(test.constraint, ty) {
                return true;
            }
        }
        false
    }

    // The site at which an extractor is called on a value and answers, that near one if it is one: the rule makes it, or it always answers
    // and has no spec.
    fn call_on(
        &mut self,
        term: &Term,
        value: BindingId,
        near: BindingId,
    ) -> Result<Option<BindingId>, CallFault> {
        let Some(answers) = answers_by(term) else {
            return Ok(None);
        };
        let binding = Binding::Extractor {
            term: term.id,
            parameter: value,
        };
        if self.bindings.get(near.index()) == Some(&binding) {
            return Ok(Some(near));
        }
        if let Some(site) = self.found(&binding) {
            return Ok(Some(site));
        }
        match answers {
            Answers::Always if !self.is_said(term.id) => Ok(Some(self.add(binding)?)),
            Answers::Always | Answers::Perhaps | Answers::Many => Ok(None),
        }
    }

    // What an external extractor gives by a call that answers.
    fn given_by(&mut self, term: &Term, call: BindingId) -> Result<Vec<BindingId>, CallFault> {
        let answer = match answers_by(term) {
            Some(Answers::Perhaps) => self.site_of(Binding::MatchSome { source: call })?,
            Some(Answers::Many) => self.site_of(Binding::Iterator { source: call })?,
            Some(Answers::Always) | None => call,
        };
        self.outputs_of(answer, term.arg_tys.len())
    }

    // The outputs of a call: one is the answer itself, several are its parts.
    fn outputs_of(&mut self, answer: BindingId, count: usize) -> Result<Vec<BindingId>, CallFault> {
        let mut outputs = Vec::new(self.alloc);
        if count == 1 {
            outputs.push(answer)?;
            return Ok(outputs);
        }
        for place in 0..count {
            let field = index_of(place)?;
            outputs.push(self.site_of(Binding::MatchTuple {
                source: answer,
                field,
            })?)?;
        }
        Ok(outputs)
    }

    // The site of this binding, a new one if there is none.
    fn site_of(&mut self, binding: Binding) -> Result<BindingId, CallFault> {
        match self.found(&binding) {
            Some(site) => Ok(site),
            None => self.add(binding),
        }
    }

    // The first site of this binding.
    fn found(&self, binding: &Binding) -> Option<BindingId> {
        for (site, known) in self.bindings.iter().enumerate() {
            if known == binding {
                return BindingId::try_from(site).ok();
            }
        }
        None
    }
}

// The place of a part.
fn index_of(place: usize) -> Result<TupleIndex, CallFault> {
    match TupleIndex::try_from(place) {
        Ok(index) => Ok(index),
        Err(_) => Err(CallFault::Foreign),
    }
}

fn is_of_variant(constraint: Constraint, wanted: TypeId, known: VariantId) -> bool {
    match constraint {
        Constraint::Variant { ty, variant, .. } => ty == wanted && variant == known,
        Constraint::Struct { .. }
        | Constraint::ConstBool { .. }
        | Constraint::ConstInt { .. }
        | Constraint::ConstPrim { .. }
        | Constraint::Some => false,
    }
}

fn is_of_struct(constraint: Constraint, wanted: TypeId) -> bool {
    match constraint {
        Constraint::Struct { ty, .. } => ty == wanted,
        Constraint::Variant { .. }
        | Constraint::ConstBool { .. }
        | Constraint::ConstInt { .. }
        | Constraint::ConstPrim { .. }
        | Constraint::Some => false,
    }
}

// How an external extractor answers.
#[derive(Clone, Copy)]
enum Answers {
    Always,
    Perhaps,
    Many,
}

// How a term's external extractor answers. None where it has none.
fn answers_by(term: &Term) -> Option<Answers> {
    match &term.kind {
        TermKind::Decl {
            flags,
            extractor_kind: Some(ExtractorKind::ExternalExtractor { infallible, .. }),
            ..
        } => Some(answers_of(flags.multi, *infallible)),
        _ => None,
    }
}

fn answers_of(multi: bool, infallible: bool) -> Answers {
    if multi {
        Answers::Many
    } else if infallible {
        Answers::Always
    } else {
        Answers::Perhaps
    }
}

// The template of an internal extractor.
fn template_of(term: &Term) -> Option<&Pattern> {
    match &term.kind {
        TermKind::Decl {
            extractor_kind: Some(ExtractorKind::InternalExtractor { template }),
            ..
        } => Some(template),
        _ => None,
    }
}

// Notes what an argument of a template stands for. False if it stands for another value, or there is no such argument.
fn is_noted(args: &mut [Option<BindingId>], place: usize, value: BindingId) -> bool {
    match args.get_mut(place) {
        Some(entry) => {
            let is_first = entry.is_none();
            *entry = Some(value);
            is_first
        }
        None => false,
    }
}

// What arguments stand for, if that is known of each.
fn all_of(alloc: Global, args: &[Option<BindingId>]) -> Result<Option<Vec<BindingId>>, AllocError> {
    let mut values = Vec::new(alloc);
    for arg in args {
        match arg {
            Some(value) => values.push(*value)?,
            None => return Ok(None),
        }
    }
    Ok(Some(values))
}
