//! What is tested.

ghost use Rattle.std.specs.Prelude.{◌≡◌, OnOk};
ghost use Rattle.model_code.specs.Tokens.{equal_to, if_word, underscore};
ghost use Rattle.model_code.specs.Pieces as Pieces;
ghost use Rattle.model_code.specs.Pieces.{arm_pattern, comparison_before, condition_before, is_seen_through, let_before};
ghost use Rattle.rust_code.specs.CodeViews.{use_view};
ghost use Rattle.core_rule_sets.specs.SiteViews.{constraint_view};
ghost use Rattle.rust_text.specs.TokenViews.{word_view};
ghost use Rattle.rust_text.specs.Adding.{AddsBy};
ghost use Rattle.rust_text.specs.Writers.{Says};

use crate::added::{add_between, add_first, add_if};
use crate::notation::Writer;
use crate::patterns::add_constant;
use crate::places::add_use;
use crate::tokens::{Piece, Word};
use cranelift_isle::trie_again::{BindingId, Constraint};
use rust_code::code::Use;
use std::alloc::AllocError;

/// Whether a pattern is a constant.
pub(crate) fn is_constant(pattern: &Constraint) -> bool
    ensures { result ≡ Pieces.is_constant (constraint_view pattern.now) }
{
    match pattern {
        Constraint::ConstBool { .. } => true,
        Constraint::ConstInt { .. } => true,
        Constraint::ConstPrim { .. } => true,
        Constraint::Variant { .. } => false,
        Constraint::Struct { .. } => false,
        Constraint::Some => false,
    }
}

impl Writer<'_> {
    // Whether a constant is compared with what a reference refers to: one of an enum's or a struct's type is.
    fn is_seen_through(&self, constant: &Constraint) -> bool
        ensures { Says self.now (λ p. result ≡ is_seen_through p (constraint_view constant.now)) }
    {
        match constant {
            Constraint::ConstPrim { val } => self.is_constant_composed(*val),
            Constraint::ConstBool { .. } => false,
            Constraint::ConstInt { .. } => false,
            Constraint::Variant { .. } => false,
            Constraint::Struct { .. } => false,
            Constraint::Some => false,
        }
    }

    /// Adds a comparison with a constant.
    pub(crate) fn add_comparison(
        &self,
        out: &mut Vec<Piece>,
        value: Use,
        sign: Word,
        constant: &Constraint,
    ) -> Result<(), AllocError>
        ensures { OnOk result (AddsBy self.now out.old.items out.new.items (λ p rest.
            comparison_before p (use_view value) (word_view sign) (constraint_view constant.now) rest)) }
    {
        add_if(out, self.is_seen_through(constant), Word::Star)?;
        add_use(out, value)?;
        add_between(out, sign)?;
        add_constant(out, constant)
    }

    /// Adds a pattern, and the value that is to meet it.
    pub(crate) fn add_let(
        &self,
        out: &mut Vec<Piece>,
        value: Use,
        pattern: &Constraint,
        fields: &[Option<BindingId>],
    ) -> Result<(), AllocError>
        ensures { OnOk result (AddsBy self.now out.old.items out.new.items (λ p rest.
            let_before p (use_view value) (constraint_view pattern.now) fields.now rest)) }
    {
        add_first(out, Word::Let)?;
        self.add_pattern(out, pattern, fields)?;
        add_between(out, Word::Equals)?;
        add_use(out, value)
    }

    /// Adds that a value meets a pattern; a constant is compared.
    pub(crate) fn add_condition(
        &self,
        out: &mut Vec<Piece>,
        value: Use,
        pattern: &Constraint,
        fields: &[Option<BindingId>],
    ) -> Result<(), AllocError>
        ensures { OnOk result (AddsBy self.now out.old.items out.new.items (λ p rest.
            condition_before (Pieces.is_constant (constraint_view pattern.now)) p (use_view value) (constraint_view pattern.now) fields.now rest)) }
    {
        if is_constant(pattern) {
            self.add_comparison(out, value, Word::EqualTo, pattern)
        } else {
            self.add_let(out, value, pattern, fields)
        }
    }

    fn add_named_arm(
        &self,
        out: &mut Vec<Piece>,
        value: Use,
        constant: &Constraint,
    ) -> Result<(), AllocError>
        ensures { OnOk result (AddsBy self.now out.old.items out.new.items (λ p rest.
            Pieces.put_first underscore (Pieces.put_first if_word (comparison_before p (use_view value) equal_to (constraint_view constant.now) rest)))) }
    {
        add_first(out, Word::Underscore)?;
        add_first(out, Word::If)?;
        self.add_comparison(out, value, Word::EqualTo, constant)
    }

    /// Adds a pattern as an arm beside others has it. A named constant is no pattern, so it is compared.
    pub(crate) fn add_arm_pattern(
        &self,
        out: &mut Vec<Piece>,
        value: Use,
        pattern: &Constraint,
        fields: &[Option<BindingId>],
    ) -> Result<(), AllocError>
        ensures { OnOk result (AddsBy self.now out.old.items out.new.items (λ p rest.
            arm_pattern p (use_view value) (constraint_view pattern.now) fields.now rest)) }
    {
        match pattern {
            Constraint::ConstPrim { .. } => self.add_named_arm(out, value, pattern),
            Constraint::ConstBool { .. } => self.add_pattern(out, pattern, fields),
            Constraint::ConstInt { .. } => self.add_pattern(out, pattern, fields),
            Constraint::Variant { .. } => self.add_pattern(out, pattern, fields),
            Constraint::Struct { .. } => self.add_pattern(out, pattern, fields),
            Constraint::Some => self.add_pattern(out, pattern, fields),
        }
    }
}
