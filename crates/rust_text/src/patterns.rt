//! Patterns.

ghost use Rattle.std.specs.Prelude.{◌∷◌, [], false, OnOk};
ghost use Rattle.model_code.specs.Pieces as Pieces;
ghost use Rattle.model_code.specs.Pieces.{binding_before, bindings_before, constant_before, inner_before, named_bindings, pattern_before, place_in_order, put, put_all, token, unnamed_bindings};
ghost use Rattle.model_code.specs.Tokens.{ampersand, closing, opening, owner_name, some_word};
ghost use Rattle.core_rule_sets.specs.SiteViews.{constraint_view};
ghost use Rattle.rust_text.specs.TokenViews.{owner_view};
ghost use Rattle.rust_text.specs.Adding.{Adds, AddsBy};
ghost use Rattle.rust_text.specs.Writers.{shape_view};
ghost use Rattle.rust_text.specs.Fields.{named_field};

use crate::added::{add, add_between, add_first, add_first_if, add_token, add_word, add_words};
use crate::expressions::{add_comma, add_truth};
use crate::notation::{Shape, Writer};
use crate::places::add_int;
use crate::tokens::{Owner, Piece, RustToken, Word};
use cranelift_isle::trie_again::{BindingId, Constraint};
use std::alloc::AllocError;

// Adds the end of fields with names, with `..` where some aren't bound.
fn add_fields_end(out: &mut Vec<Piece>, is_bound: bool, is_lacking: bool) -> Result<(), AllocError>
    ensures { OnOk result (Adds out.old.items out.new.items (λ p rest. Pieces.fields_end is_bound is_lacking rest)) }
{
    if !is_lacking {
        add(out, Piece::Space)?;
        return add_word(out, Word::ClosingBrace);
    }
    add_first_if(out, is_bound, Word::Comma)?;
    add_first(out, Word::TwoDots)?;
    add_word(out, Word::ClosingBrace)
}

// Adds the variable of what is within an answer, or `_` where nothing looks at it.
fn add_inner(out: &mut Vec<Piece>, fields: &[Option<BindingId>]) -> Result<(), AllocError>
    ensures { OnOk result (Adds out.old.items out.new.items (λ p rest. inner_before fields.now rest)) }
{
    match fields {
        [Some(site), ..] => add_token(out, RustToken::Variable(*site)),
        [None, ..] => add_word(out, Word::Underscore),
        [] => add_word(out, Word::Underscore),
    }
}

/// Adds a constant that is asked.
pub(crate) fn add_constant(out: &mut Vec<Piece>, constraint: &Constraint) -> Result<(), AllocError>
    ensures { OnOk result (Adds out.old.items out.new.items (λ p rest. constant_before p (constraint_view constraint.now) rest)) }
{
    match constraint {
        Constraint::ConstBool { val, .. } => add_truth(out, *val),
        Constraint::ConstInt { val, ty } => add_int(out, *val, *ty),
        Constraint::ConstPrim { val } => add_token(out, RustToken::Constant(*val)),
        Constraint::Variant { .. } => Ok(()),
        Constraint::Struct { .. } => Ok(()),
        Constraint::Some => Ok(()),
    }
}

fn add_some(out: &mut Vec<Piece>, fields: &[Option<BindingId>]) -> Result<(), AllocError>
    ensures { OnOk result (Adds out.old.items out.new.items (λ p rest. put_all (some_word ∷ opening ∷ []) (inner_before fields.now (put closing rest)))) }
{
    add_words(out, &[Word::Some, Word::Opening])?;
    add_inner(out, fields)?;
    add_word(out, Word::Closing)
}

impl Writer<'_> {
    // Adds the variable of a field: a reference to an enum or a struct.
    fn add_binding(
        &self,
        out: &mut Vec<Piece>,
        owner: Owner,
        index: usize,
        site: BindingId,
    ) -> Result<(), AllocError>
        ensures { OnOk result (AddsBy self.now out.old.items out.new.items (λ p rest. binding_before p (owner_view owner) index site rest)) }
    {
        add_first_if(out, self.is_field_composed(owner, index), Word::Ref)?;
        add_token(out, RustToken::Variable(site))
    }

    // Adds a field with a name if it is bound.
    fn add_named_field(
        &self,
        out: &mut Vec<Piece>,
        owner: Owner,
        index: usize,
        field: Option<BindingId>,
        is_bound: bool,
    ) -> Result<(), AllocError>
        ensures { OnOk result (AddsBy self.now out.old.items out.new.items (λ p rest. named_field p (owner_view owner) index is_bound field rest)) }
    {
        match field {
            Some(site) => {
                add_first_if(out, is_bound, Word::Comma)?;
                add_token(out, RustToken::Field { owner, index })?;
                add_first(out, Word::Colon)?;
                self.add_binding(out, owner, index, site)
            }
            None => Ok(()),
        }
    }

    // Adds the fields with names that are bound, and `..` where others aren't.
    #[tactic(auto, using(crate::proofs::FieldSteps::field_steps))]
    fn add_named_bindings(
        &self,
        out: &mut Vec<Piece>,
        owner: Owner,
        fields: &[Option<BindingId>],
    ) -> Result<(), AllocError>
        ensures { OnOk result (AddsBy self.now out.old.items out.new.items (λ p rest. named_bindings p (owner_view owner) 0 false false fields.now rest)) }
    {
        let mut is_bound = false;
        let mut is_lacking = false;
        for (index, field) in fields.iter().enumerate() {
            self.add_named_field(out, owner, index, *field, is_bound)?;
            is_bound = field.is_some() || is_bound;
            is_lacking = field.is_none() || is_lacking;
        }
        Ok(add_fields_end(out, is_bound, is_lacking)?)
    }

    // Adds a field without a name, as `_` if it isn't bound.
    fn add_in_order(
        &self,
        out: &mut Vec<Piece>,
        owner: Owner,
        index: usize,
        field: Option<BindingId>,
    ) -> Result<(), AllocError>
        ensures { OnOk result (AddsBy self.now out.old.items out.new.items (λ p rest. place_in_order p (owner_view owner) index field rest)) }
    {
        match field {
            Some(site) => self.add_binding(out, owner, index, site),
            None => add_word(out, Word::Underscore),
        }
    }

    fn add_unnamed_bindings(
        &self,
        out: &mut Vec<Piece>,
        owner: Owner,
        fields: &[Option<BindingId>],
    ) -> Result<(), AllocError>
        ensures { OnOk result (AddsBy self.now out.old.items out.new.items (λ p rest. unnamed_bindings p (owner_view owner) 0 fields.now rest)) }
    {
        for (index, field) in fields.iter().enumerate() {
            add_comma(out, index)?;
            self.add_in_order(out, owner, index, *field)?;
        }
        Ok(add_word(out, Word::Closing)?)
    }

    fn add_bindings(
        &self,
        out: &mut Vec<Piece>,
        owner: Owner,
        shape: Shape,
        fields: &[Option<BindingId>],
    ) -> Result<(), AllocError>
        ensures { OnOk result (AddsBy self.now out.old.items out.new.items (λ p rest.
            bindings_before p (owner_view owner) (shape_view shape) fields.now rest)) }
    {
        match shape {
            Shape::Unit => Ok(()),
            Shape::Named { .. } => {
                add_between(out, Word::OpeningBrace)?;
                self.add_named_bindings(out, owner, fields)
            }
            Shape::Unnamed { .. } => {
                add_word(out, Word::Opening)?;
                self.add_unnamed_bindings(out, owner, fields)
            }
        }
    }

    // Adds a pattern of an enum or a struct, which are matched by reference.
    fn add_owner_pattern(
        &self,
        out: &mut Vec<Piece>,
        owner: Owner,
        fields: &[Option<BindingId>],
    ) -> Result<(), AllocError>
        ensures { OnOk result (AddsBy self.now out.old.items out.new.items (λ p rest. put ampersand (token (owner_name (owner_view owner))
            ∷ bindings_before p (owner_view owner) (p.shape (owner_view owner)) fields.now rest))) }
    {
        add_word(out, Word::Ampersand)?;
        add_token(out, RustToken::Owner(owner))?;
        self.add_bindings(out, owner, self.shape_of(owner), fields)
    }

    /// Adds a pattern.
    pub(crate) fn add_pattern(
        &self,
        out: &mut Vec<Piece>,
        constraint: &Constraint,
        fields: &[Option<BindingId>],
    ) -> Result<(), AllocError>
        ensures { OnOk result (AddsBy self.now out.old.items out.new.items (λ p rest. pattern_before p (constraint_view constraint.now) fields.now rest)) }
    {
        match constraint {
            Constraint::Variant { ty, variant, .. } => {
                let owner = Owner::Variant {
                    ty: *ty,
                    variant: *variant,
                };
                self.add_owner_pattern(out, owner, fields)
            }
            Constraint::Struct { ty, .. } => {
                self.add_owner_pattern(out, Owner::Struct { ty: *ty }, fields)
            }
            Constraint::ConstBool { .. } => add_constant(out, constraint),
            Constraint::ConstInt { .. } => add_constant(out, constraint),
            Constraint::ConstPrim { .. } => add_constant(out, constraint),
            Constraint::Some => add_some(out, fields),
        }
    }
}
