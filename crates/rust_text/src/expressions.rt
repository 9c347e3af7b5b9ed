//! What variables are bound to.

ghost use Rattle.std.specs.Prelude.{◌∷◌, OnOk};
ghost use Rattle.model_code.specs.Tokens.{owner_name};
ghost use Rattle.model_code.specs.Pieces.{answer_before, args_before, called_before, comma_before, expr_before, gap_before, made_before, named_values, put, token, truth_word, unnamed_values};
ghost use Rattle.rust_code.specs.CodeViews.{expr_view, use_views};
ghost use Rattle.rust_text.specs.TokenViews.{callee_view, owner_view};
ghost use Rattle.rust_text.specs.Adding.{Adds, AddsBy};
ghost use Rattle.rust_text.specs.Writers.{shape_view};

use crate::added::{add, add_first, add_if, add_token, add_word, add_words};
use crate::notation::{Shape, Writer};
use crate::places::add_use;
use crate::tokens::{Callee, Owner, Piece, RustToken, Word};
use rust_code::code::{BoundExpr, Use};
use std::alloc::AllocError;
use std::slice;

/// Adds a truth value.
pub(crate) fn add_truth(out: &mut Vec<Piece>, val: bool) -> Result<(), AllocError>
    ensures { OnOk result (Adds out.old.items out.new.items (λ p rest. put (truth_word val) rest)) }
{
    if val {
        add_word(out, Word::True)
    } else {
        add_word(out, Word::False)
    }
}

// Adds what is handed to a function behind its context.
fn add_args(out: &mut Vec<Piece>, args: &[Use]) -> Result<(), AllocError>
    ensures { OnOk result (Adds out.old.items out.new.items (λ p rest. args_before p (use_views args.now) rest)) }
{
    for used in args {
        add_first(out, Word::Comma)?;
        add_use(out, *used)?;
    }
    Ok(())
}

/// Adds a call up to the parenthesis that ends it.
pub(crate) fn add_call(out: &mut Vec<Piece>, callee: Callee, args: &[Use]) -> Result<(), AllocError>
    ensures { OnOk result (Adds out.old.items out.new.items (λ p rest. called_before p (callee_view callee) (use_views args.now) rest)) }
{
    add_token(out, RustToken::Function(callee))?;
    add_words(out, &[Word::Opening, Word::Ctx])?;
    add_args(out, args)
}

// Adds what stands before a field with a name.
fn add_gap(out: &mut Vec<Piece>, place: usize) -> Result<(), AllocError>
    ensures { OnOk result (Adds out.old.items out.new.items (λ p rest. gap_before place rest)) }
{
    if place == 0 {
        add(out, Piece::Space)
    } else {
        add_first(out, Word::Comma)
    }
}

/// Adds what stands before a field without a name.
pub(crate) fn add_comma(out: &mut Vec<Piece>, place: usize) -> Result<(), AllocError>
    ensures { OnOk result (Adds out.old.items out.new.items (λ p rest. comma_before place rest)) }
{
    if place == 0 {
        Ok(())
    } else {
        add_first(out, Word::Comma)
    }
}

fn add_named_values(out: &mut Vec<Piece>, owner: Owner, values: &[Use]) -> Result<(), AllocError>
    ensures { OnOk result (Adds out.old.items out.new.items (λ p rest. named_values p (owner_view owner) 0 (use_views values.now) rest)) }
{
    for (index, value) in values.iter().enumerate() {
        add_gap(out, index)?;
        add_token(out, RustToken::Field { owner, index })?;
        add_first(out, Word::Colon)?;
        add_use(out, *value)?;
    }
    add(out, Piece::Space)?;
    Ok(add_word(out, Word::ClosingBrace)?)
}

fn add_unnamed_values(out: &mut Vec<Piece>, values: &[Use]) -> Result<(), AllocError>
    ensures { OnOk result (Adds out.old.items out.new.items (λ p rest. unnamed_values p 0 (use_views values.now) rest)) }
{
    for (index, value) in values.iter().enumerate() {
        add_comma(out, index)?;
        add_use(out, *value)?;
    }
    Ok(add_word(out, Word::Closing)?)
}

fn add_made(
    out: &mut Vec<Piece>,
    owner: Owner,
    shape: Shape,
    values: &[Use],
) -> Result<(), AllocError>
    ensures { OnOk result (Adds out.old.items out.new.items (λ p rest.
        made_before p (owner_view owner) (shape_view shape) (use_views values.now) rest)) }
{
    match shape {
        Shape::Unit => Ok(()),
        Shape::Named { .. } => {
            add(out, Piece::Space)?;
            add_word(out, Word::OpeningBrace)?;
            add_named_values(out, owner, values)
        }
        Shape::Unnamed { .. } => {
            add_word(out, Word::Opening)?;
            add_unnamed_values(out, values)
        }
    }
}

impl Writer<'_> {
    // Adds a call of one answer, which is looked at by reference where it is an enum or a struct.
    fn add_answer(
        &self,
        out: &mut Vec<Piece>,
        callee: Callee,
        args: &[Use],
    ) -> Result<(), AllocError>
        ensures { OnOk result (AddsBy self.now out.old.items out.new.items (λ p rest. answer_before p (callee_view callee) (use_views args.now) rest)) }
    {
        add_if(out, self.gives_composed(callee), Word::Ampersand)?;
        add_call(out, callee, args)?;
        add_word(out, Word::Closing)
    }

    // Adds what is made, with its fields.
    fn add_owner(
        &self,
        out: &mut Vec<Piece>,
        owner: Owner,
        values: &[Use],
    ) -> Result<(), AllocError>
        ensures { OnOk result (AddsBy self.now out.old.items out.new.items (λ p rest. token (owner_name (owner_view owner))
            ∷ made_before p (owner_view owner) (p.shape (owner_view owner)) (use_views values.now) rest)) }
    {
        add_token(out, RustToken::Owner(owner))?;
        add_made(out, owner, self.shape_of(owner), values)
    }

    /// Adds what a variable is bound to.
    pub(crate) fn add_expr(&self, out: &mut Vec<Piece>, expr: &BoundExpr) -> Result<(), AllocError>
        ensures { OnOk result (AddsBy self.now out.old.items out.new.items (λ p rest. expr_before p (expr_view expr.now) rest)) }
    {
        match expr {
            BoundExpr::TruthWritten { val, .. } => add_truth(out, *val),
            BoundExpr::Extraction { term, value } => {
                self.add_answer(out, Callee::Extractor(*term), slice::from_ref(value))
            }
            BoundExpr::Call { term, args, .. } => {
                self.add_answer(out, Callee::Constructor(*term), args)
            }
            BoundExpr::VariantOf {
                ty,
                variant,
                fields,
            } => {
                let owner = Owner::Variant {
                    ty: *ty,
                    variant: *variant,
                };
                self.add_owner(out, owner, fields)
            }
            BoundExpr::StructOf { ty, fields } => self.add_owner(
                out,
                Owner::Struct { ty: *ty },
                fields,
            ),
            BoundExpr::SomeOf { value } => {
                add_words(out, &[Word::Some, Word::Opening])?;
                add_use(out, *value)?;
                add_word(out, Word::Closing)
            }
        }
    }
}
