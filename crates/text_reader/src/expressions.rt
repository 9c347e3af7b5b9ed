//! Forms to expressions.
#![tactic(auto, using(crate::proofs::Rows::expr_parts))]

ghost use Rattle.std.specs.Prelude.{◌≡◌, All, MatchResult, Ok};
ghost use Rattle.model.specs.lists.Syntax.{let_expr, term_expr};
ghost use Rattle.core_syntax.specs.SyntaxViews.{expr_view, expr_views, let_views, name_view, position};
ghost use Rattle.text_reader.specs.Faults.{FaultIsWithin};
ghost use Rattle.text_reader.specs.Forms.{FormIsWithin, FormsAreWithin, IdentIsWithin, PosIsWithin};
ghost use Rattle.text_reader.specs.Lets.{LetIsWithin};
ghost use Rattle.text_reader.specs.Within.{ExprIsWithin};
ghost use Rattle.text_reader.specs.FormViews.{all_view, form_view};
ghost use Rattle.text_reader.specs.LetViews.{let_tuple};
ghost use Rattle.text_reader.specs.ExprGrammar.{defined_in, expr_arguments_of, expr_of, let_definition_of, let_of, lets_in, lets_of, word_expr_of};
ghost use Rattle.text_reader.specs.Views.{Gives};

use crate::errors::{Mistake, ReadFault, fault};
use crate::forms::TextForm;
use crate::parts::{head, name, seen};
use crate::source::Source;
use core_syntax::syntax::{Expr, Ident, LetDef, Pos};

/// The expression that a form is.
#[cycle(expression)]
pub fn expression(at: Source, form: &TextForm) -> Result<Expr, ReadFault>
    requires { FormIsWithin at.file at.len form.now }
    ensures read { Gives expr_view result (expr_of (form_view form.now)) }
    ensures within { MatchResult result (λ e. ExprIsWithin at.file at.len (expr_view e)) (FaultIsWithin at.file at.len) }
{
    match form {
        TextForm::Word(name) => word_expression(at, name),
        TextForm::Number(val, pos) => Ok(Expr::ConstInt {
            val: *val,
            pos: *pos,
        }),
        TextForm::Constant(name, pos) => Ok(Expr::ConstPrim {
            val: name.clone()?,
            pos: *pos,
        }),
        TextForm::Bound(name, _) => Err(fault(Mistake::Expression, name.1)),
        TextForm::Group(parts, pos, end) => {
            let parts: &[TextForm] = parts;
            seen(at, parts);
            let sym = head(at, parts, *end)?;
            if sym.0.as_str() == "let" {
                return let_expression(at, parts, *pos, *end);
            }
            let args = arguments(at, parts)?;
            Ok(call(at, sym, args, *pos))
        }
    }
}

// The let with these parts, its head the first.
#[cycle(expression)]
fn let_expression(at: Source, forms: &[TextForm], pos: Pos, end: Pos) -> Result<Expr, ReadFault>
    requires forms { FormsAreWithin at.file at.len forms.now }
    requires pos { PosIsWithin at.file at.len pos }
    requires end { PosIsWithin at.file at.len end }
    ensures read { Gives expr_view result (let_of (all_view forms.now) (position pos) (position end)) }
    ensures within { MatchResult result (λ e. ExprIsWithin at.file at.len (expr_view e)) (FaultIsWithin at.file at.len) }
{
    match forms {
        [_, defs, body] => {
            let defs = let_definitions(at, defs)?;
            let body = expression(at, body)?;
            let_in(at, defs, body, pos)
        }
        [_, _, _, more, ..] => Err(fault(Mistake::End, more.pos())),
        [_, _] => Err(fault(Mistake::Expression, end)),
        _ => Err(fault(Mistake::LetDefinitions, end)),
    }
}

#[cycle(expression)]
fn let_definitions(at: Source, form: &TextForm) -> Result<Vec<LetDef>, ReadFault>
    requires { FormIsWithin at.file at.len form.now }
    ensures read { Gives (λ ds. let_views ds.items) result (lets_of (form_view form.now)) }
    ensures within { MatchResult result (λ ds. All (LetIsWithin at.file at.len) ds.items) (FaultIsWithin at.file at.len) }
{
    match form {
        TextForm::Group(parts, _, _) => {
            let parts: &[TextForm] = parts;
            seen(at, parts);
            let_definitions_of(at, parts)
        }
        _ => Err(fault(Mistake::LetDefinitions, form.pos())),
    }
}

#[cycle(expression)]
fn let_definitions_of(at: Source, forms: &[TextForm]) -> Result<Vec<LetDef>, ReadFault>
    requires { FormsAreWithin at.file at.len forms.now }
    ensures read { Gives (λ ds. let_views ds.items) result (lets_in (all_view forms.now)) }
    ensures within { MatchResult result (λ ds. All (LetIsWithin at.file at.len) ds.items) (FaultIsWithin at.file at.len) }
{
    let mut defs = Vec::new(at.alloc);
    for form in forms {
        defs.push(let_definition(at, form)?)?;
    }
    Ok(defs)
}

#[cycle(expression)]
fn let_definition(at: Source, form: &TextForm) -> Result<LetDef, ReadFault>
    requires { FormIsWithin at.file at.len form.now }
    ensures read { Gives let_tuple result (let_definition_of (form_view form.now)) }
    ensures within { MatchResult result (LetIsWithin at.file at.len) (FaultIsWithin at.file at.len) }
{
    match form {
        TextForm::Group(parts, pos, _) => {
            let parts: &[TextForm] = parts;
            seen(at, parts);
            let_definition_of(at, parts, *pos)
        }
        _ => Err(fault(Mistake::LetDefinitions, form.pos())),
    }
}

// A definition of a let with these parts: a name, its type's name, and its value.
#[cycle(expression)]
fn let_definition_of(at: Source, parts: &[TextForm], pos: Pos) -> Result<LetDef, ReadFault>
    requires parts { FormsAreWithin at.file at.len parts.now }
    requires pos { PosIsWithin at.file at.len pos }
    ensures read { Gives let_tuple result (defined_in (all_view parts.now) (position pos)) }
    ensures within { MatchResult result (LetIsWithin at.file at.len) (FaultIsWithin at.file at.len) }
{
    match parts {
        [var, ty, val] => {
            let var = name(at, var)?;
            let ty = name(at, ty)?;
            let val = expression(at, val)?;
            defined(at, var, ty, val, pos)
        }
        [_, _, _, _, ..] => Err(fault(Mistake::LetDefinitions, pos)),
        _ => Err(fault(Mistake::LetDefinitions, pos)),
    }
}

// The expressions that a list's parts after its head are.
#[cycle(expression)]
fn arguments(at: Source, parts: &[TextForm]) -> Result<Vec<Expr>, ReadFault>
    requires { FormsAreWithin at.file at.len parts.now }
    ensures read { Gives (λ es. expr_views es.items) result (expr_arguments_of (all_view parts.now)) }
    ensures within { MatchResult result (λ es. All (λ e. ExprIsWithin at.file at.len (expr_view e)) es.items) (FaultIsWithin at.file at.len) }
{
    let mut expressions = Vec::new(at.alloc);
    for i in 1..parts.len() {
        expressions.push(expression(at, &parts[i])?)?;
    }
    Ok(expressions)
}

fn call(at: Source, sym: Ident, args: Vec<Expr>, pos: Pos) -> Expr
    requires sym { IdentIsWithin at.file at.len sym }
    requires args { All (λ e. ExprIsWithin at.file at.len (expr_view e)) args.items }
    requires pos { PosIsWithin at.file at.len pos }
    ensures read { expr_view result ≡ term_expr (name_view sym) (expr_views args.items) (position pos) }
    ensures within { ExprIsWithin at.file at.len (expr_view result) }
{
    Expr::Term { sym, args, pos }
}

fn let_in(at: Source, defs: Vec<LetDef>, body: Expr, pos: Pos) -> Result<Expr, ReadFault>
    requires defs { All (LetIsWithin at.file at.len) defs.items }
    requires body { ExprIsWithin at.file at.len (expr_view body) }
    requires pos { PosIsWithin at.file at.len pos }
    ensures read { Gives expr_view result (Ok (let_expr (let_views defs.items) (expr_view body) (position pos))) }
    ensures within { MatchResult result (λ e. ExprIsWithin at.file at.len (expr_view e)) (FaultIsWithin at.file at.len) }
{
    let body = Box::new(at.alloc, body)?;
    Ok(Expr::Let { defs, body, pos })
}

// A name of a let with its type and value.
fn defined(at: Source, var: Ident, ty: Ident, val: Expr, pos: Pos) -> Result<LetDef, ReadFault>
    requires var { IdentIsWithin at.file at.len var }
    requires ty { IdentIsWithin at.file at.len ty }
    requires val { ExprIsWithin at.file at.len (expr_view val) }
    requires pos { PosIsWithin at.file at.len pos }
    ensures read { Gives let_tuple result (Ok (name_view var, name_view ty, expr_view val, position pos)) }
    ensures within { MatchResult result (LetIsWithin at.file at.len) (FaultIsWithin at.file at.len) }
{
    let val = Box::new(at.alloc, val)?;
    Ok(LetDef { var, ty, val, pos })
}

fn word_expression(at: Source, word: &Ident) -> Result<Expr, ReadFault>
    requires { IdentIsWithin at.file at.len word.now }
    ensures read { Gives expr_view result (Ok (word_expr_of (name_view word.now))) }
    ensures within { MatchResult result (λ e. ExprIsWithin at.file at.len (expr_view e)) (FaultIsWithin at.file at.len) }
{
    let pos = word.1;
    match word.0.as_str() {
        "true" => Ok(Expr::ConstBool { val: true, pos }),
        "false" => Ok(Expr::ConstBool { val: false, pos }),
        _ => Ok(Expr::Var {
            name: word.clone()?,
            pos,
        }),
    }
}
