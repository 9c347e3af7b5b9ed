//! A visit that is refused, of a visitor that notes its calls.

ghost use Rattle.std.specs.Prelude.{◌≡◌, [], IfOk, IsTrue};
ghost use Rattle.model.specs.lists.Visitable.{is_visitable_rule};
ghost use Rattle.core_terms.specs.TermViews.{term_views};
ghost use Rattle.core_typed.specs.RuleViews.{rule_view};

use crate::recorder::Recorder;
use core_rules::TermEnv;
use core_syntax::stablemapset::StableMap;
use core_syntax::syntax::Pos;
use core_terms::{ConstructorKind, Term, TermFlags, TermKind};
use core_typed::{Expr, Pattern, Rule, VisitFault};
use core_types::{RuleId, Sym, TermId, TypeId, VarId};
use std::alloc::{AllocError, Global};

const NOWHERE: Pos = Pos { file: 0, offset: 0 };

const NO_FLAGS: TermFlags = TermFlags {
    pure: false,
    multi: false,
    partial: false,
    rec: false,
};

// The calls for `(decl f (u8 u8) u8)`, `(rule (f x @ 2 x) x)`.
const EIGHT: [&str; 8] = [
    "AddArg",
    "AddPattern",
    "AddMatchInt",
    "AddArg",
    "AddPattern",
    "AddMatchEqual",
    "PatternAsExpr",
    "AddExpr",
];

/// Whether the calls of a visit are a beginning of those eight where it is refused, and else all of them.
pub fn visits_begin(alloc: Global) -> Result<bool, AllocError> {
    let visited = bound_and_used(alloc)?;
    let mut recorder = Recorder::new(alloc);
    let answer = visited.1.visit(alloc, &mut recorder, &visited.0);
    let calls = recorder.calls.as_slice();
    let begins = EIGHT.get(..calls.len()) == Some(calls);
    match &answer {
        Ok(_) => Ok(begins && calls.len() == 8),
        Err(VisitFault::Memory(_)) => Ok(begins && calls.len() < 8),
        Err(_) => Ok(false),
    }
}

// The definitions of the eight calls.
fn bound_and_used(alloc: Global) -> Result<(TermEnv, Rule), AllocError>
    ensures { IfOk result (λ x. IsTrue (is_visitable_rule (term_views x.0.terms.items) (rule_view x.1))) }
{
    let (ty, x) = (TypeId::U8, VarId(0));
    let kind = TermKind::Decl {
        flags: NO_FLAGS,
        constructor_kind: Some(ConstructorKind::InternalConstructor),
        extractor_kind: None,
    };
    let f = term(Vec::from_array(alloc, [ty, ty])?, ty, kind);
    let two = Box::new(alloc, Pattern::ConstInt(ty, 2))?;
    let args = Vec::from_array(
        alloc,
        [Pattern::BindPattern(ty, x, two), Pattern::Var(ty, x)],
    )?;
    Ok((
        env(alloc, Vec::from_array(alloc, [f])?),
        rule(alloc, args, Expr::Var(ty, x)),
    ))
}

// The first term.
fn term(arg_tys: Vec<TypeId>, ret_ty: TypeId, kind: TermKind) -> Term
    ensures { (result.kind ≡ kind) × (result.arg_tys ≡ arg_tys) }
{
    Term {
        id: TermId(0),
        decl_pos: NOWHERE,
        name: Sym(20),
        arg_tys,
        ret_ty,
        kind,
    }
}

fn env(alloc: Global, terms: Vec<Term>) -> TermEnv
    ensures { result.terms ≡ terms }
{
    TermEnv {
        terms,
        term_map: StableMap::new(alloc),
        rules: Vec::new(alloc),
        rule_map: StableMap::new(alloc),
        converters: StableMap::new(alloc),
        expand_internal_extractors: true,
    }
}

// A rule of that term.
fn rule(alloc: Global, args: Vec<Pattern>, rhs: Expr) -> Rule
    ensures parts { (result.root_term.0 ≡ 0) × (result.args ≡ args) × (result.rhs ≡ rhs) }
    ensures iflets { result.iflets.items ≡ [] }
{
    Rule {
        id: RuleId(0),
        root_term: TermId(0),
        args,
        iflets: Vec::new(alloc),
        rhs,
        vars: Vec::new(alloc),
        prio: 0,
        pos: NOWHERE,
        name: None,
    }
}
