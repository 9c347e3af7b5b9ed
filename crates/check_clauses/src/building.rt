//! Calls that make rule sets of typed rules, under their own clauses.

ghost use Rattle.std.specs.Prelude.{◌≡◌, All, Bool, IfErr, IfOk, IsTrue, List, true};
ghost use Rattle.model.specs.claims.Environments.{IsElaborated, TypesRead, program_of};
ghost use Rattle.model.specs.lists.Elaborated.{TypedRules};
ghost use Rattle.model.specs.lists.Formed.{is_formed_rule};
ghost use Rattle.model.specs.lists.Syntax.{Definition};
ghost use Rattle.model.specs.lists.Visitable.{is_visitable_rule};
ghost use Rattle.model.specs.rules.Program.{Program};
ghost use Rattle.model.specs.sites.Overlap.{build_reports};
ghost use Rattle.model.specs.sites.Sites.{SiteTerm};
ghost use Rattle.model.specs.visits.Demands.{visit_rule, visit_start};
ghost use Rattle.core_builder.specs.VisitedSites.{Constructs, EndsAtLimit, BuilderStandsAt, ValuesTo};
ghost use Rattle.core_syntax.specs.Positions.{HasSingleSpans};
ghost use Rattle.core_typed.specs.RuleViews.{rule_view};
ghost use Rattle.core_typed.specs.VisitAnswers.{typed_inputs};
ghost use Rattle.cranelift_isle.specs.BuiltSets.{IsOfElaborated, ShowsElaborated, WereBuilt};

use core_builder::ruleset_builder::RuleSetBuilder;
use core_typed::UsedTerms;
use cranelift_isle::sema::{ExprVisitor, Rule, TermEnv, TermId, TypeId, VisitFault};
use cranelift_isle::syntax::Error;
use cranelift_isle::trie_again::{BindingId, RuleSet, build};
use std::alloc::{AllocError, Global};

/// `build`, the rule set of each term.
///
/// # Errors
///
/// As it has them.
pub fn sets_of(
    alloc: Global,
    termenv: &TermEnv,
) -> Result<(Vec<(TermId, RuleSet)>, Vec<Error>), AllocError>
    requires elaborated { IsOfElaborated termenv.now }
    ensures built { (e : TypesRead) (defs : List Definition) (expand : Bool) (rules : TypedRules) → IsElaborated e defs expand rules → ShowsElaborated e defs rules termenv.now
        → IfOk result (λ b. WereBuilt termenv.now (program_of e defs rules.rules) b.0.items b.1.items (build_reports (program_of e defs rules.rules))) }
    ensures single { IfOk result (λ b. All HasSingleSpans b.1.items) }
{
    build(alloc, termenv)
}

/// `RuleSetBuilder::visit_rule`, the site of a rule's result.
///
/// # Errors
///
/// As it has them.
pub fn visited<E: UsedTerms>(
    builder: &mut RuleSetBuilder,
    rule: &Rule,
    termenv: &E,
) -> Result<BindingId, VisitFault>
    requires visitable { IsTrue (is_visitable_rule (E.term_entries termenv.now) (rule_view rule.now)) }
    ensures visited { (p : Program) (before : List SiteTerm) → p.terms ≡ E.term_entries termenv.now
        → is_formed_rule p (rule_view rule.now) ≡ true → BuilderStandsAt before builder.old visit_start
        → IfOk result (ValuesTo before builder.old builder.new (visit_rule p (rule_view rule.now))) }
    ensures limit { (p : Program) (before : List SiteTerm) → p.terms ≡ E.term_entries termenv.now
        → is_formed_rule p (rule_view rule.now) ≡ true → BuilderStandsAt before builder.old visit_start
        → IfErr result (EndsAtLimit p before (rule_view rule.now) builder.new) }
{
    builder.visit_rule(rule, termenv)
}

/// `add_construct` of a `RuleSetBuilder`, the value that a constructor gives.
///
/// # Errors
///
/// As it has them.
pub fn constructed(
    builder: &mut RuleSetBuilder,
    inputs: Vec<(BindingId, TypeId)>,
    ty: TypeId,
    term: TermId,
    pure: bool,
    infallible: bool,
    multi: bool,
    rec: bool,
) -> Result<BindingId, VisitFault>
    ensures { Constructs term.0 pure infallible multi builder.old (typed_inputs inputs.items) result builder.new }
{
    builder.add_construct(inputs, ty, term, pure, infallible, multi, rec)
}
