//! The check of overlaps: rules of one priority that may both match, and rules that others mask.

ghost use Rattle.std.specs.Prelude.{All, Bool, List, ◌≡◌, IfOk};
ghost use Rattle.model.specs.lists.Syntax.{Definition};
ghost use Rattle.model.specs.lists.Elaborated.{TypedRules};
ghost use Rattle.model.specs.rules.Program.{Program, is_multi};
ghost use Rattle.model.specs.claims.Environments.{IsElaborated, TypesRead, program_of};
ghost use Rattle.model.specs.sites.Overlap.{RuleReport};
ghost use Rattle.model.specs.sites.SetRules.{reports_of_sets};
ghost use Rattle.laws_sites.specs.ErrorLaws.{NamesLeftOut, NamesPairs, NamesMasks};
ghost use Rattle.laws_trees.specs.NoLimits.{BuildsWithinLimits};
ghost use Rattle.core_syntax.specs.Answers.{OnErrors};
ghost use Rattle.core_syntax.specs.ErrorViews.{error_views};
ghost use Rattle.core_syntax.specs.Positions.{HasSingleSpans};
ghost use Rattle.core_builder.specs.AddedRules.{report_views};
ghost use Rattle.cranelift_isle.specs.BuiltSets.{IsOfElaborated, ShowsElaborated, WereBuilt, term_set_views};
ghost use Rattle.cranelift_isle.specs.Checks.{IsChecked, NamesRules, OfErrors, OfProgram, env_program};

use crate::trie_again::build;
use core_overlap::overlap::Errors;
use core_rule_sets::trie_again::RuleSet;
use core_rules::TermEnv;
use core_syntax::syntax::{Error, Fault};
use core_terms::TermKind;
use core_types::TermId;
use laws_sites::{check_errors_name_left_out, check_errors_name_masks, check_errors_name_pairs};
use laws_trees::checkable_programs_pass_no_limit;
use std::alloc::{AllocError, Global};

// Whether a term may give many values: then no rule stands in the way of another.
fn is_multi(termenv: &TermEnv, term: TermId) -> bool
    ensures { result ≡ is_multi (env_program termenv.now) term.0 }
{
    match termenv.terms.get(term.index()) {
        Some(term) => match &term.kind {
            TermKind::Decl { flags, .. } => flags.multi,
            TermKind::EnumVariant { .. } | TermKind::Struct => false,
        },
        None => false,
    }
}

/// What is wrong with rule sets: rules of one term and priority that may both match, and rules that are never taken since
/// another one matches wherever they do. No error where there is nothing.
///
/// The errors stand by the place of their first rule or mask, overlaps before shadows at one place. Of the overlaps, the
/// rule with the most is reported first, of several the latest, with the others of these overlaps by place; then the same
/// of the overlaps that are left. A shadow lists the rules that its mask masks, in rule order. The rules of multi terms
/// are not compared: all that match are taken. Upstream's `check_overlaps` with `Errors::report`, whose further rules come
/// in the order of a hash set.
///
/// # Errors
///
/// Where memory is refused.
pub fn check_overlaps(
    alloc: Global,
    termenv: &TermEnv,
    sets: &[(TermId, RuleSet)],
) -> Result<Vec<Error>, AllocError>
    ensures reports { IfOk result (λ v. error_views v.items ≡ report_views (reports_of_sets (is_multi (env_program termenv.now)) (term_set_views sets.now))) }
    ensures single { IfOk result (λ v. All HasSingleSpans v.items) }
{
    let mut errors = Errors::new(alloc);
    for (term, set) in sets {
        if !is_multi(termenv, *term) {
            errors.check_rules(alloc, &set.rules)?;
        }
    }
    errors.report(alloc)
}

/// What checking gives of sets and errors that were built: the sets, where there is no error and nothing is wrong with the
/// sets. Each set stands with its term; the errors are those of rules that were left out of the sets.
///
/// # Errors
///
/// `Fault::Errors` where there is any: those that were handed in, then those of overlaps and shadows, as `check_overlaps`
/// gives them. `Fault::Memory` where memory is refused.
pub fn check_built(
    alloc: Global,
    termenv: &TermEnv,
    sets: Vec<(TermId, RuleSet)>,
    mut errors: Vec<Error>,
) -> Result<Vec<(TermId, RuleSet)>, Fault>
    ensures checked { (p : Program) (reports : List RuleReport) → WereBuilt termenv.now p sets.items errors.items reports → IsChecked p result }
    ensures single { All HasSingleSpans errors.items → OnErrors result (λ es. All HasSingleSpans es) }
    ensures places { (p : Program) (reports : List RuleReport) → WereBuilt termenv.now p sets.items errors.items reports
        → OnErrors result (λ es. NamesRules p (error_views es)) }
{
    let mut found = check_overlaps(alloc, termenv, &sets)?;
    errors.append(&mut found)?;
    if errors.is_empty() {
        Ok(sets)
    } else {
        Err(Fault::Errors(errors))
    }
}

/// The rule set of each term with rules, ascending by term, where the rules can be told apart: each one is reachable and
/// passes no limit, no two of one term and priority may both match, and none is never taken since another one matches
/// wherever it does. Rules of multi terms are not compared. `termenv` is the environment of a list of definitions that
/// elaborates. Upstream's `overlap::check`, with the rule sets that it builds.
///
/// # Errors
///
/// `Fault::Errors` has the errors of rules that are left out, in rule order, as `build` gives them; then those of overlaps
/// and shadows, as `check_overlaps` gives them. `Fault::Memory` where memory is refused.
pub fn check(alloc: Global, termenv: &TermEnv) -> Result<Vec<(TermId, RuleSet)>, Fault>
    requires elaborated { IsOfElaborated termenv.now }
    ensures checked { (e : TypesRead) (defs : List Definition) (expand : Bool) (rules : TypedRules) → IsElaborated e defs expand rules
        → ShowsElaborated e defs rules termenv.now
        → IsChecked (program_of e defs rules.rules) result }

    // each rule that is left out has an error at its position, and each error that says so is of a rule that is left out; if no
    // two rules stand at one position, a rule that passes a limit has exactly one
    ensures left_out { OfErrors termenv.now result NamesLeftOut }

    // each two rules that overlap wrongly stand in exactly one overlap error that lists one of them first; each overlap error
    // lists a rule besides its first, and its further rules overlap wrongly with the first
    ensures pairs { OfErrors termenv.now result NamesPairs }

    // each mask is named by a shadow error, which lists exactly the rules that it shadows; if no two rules stand at one position,
    // by no other
    ensures masks { OfErrors termenv.now result NamesMasks }

    // where they can be told apart, none passes a limit on what it makes
    ensures within_limits { OfProgram termenv.now (λ p. IfOk result (λ sets. BuildsWithinLimits p)) }

    // an error names only positions of rules, and each of its spans is that of one position
    ensures places { OfErrors termenv.now result NamesRules }
    ensures single { OnErrors result (λ es. All HasSingleSpans es) }
{
    // laws, without code: what the errors name, and that no limit is passed where there is none
    checkable_programs_pass_no_limit();
    check_errors_name_left_out();
    check_errors_name_pairs();
    check_errors_name_masks();
    let (sets, errors) = build(alloc, termenv)?;
    check_built(alloc, termenv, sets, errors)
}
