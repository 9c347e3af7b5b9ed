//! The names of typed rules, and the terms that have none.

ghost use Rattle.std.specs.Prelude.{◌≡◌, List, [], ◌∷◌, IfOk, OnOk, OnErr, IsTrue, length, option_map};
ghost use Rattle.core_syntax.specs.Positions.{NotesAt};
ghost use Rattle.model.specs.lists.Elaborated.{named_rule, named_rules, term_name};
ghost use Rattle.model.specs.rules.Typed.{TypedRule};
ghost use Rattle.core_terms.specs.TermViews.{term_view, term_views};
ghost use Rattle.core_typed.specs.Elaborating.{Checks};
ghost use Rattle.core_typed.specs.FirstErrors.{MayBegin};
ghost use Rattle.core_typed.specs.RuleNaming.{AreCounts, MapsNames, NamesRule, TakesName, is_defined_term, AreDefined, IsLeftUndefined, rules_at, terms_at};
ghost use Rattle.core_typed.specs.RuleViews.{rule_view, rule_views};

use crate::Rule;
use core_syntax::stablemapset::StableMap;
use core_syntax::syntax::Error;
use core_terms::Term;
use core_types::{RuleId, Sym, TermId, TypeEnv, report_name};
use core_why::Wrong;
use std::alloc::{AllocError, Global};

// Gives each rule without a name that is the only one of its term the term's name.
//
// # Errors
//
// Where memory is refused. Nothing has changed then.
pub fn name_rules(terms: &[Term], rules: &mut Vec<Rule>) -> Result<(), AllocError>
    ensures names { OnOk result (rule_views rules.new.items ≡ named_rules (term_views terms.now) (rule_views rules.old.items)) }
    ensures err { OnErr result (rules.new ≡ rules.old) }
{
    let counts = count_rules(terms, rules)?;
    for i in 0..rules.len() {
        let name = name_for(terms, &counts, &rules[i]);
        rules[i].name = name;
    }
    Ok(())
}

// How many rules each term has, by the terms' ids. Made once: to count anew for each rule takes the square of their number.
fn count_rules(terms: &[Term], rules: &Vec<Rule>) -> Result<Vec<usize>, AllocError>
    ensures { IfOk result (λ counts. AreCounts (length terms.now) (rule_views rules.now.items) counts.items) }
{
    let mut counts = vec![in *rules.allocator(); 0; terms.len()]?;
    for rule in rules {
        if let Some(count) = counts.get_mut(rule.root_term.index()) {
            *count += 1;
        }
    }
    Ok(counts)
}

// The name that a rule has, or gets, among the rules that were counted.
fn name_for(terms: &[Term], counts: &[usize], rule: &Rule) -> Option<Sym>
    ensures { (rules : List TypedRule) → AreCounts (length terms.now) rules counts.now
        → option_map (λ s. s.0) result ≡ (named_rule (term_views terms.now) rules (rule_view rule.now)).name }
{
    if rule.name.is_none() && counts.get(rule.root_term.index()) == Some(&1) {
        return name_of_term(terms, rule.root_term);
    }
    rule.name
}

fn name_of_term(terms: &[Term], term: TermId) -> Option<Sym>
    ensures { option_map (λ s. s.0) result ≡ term_name (term_views terms.now) term.0 }
{
    match terms.get(term.index()) {
        Some(term) => Some(term.name),
        None => None,
    }
}

// Each named rule by its name. A name that an earlier rule has is noted.
pub fn map_names(
    alloc: Global,
    tyenv: &TypeEnv,
    rules: &[Rule],
    errors: &mut Vec<Error>,
) -> Result<StableMap<Sym, RuleId>, AllocError>
    ensures maps { IfOk result (λ m. MapsNames errors.old.items errors.new.items (rule_views rules.now) m) }
    ensures places { OnOk result (NotesAt (rules_at (rule_views rules.now)) errors.old.items errors.new.items) }
    ensures first { OnOk result (MayBegin (TakesName (rule_views rules.now)) errors.old.items errors.new.items) }
{
    let mut rule_map = StableMap::new(alloc);
    for rule in rules {
        map_name(tyenv, rule, &mut rule_map, errors)?;
    }
    Ok(rule_map)
}

#[tactic(auto, using(core_syntax::proofs::Positioned::notes_nothing))]
fn map_name(
    tyenv: &TypeEnv,
    rule: &Rule,
    rule_map: &mut StableMap<Sym, RuleId>,
    errors: &mut Vec<Error>,
) -> Result<(), AllocError>
    ensures names { OnOk result (NamesRule errors.old.items errors.new.items (rule_view rule.now) rule_map.old rule_map.new) }
    ensures places { OnOk result (NotesAt ((rule_view rule.now).at ∷ []) errors.old.items errors.new.items) }
{
    let Some(name) = rule.name else {
        return Ok(());
    };
    if rule_map.contains_key(&name) {
        return report_name(errors, rule.pos, Wrong::RuleTwice, tyenv.text_of(name));
    }
    rule_map.insert(name, rule.id)?;
    Ok(())
}

// Notes each term that nothing makes or takes apart. Upstream's `TermEnv::check_for_undefined_decls`.
pub fn check_defined(
    tyenv: &TypeEnv,
    terms: &[Term],
    errors: &mut Vec<Error>,
) -> Result<(), AllocError>
    ensures checks { OnOk result (Checks errors.old.items errors.new.items (AreDefined (term_views terms.now))) }
    ensures places { OnOk result (NotesAt (terms_at (term_views terms.now)) errors.old.items errors.new.items) }
    ensures first { OnOk result (MayBegin (IsLeftUndefined (term_views terms.now)) errors.old.items errors.new.items) }
{
    for term in terms {
        check_term(tyenv, term, errors)?;
    }
    Ok(())
}

#[tactic(auto, using(core_syntax::proofs::Positioned::notes_nothing))]
fn check_term(tyenv: &TypeEnv, term: &Term, errors: &mut Vec<Error>) -> Result<(), AllocError>
    ensures checks { OnOk result (Checks errors.old.items errors.new.items (IsTrue (is_defined_term (term_view term.now)))) }
    ensures places { OnOk result (NotesAt ((term_view term.now).at ∷ []) errors.old.items errors.new.items) }
{
    if term.has_constructor() || term.has_extractor() {
        return Ok(());
    }
    let name = tyenv.text_of(term.name);
    report_name(errors, term.decl_pos, Wrong::Undefined, name)
}
