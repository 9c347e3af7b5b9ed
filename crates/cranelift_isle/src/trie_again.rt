//! Rule sets: what each rule asks of the sites that its term's rules make, and how they are built from typed rules.

ghost use Rattle.std.specs.BTreeMap.{IsOrdered, get};
ghost use Rattle.std.specs.Ordering.{nat_cmp};
ghost use Rattle.std.specs.Prelude.{◌≡◌, ◌≢◌, ◌++◌, ◌∷◌, [], ℕ, All, Bool, List, IfOk, OnOk};
ghost use Rattle.model.specs.claims.Environments.{IsElaborated, TypesRead, program_of};
ghost use Rattle.model.specs.lists.Elaborated.{TypedRules};
ghost use Rattle.model.specs.lists.Syntax.{Definition};
ghost use Rattle.model.specs.rules.Program.{Program};
ghost use Rattle.model.specs.rules.Typed.{TypedRule};
ghost use Rattle.model.specs.sites.Overlap.{build_reports};
ghost use Rattle.core_syntax.specs.Positions.{HasSingleSpans};
ghost use Rattle.laws_sites.specs.RuleByRule.{or_nothing_built};
ghost use Rattle.core_typed.specs.RuleViews.{rule_view};
ghost use Rattle.core_builder.specs.AddedRules.{HasTable, set_so_far};
ghost use Rattle.cranelift_isle.specs.SetsSoFar.{AreTables, MayGoOn, StandAfter, term_set_at, sets_so_far};
ghost use Rattle.cranelift_isle.specs.BuiltSets.{IsOfElaborated, ShowsElaborated, WereBuilt, term_set_views};

use core_builder::TermSet;
pub use core_rule_sets::trie_again::{
    Binding, BindingId, Constraint, OutOfRange, Overlap, Rule, RuleSet, TupleIndex,
};
use core_rules::TermEnv;
use core_syntax::syntax::Error;
use core_typed::UsedTerms;
use core_types::TermId;
pub use core_types::VariantTerms;
use laws_trees::built_sets_are_answered;
use laws_typing::elaborated_programs_are_well_typed;
use std::alloc::{AllocError, Global};
use std::collections::BTreeMap;

/// The rule set of each term with rules, ascending by term, and the errors of rules that are left out, in rule order over
/// all terms. `termenv` is the environment of a list of definitions that elaborates. A term's set is there also where all
/// its rules are left out, and its sites are those of all its rules. Upstream's `trie_again::build`.
///
/// A rule is left out where it passes a limit, which is one `LimitError`, or where no values can meet what it demands: that
/// is one `UnreachableError` for each two constraints that one site is asked to meet, or else one for what follows.
///
/// # Errors
///
/// Where memory is refused.
pub fn build(
    alloc: Global,
    termenv: &TermEnv,
) -> Result<(Vec<(TermId, RuleSet)>, Vec<Error>), AllocError>
    requires elaborated { IsOfElaborated termenv.now }
    ensures built { (e : TypesRead) (defs : List Definition) (expand : Bool) (rules : TypedRules) → IsElaborated e defs expand rules → ShowsElaborated e defs rules termenv.now
        → IfOk result (λ b. WereBuilt termenv.now (program_of e defs rules.rules) b.0.items b.1.items (build_reports (program_of e defs rules.rules))) }
    ensures single { IfOk result (λ b. All HasSingleSpans b.1.items) }
{
    // laws, without code: what building asks of elaborated rules, and what its sets are
    elaborated_programs_are_well_typed();
    built_sets_are_answered();
    let mut sets = BTreeMap::new(alloc);
    let mut errors = Vec::new(alloc);
    for rule in &termenv.rules {
        add_rule(alloc, &mut sets, rule, termenv, &mut errors)?;
    }
    let listed = list_sets(alloc, sets)?;
    Ok((listed, errors))
}

// The set so far of a term, which leaves the others.
fn take_set(alloc: Global, sets: &mut BTreeMap<usize, TermSet>, term: usize) -> TermSet
    ensures set { set_so_far result ≡ or_nothing_built (term_set_at sets.old term) }
    ensures table { AreTables sets.old → HasTable result }
    ensures others { (t : ℕ) → t ≢ term → get nat_cmp sets.new t ≡ get nat_cmp sets.old t }
{
    match sets.remove(&term) {
        Some(set) => set,
        None => TermSet::new(alloc),
    }
}

// The next rule of all: the set of its term goes on.
fn add_rule<E: UsedTerms>(
    alloc: Global,
    sets: &mut BTreeMap<usize, TermSet>,
    rule: &core_typed::Rule,
    termenv: &E,
    errors: &mut Vec<Error>,
) -> Result<(), AllocError>
    requires may { (p : Program) × (done : List TypedRule) × MayGoOn (E.term_entries termenv.now) (rule_view rule.now) p done sets.old errors.old.items }
    ensures goes { (p : Program) (done : List TypedRule) → MayGoOn (E.term_entries termenv.now) (rule_view rule.now) p done sets.old errors.old.items
        → OnOk result (StandAfter p (done ++ rule_view rule.now ∷ []) sets.new errors.new.items) }
    ensures single { OnOk result (All HasSingleSpans errors.old.items → All HasSingleSpans errors.new.items) }
{
    let term = rule.root_term.index();
    let mut set = take_set(alloc, sets, term);
    set.add_rule(rule, termenv, errors)?;
    sets.insert(term, set)?;
    Ok(())
}

// The sets, ascending by term.
fn list_sets(
    alloc: Global,
    sets: BTreeMap<usize, TermSet>,
) -> Result<Vec<(TermId, RuleSet)>, AllocError>
    ensures listed { IfOk result (λ v. term_set_views v.items ≡ sets_so_far sets.entries) }
    ensures ordered { IsOrdered nat_cmp sets }
{
    let mut listed = Vec::new(alloc);
    for (term, set) in sets {
        listed.push((TermId(term), set.into_rule_set()))?;
    }
    Ok(listed)
}
