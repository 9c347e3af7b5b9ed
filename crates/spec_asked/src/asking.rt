//! The questions about a rule of a set.
ghost use Rattle.std.specs.Prelude.{◌≡◌, ◌++◌, [], false, length, map, IfOk, OnOk};
ghost use Rattle.laws_specs.specs.Specs.{Unknowns};
ghost use Rattle.model.specs.sites.Sites.{SetRule, SiteSet};
ghost use Rattle.model_questions.specs.Questions as Q;
ghost use Rattle.core_rule_sets.specs.SiteViews.{set_rule_view, set_view};
ghost use Rattle.core_types.specs.TypeViews.{type_views};
ghost use Rattle.spec_cases.specs.Expressions.{AreSaid, Saying};
ghost use Rattle.spec_cases.specs.Namings.{Names, Naming};
ghost use Rattle.spec_cases.specs.Places.{AreApart};
ghost use Rattle.spec_cases.specs.Steps.{step_views};
ghost use Rattle.spec_cases.specs.Trails.{trail_of, trails_in, AreTrails};
ghost use Rattle.spec_steps.specs.Demands.{Meant, MakesFor};
ghost use Rattle.spec_steps.specs.Roots.{plan};
ghost use Rattle.spec_asked.specs.Above.{AreExcluding, AreOfSet, IsOfRule};
ghost use Rattle.spec_asked.specs.Asking.{facts_of, AreTablesBy, AsksRule};
ghost use Rattle.spec_asked.specs.Tables.{specs_of};

use crate::above::excluded_above;
use crate::demanded::{RuleDemands, rule_demands};
use crate::tables::{ProgramTables, SpecTables};
use core_rule_sets::trie_again::{Binding, Rule, RuleSet};
use core_types::{TermId, Type};
use spec_cases::arena::Formulas;
use spec_cases::asking::Asking;
use spec_cases::faults::Fault;
use spec_cases::formulas::Fact;
use spec_cases::learning::nothing_known;
use spec_cases::limits::AskingFault;
use spec_cases::steps::Step;
use spec_cases::tables::Tables;
use spec_cases::trails::{Trail, Trails, trails_stand};
use spec_steps::demands::Demands;
use spec_steps::steps::steps_of;
use std::alloc::Global;

/// A question: whether all of these can be so.
#[derive(Drop)]
pub struct Asked {
    /// Facts by their numbers in the arena, the oldest first.
    pub facts: Vec<Fact>,
}

/// What is asked of a condition.
#[derive(Drop)]
pub struct AskedCondition {
    /// Its steps.
    pub steps: Vec<Step>,
    /// All questions of these steps.
    pub questions: Vec<Asked>,
    /// That rules of greater priority don't match, where they are excluded.
    pub excluded: Vec<Fact>,
}

// The question that a link ends.
fn asked_at(trails: &Trails, end: Trail) -> Result<Asked, Fault>
    ensures { IfOk result (λ a. (v : _) (s : _) → AreTrails v s trails.now → facts_of v a ≡ trail_of s end) }
{
    let mut facts = trails.facts(end)?;
    facts.reverse();
    Ok(Asked { facts })
}

// Adds the questions that links end.
#[tactic(auto, using(crate::proofs::AskingSteps::asked_steps))]
fn add_asked(trails: &Trails, ends: &[Trail], out: &mut Vec<Asked>) -> Result<(), Fault>
    ensures { OnOk result ((v : _) (s : _) → AreTrails v s trails.now → map (facts_of v) out.new.items ≡ map (facts_of v) out.old.items ++ trails_in s ends.now) }
{
    match ends {
        [] => Ok(()),
        [first, rest @ ..] => {
            out.push(asked_at(trails, *first)?)?;
            Ok(add_asked(trails, rest, out)?)
        }
    }
}

fn asked_of(alloc: Global, trails: &Trails, ends: &[Trail]) -> Result<Vec<Asked>, Fault>
    ensures { IfOk result (λ qs. (v : _) (s : _) → AreTrails v s trails.now → map (facts_of v) qs.items ≡ trails_in s ends.now) }
{
    let mut out = Vec::new(alloc);
    add_asked(trails, ends, &mut out)?;
    Ok(out)
}

/// The questions of steps: all that there are.
///
/// # Errors
///
/// `questions_of`'s.
pub fn asked_steps(
    formulas: &mut Formulas,
    types: &[Type],
    specs: &SpecTables<'_>,
    steps: &[Step],
) -> Result<Vec<Asked>, AskingFault>
    ensures { IfOk result (λ qs. (v : Naming) (w : Saying) (unknowns : Unknowns) → Names v formulas.new → AreApart v → AreSaid w specs.now.exprs.now
        → Names v formulas.old × (map (facts_of v) qs.items ≡ Q.paths (type_views types.now) (specs_of specs.now w unknowns) (step_views v w steps.now) Q.nothing_known [])) }
{
    let known = nothing_known(formulas.alloc());
    let tables = Tables {
        types,
        sorts: specs.sorts,
        functions: specs.functions,
        known: &known,
    };
    let asking = Asking {
        tables: &tables,
        constants: specs.constants,
        exprs: specs.exprs,
    };
    let mut trails = Trails::new(formulas.alloc());
    let ends = formulas.questions(&asking, steps, &mut trails)?;
    trails_stand(&trails);
    Ok(asked_of(formulas.alloc(), &trails, &ends)?)
}

/// The steps of a condition, and its questions: all that there are, and with them these facts that exclude rules of greater priority. By the
/// flag, each place whose type is known is asked at each of its widths by itself, or none is.
///
/// # Errors
///
/// `questions_of`'s.
pub fn asked_demands(
    formulas: &mut Formulas,
    demands: &Demands<'_>,
    specs: &SpecTables<'_>,
    flag: bool,
    excluded: Vec<Fact>,
) -> Result<AskedCondition, AskingFault>
    ensures asked { IfOk result (λ r. (v : Naming) (m : Meant v demands.now) (unknowns : Unknowns) → Names v formulas.new → AreSaid m.w specs.now.exprs.now
        → m.specs ≡ specs_of specs.now m.w unknowns → Names v formulas.old × (map (facts_of v) r.questions.items ≡ Q.questions m.p m.specs m.c (plan flag))) }
    ensures same { IfOk result (λ r. r.excluded ≡ excluded) }
{
    let mut steps = Vec::new(formulas.alloc());
    steps_of(formulas, demands, flag, &mut steps)?;
    let questions = asked_steps(formulas, demands.types, specs, &steps)?;
    Ok(AskedCondition {
        steps,
        questions,
        excluded,
    })
}

// The tables of a condition.
fn demands_by<'d>(
    program: &ProgramTables<'d>,
    specs: &SpecTables<'d>,
    term: TermId,
    bindings: &'d [Binding],
    demands: &'d RuleDemands,
) -> Demands<'d>
    ensures { AreTablesBy result program.now specs.now term.0 bindings.now demands.now }
{
    Demands {
        types: program.types,
        signatures: program.signatures,
        sorts: specs.sorts,
        constants: specs.constants,
        said: specs.said,
        bindings,
        made: &demands.made,
        term,
        constraints: &demands.constraints,
        equalities: &demands.equalities,
        impure: &demands.impure,
        result: demands.result,
    }
}

// The facts that exclude rules of greater priority, if that is wanted.
fn excluded_if(
    formulas: &mut Formulas,
    demands: &Demands<'_>,
    set: &RuleSet,
    rule: &Rule,
    above: bool,
) -> Result<Vec<Fact>, Fault>
    ensures excluded { IfOk result (λ fs. MakesFor formulas.old formulas.new demands.now (λ v m. (t : _) (these : SiteSet) (r : SetRule)
        → IsOfRule v m.c t these r (set_rule_view rule.now) (length set.now.bindings.items) → AreOfSet set.now.rules.items these → AreExcluding m.p m.specs t these r v fs.items)) }
    ensures alone { IfOk result (λ fs. above ≡ false → fs.items ≡ []) }
{
    if above {
        Ok(excluded_above(formulas, demands, set.bindings.len(), rule, &set.rules)?)
    } else {
        Ok(Vec::new(formulas.alloc()))
    }
}

/// The steps of a rule of a term's set, and the questions about it: all that there are. By the flag, each place whose type is known is asked at each of its
/// widths by itself, or none is. Where `above` is true, the rules of greater priority are excluded, as far as sites of the set tell what they ask.
///
/// # Errors
///
/// `TooMany` where there would be more questions, or more branches, than are made. Else `Formula`: `Foreign` where the rule speaks of a
/// number that is no site's, or a site is made of later ones, or an expression isn't there; `TooGreat` where a number or a width is past
/// what formulas have; `Full` where no number is left, `Memory` where memory is refused.
pub fn questions_of(
    formulas: &mut Formulas,
    program: &ProgramTables<'_>,
    specs: &SpecTables<'_>,
    term: TermId,
    set: &RuleSet,
    rule: &Rule,
    flag: bool,
    above: bool,
) -> Result<AskedCondition, AskingFault>
    ensures asked { IfOk result (λ r. AsksRule formulas.new program.now specs.now term.0 (set_view set.now) (set_rule_view rule.now) flag r.questions.items r.excluded.items) }
    ensures alone { IfOk result (λ r. above ≡ false → r.excluded.items ≡ []) }
{
    let demanded = rule_demands(formulas.alloc(), &set.bindings, rule)?;
    let demands = demands_by(program, specs, term, &set.bindings, &demanded);
    let excluded = excluded_if(formulas, &demands, set, rule, above)?;
    Ok(asked_demands(formulas, &demands, specs, flag, excluded)?)
}
