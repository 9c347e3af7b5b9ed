//! How a rule is typed.

ghost use Rattle.std.specs.Prelude.{◌≡◌, ◌&&◌, [], ◌∷◌, true, not, pos, IfOk, OnOk, option_map, is_some, unwrap_or};
ghost use Rattle.core_syntax.specs.SyntaxViews as S;
ghost use Rattle.model.specs.lists.Elaborated.{root_parts, rule_of_sides, with_own_name, own_number};
ghost use Rattle.model.specs.lists.Setting.{declared_flags};
ghost use Rattle.core_terms.specs.TermViews.{flags_view, term_view};
ghost use Rattle.core_types.specs.Envs.{names_of, IsInterned};
ghost use Rattle.core_typed.specs.Elaborating.{Checks, place_unless, NotesEachAt};
ghost use Rattle.core_rules.specs.RuleReadings.{sides_view, scope_of};
ghost use Rattle.core_rules.specs.RuleTaking.{rule_steps};
ghost use Rattle.core_rules.specs.Taking.{Takes};
ghost use Rattle.core_typed.specs.RuleViews.{rule_view};
ghost use Rattle.core_rules.specs.ShownSettings.{standing, Keeps};
ghost use Rattle.core_syntax.specs.Positions.{NotesAt, rule_positions};
ghost use Rattle.core_rules.specs.RulePositions.{with_templates, StaysPlaced, StandsIf};

use crate::term_env::TermEnv;
use crate::typing::progress::{Progress, Stop};
use crate::typing::sides::RuleSides;
use core_syntax::syntax;
use core_syntax::syntax::{Error, Ident, Pos};
use core_terms::{Term, TermFlags, TermKind};
use core_typed::{BoundVar, Rule};
use core_types::{RuleId, Sym, TypeEnv, report, report_name};
use core_why::{Why, Wrong};
use std::alloc::AllocError;

impl TermEnv {
    /// A rule with this id, on which nothing was done yet, where so many expansions may nest. What is wrong is noted, and the
    /// work goes on as upstream's does; a term without a constructor is noted after all rules. Upstream's part of
    /// `TermEnv::collect_rules` for one rule.
    ///
    /// # Errors
    ///
    /// Where memory is refused, and where the rule passes a limit on expansions.
    pub(crate) fn translate_rule(
        &self,
        tyenv: &mut TypeEnv,
        work: &mut Progress,
        rule: &syntax::Rule,
        id: RuleId,
        nesting: usize,
    ) -> Result<Option<Rule>, Stop>
        requires { IsInterned tyenv.old }
        ensures keeps { Keeps tyenv.old tyenv.new }
        ensures places { StaysPlaced (with_templates self.now (rule_positions (S.rule_view rule.now))) work.old.errors.items work.new.errors.items result }
        ensures reads { Takes self.now (standing tyenv.old work.old) (standing tyenv.new work.new)
            (rule_steps (S.rule_view rule.now) id.0 nesting) (option_map rule_view) result }
        ensures stands { IfOk result (StandsIf (S.position rule.now.pos)) }
    {
        let Some(sym) = rule.pattern.root_term() else {
            report(&mut work.errors, rule.pos, Why::NoRoot)?;
            return Ok(None);
        };
        let Some(term) = self.find_term(tyenv, sym) else {
            report_name(&mut work.errors, rule.pos, Wrong::UndeclaredRoot, &sym.0)?;
            return Ok(None);
        };
        let Some(flags) = flags_of(term) else {
            report_name(&mut work.errors, rule.pos, Wrong::RootOfVariant, &sym.0)?;
            return Ok(None);
        };
        let args = args_of(rule);
        let made = self.translate_sides(tyenv, work, rule, sym, args, term, flags, nesting)?;
        let Some(sides) = made else {
            return Ok(None);
        };
        check_priority(&mut work.errors, rule.pos, sym, rule.prio, flags)?;
        let whole = finish_rule(tyenv, &work.seen, rule, id, term, sides)?;
        Ok(Some(whole))
    }
}

fn args_of(rule: &syntax::Rule) -> &[syntax::Pattern]
    ensures { root_parts (S.rule_view rule.now).pattern ≡ S.pattern_views result.now }
{
    match &rule.pattern {
        syntax::Pattern::Term { args, .. } => args,
        _ => &[],
    }
}

// The priority of a rule: 0 where none is given.
fn prio_of(rule: &syntax::Rule) -> i64
    ensures { result ≡ unwrap_or (S.rule_view rule.now).prio (pos 0) }
{
    rule.prio.unwrap_or(0)
}

// The flags of a term, where it is declared.
fn flags_of(term: &Term) -> Option<TermFlags>
    ensures { option_map flags_view result ≡ declared_flags (term_view term.now).kind }
{
    match &term.kind {
        TermKind::Decl { flags, .. } => Some(*flags),
        _ => None,
    }
}

// Whether a rule has a priority only where its term isn't multi; else this is noted.
#[tactic(auto, using(core_syntax::proofs::Positioned::notes_nothing))]
fn check_priority(
    errors: &mut Vec<Error>,
    pos: Pos,
    sym: &Ident,
    prio: Option<i64>,
    flags: TermFlags,
) -> Result<(), AllocError>
    ensures checks { OnOk result (Checks errors.old.items errors.new.items (not (flags.multi && is_some prio) ≡ true)) }
    ensures places { OnOk result (NotesAt (S.position pos ∷ []) errors.old.items errors.new.items) }
    ensures exact { OnOk result (NotesEachAt (place_unless (not (flags.multi && is_some prio)) (S.position pos)) errors.old.items errors.new.items) }
{
    if !(flags.multi && prio.is_some()) {
        return Ok(());
    }
    report_name(errors, pos, Wrong::PriorityInMulti, &sym.0)
}

// The rule of these sides and these variables. Its own name is met last.
fn finish_rule(
    tyenv: &mut TypeEnv,
    vars: &Vec<BoundVar>,
    rule: &syntax::Rule,
    id: RuleId,
    term: &Term,
    sides: RuleSides,
) -> Result<Rule, AllocError>
    requires { IsInterned tyenv.old }
    ensures keeps { Keeps tyenv.old tyenv.new }
    ensures names { OnOk result (names_of tyenv.new ≡ (with_own_name (S.rule_view rule.now).name (scope_of (names_of tyenv.old) vars.now.items)).names) }
    ensures view { IfOk result (λ q. rule_view q ≡ rule_of_sides id.0 (S.rule_view rule.now) (term_view term.now) (sides_view sides) (scope_of
        (names_of tyenv.old) vars.now.items)) }
{
    let name = meet_name(tyenv, rule)?;
    let vars = vars.clone()?;
    let RuleSides { args, iflets, rhs } = sides;
    Ok(Rule {
        id,
        root_term: term.id,
        args,
        iflets,
        rhs,
        vars,
        prio: prio_of(rule),
        pos: rule.pos,
        name,
    })
}

// The id of a rule's own name, where it has one.
fn meet_name(tyenv: &mut TypeEnv, rule: &syntax::Rule) -> Result<Option<Sym>, AllocError>
    requires { IsInterned tyenv.old }
    ensures keeps { Keeps tyenv.old tyenv.new }
    ensures names { OnOk result (names_of tyenv.new ≡ (with_own_name (S.rule_view rule.now).name (scope_of (names_of tyenv.old) [])).names) }
    ensures number { IfOk result (λ s. option_map (λ n. n.0) s ≡ own_number (scope_of (names_of tyenv.old) []) (S.rule_view rule.now).name) }
{
    let Some(name) = &rule.name else {
        return Ok(None);
    };
    let sym = tyenv.intern_mut(name)?;
    Ok(Some(sym))
}
