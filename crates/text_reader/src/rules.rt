//! Rules: a name, a priority, a pattern, further conditions, and an expression.
#![tactic(auto, using(crate::proofs::Rows::rule_parts))]

ghost use Rattle.std.specs.Prelude.{All, MatchResult, Ok, map, option_map};
ghost use Rattle.core_syntax.specs.SyntaxViews.{definition_view, iflet_view, name_view, pattern_view, position};
ghost use Rattle.text_reader.specs.Faults.{FaultIsWithin};
ghost use Rattle.text_reader.specs.Forms.{FormIsWithin, FormsAreWithin, PosIsWithin};
ghost use Rattle.text_reader.specs.Lists.{PartsAreWithin};
ghost use Rattle.text_reader.specs.Within.{DefinitionIsWithin, IfLetIsWithin, NameIsWithinIfAny, PatternIsWithin};
ghost use Rattle.text_reader.specs.FormViews.{all_view, form_view, parts_view};
ghost use Rattle.text_reader.specs.RuleGrammar.{condition_of, if_let_of, parted_of, priority_of, rule_name_of, rule_of, statement_of, statements_of};
ghost use Rattle.text_reader.specs.Views.{Gives};

use crate::errors::{Mistake, ReadFault, fault};
use crate::expressions::expression;
use crate::forms::TextForm;
use crate::parts::{Parts, headed, next, next_name, no_more};
use crate::patterns::pattern;
use crate::source::Source;
use core_syntax::syntax::{Def, Ident, IfLet, Pattern, Pos, Rule};

/// The rule with these parts after its head. A word that comes first is its name, and a number that comes next its priority.
pub fn rule(at: Source, parts: Parts<'_>) -> Result<Def, ReadFault>
    requires { PartsAreWithin at.file at.len parts }
    ensures read { Gives definition_view result (rule_of (parts_view parts.entry)) }
    ensures within { MatchResult result (λ d. DefinitionIsWithin at.file at.len (definition_view d)) (FaultIsWithin at.file at.len) }
{
    let (name, rest) = rule_name(at, parts)?;
    let (prio, rest) = priority(at, rest)?;
    let (root, rest) = next(at, rest, Mistake::Pattern)?;
    let (statements, value) = parted(at, rest.forms, parts.end)?;
    let pattern = pattern(at, root)?;
    let iflets = iflets(at, statements)?;
    let expr = expression(at, value)?;
    Ok(Def::Rule(Rule {
        pattern,
        iflets,
        expr,
        pos: parts.pos,
        prio,
        name,
    }))
}

// A rule's name, and the list after it.
fn rule_name<'a>(at: Source, parts: Parts<'a>) -> Result<(Option<Ident>, Parts<'a>), ReadFault>
    requires { PartsAreWithin at.file at.len parts }
    ensures read { Gives (λ p. (option_map name_view p.0, parts_view p.1)) result (Ok (rule_name_of (parts_view parts.entry))) }
    ensures within { MatchResult result
        (λ p. NameIsWithinIfAny at.file at.len (option_map name_view p.0) × PartsAreWithin at.file at.len p.1)
        (FaultIsWithin at.file at.len) }
{
    match parts.forms {
        [TextForm::Word(_), ..] => {
            let (name, rest) = next_name(at, parts)?;
            Ok((Some(name), rest))
        }
        _ => Ok((None, parts)),
    }
}

// A rule's priority, and the list after it.
fn priority<'a>(at: Source, parts: Parts<'a>) -> Result<(Option<i64>, Parts<'a>), ReadFault>
    requires { PartsAreWithin at.file at.len parts }
    ensures read { Gives (λ p. (p.0, parts_view p.1)) result (priority_of (parts_view parts.entry)) }
    ensures within { MatchResult result (λ p. PartsAreWithin at.file at.len p.1) (FaultIsWithin at.file at.len) }
{
    let [TextForm::Number(n, pos), rest @ ..] = parts.forms else {
        return Ok((None, parts));
    };
    match i64::try_from(*n) {
        Ok(prio) => Ok((
            Some(prio),
            Parts {
                forms: rest,
                ..parts
            },
        )),
        Err(_) => Err(fault(Mistake::PriorityRange, *pos)),
    }
}

// The last of some forms, and those before it. The list that they are in ends there.
fn parted<'a>(
    at: Source,
    forms: &'a [TextForm],
    end: Pos,
) -> Result<(&'a [TextForm], &'a TextForm), ReadFault>
    requires forms { FormsAreWithin at.file at.len forms.now }
    requires end { PosIsWithin at.file at.len end }
    ensures read { Gives (λ p. (all_view p.0.now, form_view p.1.now)) result (parted_of (position end) (all_view forms.now)) }
    ensures within { MatchResult result
        (λ p. FormsAreWithin at.file at.len p.0.now × FormIsWithin at.file at.len p.1.now)
        (FaultIsWithin at.file at.len) }
{
    let _ = at.len;
    match forms {
        [before @ .., last] => Ok((before, last)),
        [] => Err(fault(Mistake::Expression, end)),
    }
}

fn iflets(at: Source, forms: &[TextForm]) -> Result<Vec<IfLet>, ReadFault>
    requires { FormsAreWithin at.file at.len forms.now }
    ensures read { Gives (λ ls. map iflet_view ls.items) result (statements_of (all_view forms.now)) }
    ensures within { MatchResult result (λ ls. All (λ l. IfLetIsWithin at.file at.len (iflet_view l)) ls.items) (FaultIsWithin at.file at.len) }
{
    let mut iflets = Vec::new(at.alloc);
    for form in forms {
        iflets.push(statement(at, form)?)?;
    }
    Ok(iflets)
}

fn statement(at: Source, form: &TextForm) -> Result<IfLet, ReadFault>
    requires { FormIsWithin at.file at.len form.now }
    ensures read { Gives iflet_view result (statement_of (form_view form.now)) }
    ensures within { MatchResult result (λ l. IfLetIsWithin at.file at.len (iflet_view l)) (FaultIsWithin at.file at.len) }
{
    let (head, rest) = headed(at, form, Mistake::Statement)?;
    match head.0.as_str() {
        "if-let" => if_let(at, rest),
        "if" => condition(at, rest, Pattern::Wildcard { pos: rest.pos }),
        _ => Err(fault(Mistake::Statement, rest.pos)),
    }
}

// `PATTERN EXPR`, after `if-let`.
fn if_let(at: Source, parts: Parts<'_>) -> Result<IfLet, ReadFault>
    requires { PartsAreWithin at.file at.len parts }
    ensures read { Gives iflet_view result (if_let_of (parts_view parts.entry)) }
    ensures within { MatchResult result (λ l. IfLetIsWithin at.file at.len (iflet_view l)) (FaultIsWithin at.file at.len) }
{
    let (form, rest) = next(at, parts, Mistake::Pattern)?;
    condition(at, rest, pattern(at, form)?)
}

// `EXPR`, whose value a pattern matches.
fn condition(at: Source, parts: Parts<'_>, pattern: Pattern) -> Result<IfLet, ReadFault>
    requires parts { PartsAreWithin at.file at.len parts }
    requires pattern { PatternIsWithin at.file at.len (pattern_view pattern) }
    ensures read { Gives iflet_view result (condition_of (pattern_view pattern) (parts_view parts.entry)) }
    ensures within { MatchResult result (λ l. IfLetIsWithin at.file at.len (iflet_view l)) (FaultIsWithin at.file at.len) }
{
    let (form, rest) = next(at, parts, Mistake::Expression)?;
    let expr = expression(at, form)?;
    no_more(at, rest)?;
    Ok(IfLet {
        pattern,
        expr,
        pos: parts.pos,
    })
}
