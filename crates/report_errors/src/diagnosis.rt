//! What is wrong with definitions, as reports.

use crate::conflicts::{RuleConflicts, times_before};
use crate::error_order::{Order, place_of, why_of};
use crate::named_forms::{named_forms, only_place};
use crate::reports::report_of as report_of_type_error;
use crate::template_errors::{UseError, add_use, use_at, uses_behind};
use crate::undefined_terms::add_uses;
use crate::unknown::DefinedNames;
use crate::unmatched_templates::{Templates, report_of_template};
use core_why::Unreachable;
use cranelift_isle::environments::Environments;
use cranelift_isle::syntax::{Decl, Def, Error, Limit, Pos, Rule, Span};
use report_names::definitions::{constants_of, declaration_of, root_of, rule_around};
use report_names::meanings::meant_by;
use report_names::mentions::Mentions;
use report_names::names::rule_at;
use report_names::rule_notes::{
    ONE_OF_ALIKE, add_first, add_help, add_priority, add_rule, are_one, left_side_at,
    priority_above, push_rule,
};
use report_print::report::{Edit, Fix, Level, Place, Report, Word};
use report_witness::extractors::Extractors;
use report_witness::forms::{ValueForm, push_form};
use report_witness::witness::{Conflict, witness};
use std::alloc::{AllocError, Global};
use std::slice;

/// How many errors are reported, if few are wanted.
pub const MOST_ERRORS: usize = 20;

/// How many errors of a file are reported, if those of each file are wanted.
pub const MOST_OF_FILE: usize = 100;

// How many errors are explained. Of more, if all are wanted, only what is wrong is told, and where.
const MOST_EXPLAINED: usize = 500;

// How many rules' priorities a fix leaves out at most.
const MOST_EDITS: usize = 1000;

// How many of the rules that overlap one are shown, if not all are wanted; and of those that overlap one, or that it shadows, if the
// error isn't explained.
const MOST_RULES: usize = 5;

// How many of the rules that overlap one are shown with what both match.
const MOST_VALUES: usize = 3;

// The definitions that errors are of, and how much is said of an error.
#[derive(Clone, Copy)]
struct Source<'a, 'd> {
    alloc: Global,
    defs: &'a [Def],
    // The names that may be meant in place of those that errors say aren't known.
    defined: &'d DefinedNames<'a>,
    // What they became before their rules were compared, if types and rules can be read.
    environments: Option<&'a Environments>,
    // Whether uses of internal extractors are replaced by their templates.
    expand: bool,
    // How many of the rules that overlap one are shown.
    most_rules: usize,
    // Whether more is told than what is wrong, and where.
    is_explained: bool,
}

impl Source<'_, '_> {
    // Those of some rules that are told of, if so many are at most of an error that isn't explained.
    fn told<'s>(&self, rules: &'s [Span], most: usize) -> &'s [Span] {
        if self.is_explained {
            return rules;
        }
        rules.get(..most).unwrap_or(rules)
    }
}

/// How many errors are reported.
#[derive(Clone, Copy, PartialEq, Eq)]
pub enum Amount {
    /// Each of them, in order: the first 500 with all that is known of them.
    All,
    /// Causes before what follows from them, and only the first 20.
    Few,
    /// Causes before what follows from them, and of each file the first 100.
    OfEachFile,
}

/// The amount that a reader wants who wants all, or doesn't.
pub fn amount_wanted(wants_all: bool) -> Amount {
    if wants_all { Amount::All } else { Amount::Few }
}

/// The reports of errors.
pub struct Reports {
    /// A report for each error that is shown.
    pub reports: Vec<Report>,
    /// The file of each of the others, by its number.
    pub rest: Vec<usize>,
}

impl Drop for Reports {
    fn drop(self) {
        let Reports {
            reports: _,
            rest: _,
        } = self;
    }
}

/// The reports of the errors of lowering these definitions, which came with these environments. If all are wanted, each error has
/// one, in order. Else those have none that say no more than another one, causes come before what follows from them, and rules that
/// can't match only because of an internal extractor are told with the extractor, once; only the first ones are shown, and only the
/// first 5 rules that overlap a rule. Overlaps are reported with what both rules match.
pub fn reports_of(
    alloc: Global,
    defs: &[Def],
    environments: Option<&Environments>,
    expand: bool,
    errors: &[Error],
    amount: Amount,
) -> Result<Reports, AllocError> {
    let all = amount == Amount::All;
    let defined = DefinedNames::for_errors(alloc, defs, errors)?;
    let source = Source {
        alloc,
        defs,
        defined: &defined,
        environments,
        expand,
        most_rules: if all { usize::MAX } else { MOST_RULES },
        is_explained: true,
    };
    let uses = if expand {
        uses_behind(alloc, defs, errors)?
    } else {
        Vec::new(alloc)
    };
    let order = if all {
        Order::of_all(alloc, errors.len())?
    } else {
        Order::by_causes(alloc, defs, errors, &uses)?
    };
    let extractors = if expand {
        Extractors::of(alloc, defs)?
    } else {
        Extractors::none(alloc)
    };
    let before = times_before(alloc, errors)?;
    let templates = if all || !expand {
        Templates::none(alloc)
    } else {
        Templates::behind(alloc, defs, &extractors, errors, &before)?
    };
    let shown = templates.leading(alloc, &order.shown)?;
    let chosen = Chosen::among(alloc, errors, &shown, amount)?;
    let mut reports = Vec::new(alloc);
    let mut conflicts = RuleConflicts::new(alloc, defs, &extractors);
    for number in &chosen.numbers {
        match templates.told_with(*number) {
            Some(one) => reports.push(report_of_template(alloc, defs, &extractors, one)?)?,
            None => {
                let source = Source {
                    is_explained: reports.len() < MOST_EXPLAINED,
                    ..source
                };
                let conflict = conflict_told(&mut conflicts, errors, &before, *number)?;
                add_report(
                    source,
                    &mut reports,
                    errors,
                    &order,
                    &uses,
                    *number,
                    conflict,
                )?;
            }
        }
    }
    for report in &mut reports {
        report.shorten()?;
    }
    Ok(Reports {
        reports,
        rest: chosen.into_rest(),
    })
}

// Errors that are reported, by their numbers, and others.
struct Chosen {
    numbers: Vec<usize>,
    // The file of each of these errors.
    files: Vec<usize>,
    // The file of each of the others.
    rest: Vec<usize>,
}

impl Drop for Chosen {
    fn drop(self) {
        let Chosen {
            numbers: _,
            files: _,
            rest: _,
        } = self;
    }
}

impl Chosen {
    // Those of some errors that are reported, if this amount is.
    fn among(
        alloc: Global,
        errors: &[Error],
        numbers: &[usize],
        amount: Amount,
    ) -> Result<Chosen, AllocError> {
        let mut chosen = Chosen {
            numbers: Vec::new(alloc),
            files: Vec::new(alloc),
            rest: Vec::new(alloc),
        };
        for number in numbers {
            let file = errors
                .get(*number)
                .and_then(begin_of_error)
                .map_or(0, |pos| pos.file);
            if chosen.has_room(amount, file) {
                chosen.numbers.push(*number)?;
                chosen.files.push(file)?;
            } else {
                chosen.rest.push(file)?;
            }
        }
        Ok(chosen)
    }

    // Whether one more error of a file is reported.
    fn has_room(&self, amount: Amount, file: usize) -> bool {
        match amount {
            Amount::All => true,
            Amount::Few => self.numbers.len() < MOST_ERRORS,
            Amount::OfEachFile => {
                self.files.iter().filter(|other| **other == file).count() < MOST_OF_FILE
            }
        }
    }

    fn into_rest(self) -> Vec<usize> {
        let Chosen {
            numbers: _,
            files: _,
            rest,
        } = self;
        rest
    }
}

/// Where an error begins.
pub fn begin_of_error(error: &Error) -> Option<Pos> {
    match error {
        Error::TypeError { span, .. }
        | Error::UnreachableError { span, .. }
        | Error::LimitError { span, .. } => Some(span.from),
        Error::OverlapError { rules, .. } => Some(rules.first()?.from),
        Error::ShadowedError { shadowed, .. } => Some(shadowed.first()?.from),
    }
}

// The conflict that the error of a number tells, where it says that a rule can't match.
fn conflict_told<'a>(
    conflicts: &mut RuleConflicts<'_, 'a>,
    errors: &[Error],
    before: &[usize],
    number: usize,
) -> Result<Option<Conflict<'a>>, AllocError> {
    match (errors.get(number), before.get(number)) {
        (Some(Error::UnreachableError { span, .. }), Some(before)) => {
            conflicts.of_rule(span.from, *before)
        }
        _ => Ok(None),
    }
}

// Adds the report of the error of a number, which tells this conflict if there is one.
fn add_report(
    source: Source<'_, '_>,
    reports: &mut Vec<Report>,
    errors: &[Error],
    order: &Order,
    uses: &[Option<UseError<'_>>],
    number: usize,
    conflict: Option<Conflict<'_>>,
) -> Result<(), AllocError> {
    let Some(error) = errors.get(number) else {
        return Ok(());
    };
    let mut report = report_of(source, error, conflict)?;
    if source.is_explained {
        add_uses(
            source.alloc,
            &mut report,
            source.defs,
            errors,
            order,
            number,
        )?;
    }
    let mut rule = place_of(error).and_then(|pos| rule_around(source.defs, pos));
    if let Some(found) = use_at(uses, number) {
        add_use(
            source.alloc,
            &mut report,
            &found.of,
            order.told_with(number),
        )?;
        rule = Some(found.of.rule);
    }
    let is_of_multi = why_of(error).is_some_and(|why| why.is_of_multi());
    if let (Some(rule), true) = (rule, source.is_explained && is_of_multi) {
        add_multi(source, &mut report, rule)?;
    }
    reports.push(report)?;
    Ok(())
}

// Adds what to do where a rule uses a multi term and its own isn't multi. Rules of multi terms have no priorities.
fn add_multi(source: Source<'_, '_>, report: &mut Report, rule: &Rule) -> Result<(), AllocError> {
    let Some(decl) = declaration_of(source.defs, root_of(rule)) else {
        return Ok(());
    };
    let name = decl.term.0.as_str();
    if decl.partial {
        let text = format!(in source.alloc; "declare `{name}` multi in place of partial")?;
        return report.add_note("help", text);
    }
    let edits = multi_edits(source, decl)?;
    let rest = if edits.len() > 1 {
        ", and leave out the priorities of its rules"
    } else {
        ""
    };
    let text = format!(in source.alloc; "add `multi` to the declaration of `{name}`{rest}")?;
    report.add_note("help", text)?;
    if edits.len() <= MOST_EDITS {
        let title = format!(in source.alloc; "Declare `{name}` multi")?;
        report.fixes.push(Fix { title, edits })?;
    }
    Ok(())
}

// The edits that make a term multi: its declaration gets the word, and its rules lose their priorities.
fn multi_edits(source: Source<'_, '_>, decl: &Decl) -> Result<Vec<Edit>, AllocError> {
    let mut edits = Vec::new(source.alloc);
    edits.push(Edit {
        place: Place::Before(decl.term.1),
        text: String::from_str(source.alloc, "multi ")?,
    })?;
    for def in source.defs {
        if let Some(place) = place_of_priority(def, &decl.term.0) {
            let text = String::new(source.alloc);
            edits.push(Edit { place, text })?;
        }
    }
    Ok(edits)
}

// Where the priority of a rule of a term stands, if it has one.
fn place_of_priority(def: &Def, term: &str) -> Option<Place> {
    match def {
        Def::Rule(rule) if rule.prio.is_some() && root_of(rule) == term => {
            Some(Place::Between(rule.pos, rule.pattern.pos(), Word::Priority))
        }
        _ => None,
    }
}

// The report of an error, which tells this conflict if there is one.
fn report_of(
    source: Source<'_, '_>,
    error: &Error,
    conflict: Option<Conflict<'_>>,
) -> Result<Report, AllocError> {
    match error {
        Error::TypeError { msg, span } => {
            report_of_type_error(
                source.alloc,
                source.defs,
                source.defined,
                msg,
                span.from,
                source.is_explained,
            )
        }
        Error::UnreachableError { msg, span } => of_unreachable(source, *msg, *span, conflict),
        Error::LimitError { limit, msg, span } => of_rule(
            source,
            ("limit", msg),
            *span,
            way_below(*limit),
        ),
        Error::OverlapError { rules, .. } => overlap(source, rules),
        Error::ShadowedError { shadowed, mask } => shadow(source, shadowed, *mask),
    }
}

// The report of a rule that can't match.
fn of_unreachable(
    source: Source<'_, '_>,
    why: Unreachable,
    span: Span,
    conflict: Option<Conflict<'_>>,
) -> Result<Report, AllocError> {
    match conflict {
        Some(conflict) => of_conflict(source, span, conflict),
        None => of_asked(source, why, span),
    }
}

// The report of a rule that can't match, by what the library says.
fn of_asked(source: Source<'_, '_>, why: Unreachable, span: Span) -> Result<Report, AllocError> {
    let alloc = source.alloc;
    let Some((first, second)) = named_forms(alloc, source.environments, why)? else {
        let message = format!(in alloc; "{why}")?;
        return of_rule(source, ("unreachable", message.as_str()), span, WAY_OUT);
    };
    let mut message = String::new(alloc);
    push_rule(&mut message, source.defs, span.from)?;
    write!(
        message,
        " can never match: no value is both `{first}` and `{second}`"
    )?;
    let mut report = begun(alloc, "unreachable", &message)?;
    let names = Mentions::around(alloc, source.defs, span.from)?;
    match (only_place(&names, &first), only_place(&names, &second)) {
        (Some(left), Some(right)) => {
            report.add_label(left, format!(in alloc; "must be `{first}`")?)?;
            report.add_label(right, format!(in alloc; "must be `{second}`")?)?;
        }
        _ => add_rule(alloc, &mut report, source.defs, span.from, "", "")?,
    }
    add_help(alloc, &mut report, WAY_OUT)?;
    Ok(report)
}

// What to do about a rule that can't match.
const WAY_OUT: &str =
    "no value meets all conditions of the rule: change one of them, or remove the rule";

// The report of a rule that demands two forms of one value, with the places of both.
fn of_conflict(
    source: Source<'_, '_>,
    span: Span,
    conflict: Conflict<'_>,
) -> Result<Report, AllocError> {
    let alloc = source.alloc;
    let mut message = String::new(alloc);
    push_rule(&mut message, source.defs, span.from)?;
    message.push_str(" can never match: no value is both ")?;
    push_quoted(&mut message, conflict.first.0)?;
    message.push_str(" and ")?;
    push_quoted(&mut message, conflict.second.0)?;
    let mut report = begun(alloc, "unreachable", &message)?;
    add_form(alloc, &mut report, "must be ", conflict.first)?;
    add_form(alloc, &mut report, "must be ", conflict.second)?;
    add_help(alloc, &mut report, WAY_OUT)?;
    Ok(report)
}

/// Adds the place where a form is demanded.
pub(crate) fn add_form(
    alloc: Global,
    report: &mut Report,
    before: &str,
    (form, pos): (ValueForm<'_>, Pos),
) -> Result<(), AllocError> {
    let mut text = String::from_str(alloc, before)?;
    push_quoted(&mut text, form)?;
    report.add_label(pos, text)
}

fn push_quoted(out: &mut String, form: ValueForm<'_>) -> Result<(), AllocError> {
    out.push('`')?;
    push_form(out, form)?;
    out.push('`')
}

// A report with these words and places to come.
fn begun(alloc: Global, kind: &'static str, message: &str) -> Result<Report, AllocError> {
    let message = String::from_str(alloc, message)?;
    Ok(Report::new(alloc, Level::Error, kind, message))
}

fn of_rule(
    source: Source<'_, '_>,
    (kind, message): (&'static str, &str),
    span: Span,
    help: &str,
) -> Result<Report, AllocError> {
    let alloc = source.alloc;
    let mut report = begun(alloc, kind, message)?;
    add_rule(alloc, &mut report, source.defs, span.from, "", "")?;
    add_help(alloc, &mut report, help)?;
    Ok(report)
}

// What keeps a rule below a limit.
fn way_below(limit: Limit) -> &'static str {
    match limit {
        Limit::Fields =>
            "split the type: a variant or struct that patterns match may have at most 255 fields",
        Limit::Outputs => "split the extractor, or let it return a struct",
        Limit::Arguments => "split the term, or pass some of its arguments in a struct",
        Limit::Sites =>
            "split the term or the rule: the limit is on the sites of all rules of a term together",
        Limit::Nesting => {
            "nest fewer internal extractors; if the extractor of a converter needs this converter again, expansion never ends"
        }
        Limit::Expansions => "use fewer internal extractors, or make some of them external",
    }
}

// A report of rules of one priority of which the first overlaps each of the others.
fn overlap(source: Source<'_, '_>, rules: &[Span]) -> Result<Report, AllocError> {
    let alloc = source.alloc;
    let mut report = begun(
        alloc,
        "overlap",
        "rules of the same priority match the same values",
    )?;
    add_suspect(source, &mut report, rules)?;
    let told = source.told(rules, MOST_RULES + 1);
    let shown = source.most_rules.saturating_add(1);
    let alike = add_overlapping(source, &mut report, told, shown)?;
    add_values(source, &mut report, told)?;
    add_rest(alloc, &mut report, told.len().saturating_sub(shown))?;
    let untold = rules.len().saturating_sub(told.len());
    add_untold(alloc, &mut report, "overlaps", untold)?;
    add_way_out(source, &mut report, told, alike)?;
    if !source.expand {
        add_help(alloc, &mut report, NO_TEMPLATES)?;
    }
    Ok(report)
}

// Adds the first variable of these rules' patterns that looks like something else: it matches any value, so more than is meant.
fn add_suspect(
    source: Source<'_, '_>,
    report: &mut Report,
    rules: &[Span],
) -> Result<(), AllocError> {
    if !source.is_explained {
        return Ok(());
    }
    for rule in rules {
        if add_suspect_of(source, report, rule.from)? {
            return Ok(());
        }
    }
    Ok(())
}

// Adds the first such variable of a rule: whether there is one.
fn add_suspect_of(
    source: Source<'_, '_>,
    report: &mut Report,
    rule: Pos,
) -> Result<bool, AllocError> {
    let names = Mentions::around(source.alloc, source.defs, rule)?;
    let constants = constants_of(source.alloc, source.defs)?;
    for mention in names.names.iter().filter(|mention| mention.in_pattern) {
        if let Some(meant) = meant_by(source.alloc, source.defs, &constants, mention)? {
            let name = mention.text();
            write!(
                report.message,
                ": `{name}` is a variable, and matches any value"
            )?;
            let text = format!(in source.alloc; "`{name}` is bound here")?;
            report.add_label(mention.name.1, text)?;
            meant.add_to(report, mention)?;
            return Ok(true);
        }
    }
    Ok(false)
}

// Adds the places of so many rules of which the first overlaps each of the others. How many of the others have its left side.
fn add_overlapping(
    source: Source<'_, '_>,
    report: &mut Report,
    rules: &[Span],
    shown: usize,
) -> Result<usize, AllocError> {
    let first = match rules.first() {
        Some(span) => left_side_at(source.alloc, source.defs, span.from)?,
        None => String::new(source.alloc),
    };
    let mut alike = 0usize;
    for (i, span) in rules.iter().take(shown).enumerate() {
        let own = left_side_at(source.alloc, source.defs, span.from)?;
        let is_alike = i > 0 && are_one(&first, &own);
        if is_alike {
            alike = alike.saturating_add(1);
        }
        let (before, after) = words_of_overlap(i, is_alike);
        add_rule(source.alloc, report, source.defs, span.from, before, after)?;
    }
    Ok(alike)
}

// What stands before and behind the name of a rule of this number, where rules overlap.
fn words_of_overlap(number: usize, is_alike: bool) -> (&'static str, &'static str) {
    if number == 0 {
        ("", "")
    } else if is_alike {
        ("", " has the same pattern")
    } else {
        ("overlaps ", "")
    }
}

// Adds what to do about rules of which the first overlaps each of the others, so many of which are alike.
fn add_way_out(
    source: Source<'_, '_>,
    report: &mut Report,
    rules: &[Span],
    alike: usize,
) -> Result<(), AllocError> {
    if alike > 0 {
        add_help(source.alloc, report, ONE_OF_ALIKE)?;
    }
    let Some(first) = rules.first() else {
        return Ok(());
    };
    if alike.saturating_add(1) < rules.len() {
        let above = priority_above(source.defs, first.from);
        let help = format!(in source.alloc;
            "give one of the rules a greater priority, as (rule {above} ..), or make one pattern narrower"
        )?;
        report.add_note("help", help)?;
        for rule in rules.iter().take(2) {
            add_priority(source.alloc, report, source.defs, rule.from, above)?;
        }
    }
    Ok(())
}

// Why more rules overlap if internal extractors aren't expanded.
const NO_TEMPLATES: &str = "--no-expand hides what internal extractors demand: check without it";

// Adds how many of the rules that overlap one aren't shown.
fn add_rest(alloc: Global, report: &mut Report, count: usize) -> Result<(), AllocError> {
    if count == 0 {
        return Ok(());
    }
    let text = format!(in alloc; "it overlaps {count} more")?;
    report.add_counted("help", text)
}

// Adds how many of the rules that a rule overlaps or shadows aren't told of, since the error isn't explained.
fn add_untold(
    alloc: Global,
    report: &mut Report,
    does: &'static str,
    count: usize,
) -> Result<(), AllocError> {
    if count == 0 {
        return Ok(());
    }
    let text = format!(in alloc; "it {does} {count} more")?;
    report.add_note("note", text)
}

// A report of rules that another one shadows.
fn shadow(source: Source<'_, '_>, shadowed: &[Span], mask: Span) -> Result<Report, AllocError> {
    let alloc = source.alloc;
    let mut report = begun(alloc, "shadow", "a rule is never taken")?;
    add_suspect(source, &mut report, slice::from_ref(&mask))?;
    let told = source.told(shadowed, MOST_RULES);
    let alike = add_shadowed(source, &mut report, told, mask)?;
    add_rule(
        alloc,
        &mut report,
        source.defs,
        mask.from,
        "",
        " matches these values too, and comes first",
    )?;
    let untold = shadowed.len().saturating_sub(told.len());
    add_untold(alloc, &mut report, "shadows", untold)?;
    if alike > 0 {
        add_help(alloc, &mut report, ONE_OF_ALIKE)?;
    }
    if alike < told.len() {
        add_help(alloc, &mut report, FIRST_TAKEN)?;
        add_first(alloc, &mut report, source.defs, mask.from)?;
    }
    Ok(report)
}

// Adds the places of rules that another one shadows. How many of them have its left side.
fn add_shadowed(
    source: Source<'_, '_>,
    report: &mut Report,
    shadowed: &[Span],
    mask: Span,
) -> Result<usize, AllocError> {
    let first = left_side_at(source.alloc, source.defs, mask.from)?;
    let mut alike = 0usize;
    for span in shadowed {
        let own = left_side_at(source.alloc, source.defs, span.from)?;
        let after = if are_one(&first, &own) {
            alike = alike.saturating_add(1);
            " has the same pattern, and is never taken"
        } else {
            " is never taken"
        };
        add_rule(source.alloc, report, source.defs, span.from, "", after)?;
    }
    Ok(alike)
}

// What to do about a rule that another one is taken before.
const FIRST_TAKEN: &str = "give the rule that is never taken a greater priority, or remove it";

// Adds what the first of some rules and each of the others match.
fn add_values(
    source: Source<'_, '_>,
    report: &mut Report,
    rules: &[Span],
) -> Result<(), AllocError> {
    let (Some(first), true) = (rules.first(), source.is_explained) else {
        return Ok(());
    };
    for span in rules.iter().skip(1).take(MOST_VALUES) {
        add_value(source, report, first.from, span.from)?;
    }
    Ok(())
}

// Adds what two rules match.
fn add_value(
    source: Source<'_, '_>,
    report: &mut Report,
    left: Pos,
    right: Pos,
) -> Result<(), AllocError> {
    let alloc = source.alloc;
    let (Some(left), Some(right)) = (rule_at(source.defs, left), rule_at(source.defs, right)) else {
        return Ok(());
    };
    let found = witness(alloc, source.defs, left, right)?;
    let text = value_text(alloc, found)?;
    report.add_note("note", text)
}

// What is said of a value that two rules match, or that none was found.
fn value_text(alloc: Global, found: Option<String>) -> Result<String, AllocError> {
    match found {
        Some(value) => format!(in alloc; "both match `{value}`"),
        None => String::from_str(
            alloc,
            "no value that both match was found: the check for overlaps doesn't compare values that must be equal",
        ),
    }
}
