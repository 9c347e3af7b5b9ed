//! How internal extractors are read: the pattern of each becomes the template of its term.

ghost use Rattle.std.specs.Prelude.{◌≡◌, ◌++◌, ◌<◌, ◌≤◌, [], ◌∷◌, None, true, not, All, Contains, IfOk, OnOk, MatchOption, length, map};
ghost use Rattle.model.specs.claims.Environments.{TypesRead, AreReadable};
ghost use Rattle.model.specs.lists.TermTable.{arguments_in, extractor_template, terms_in};
ghost use Rattle.core_syntax.specs.Positions.{NotesAt, definition_positions, extractor_positions, pattern_positions, positions_of};
ghost use Rattle.core_syntax.specs.SyntaxViews.{definition_view, definition_views, extractor_view, name_view, pattern_view, position};
ghost use Rattle.core_syntax.specs.NotedErrors.{NotesMore};
ghost use Rattle.core_types.specs.VariantReading.{ReportsIf};
ghost use Rattle.core_terms.specs.Reading.{IsWithin, term_of_name};
ghost use Rattle.core_terms.specs.Signing.{NotesIfWrong, ReadsTerms};
ghost use Rattle.core_terms.specs.Recursion.{ExtractorsRead};
ghost use Rattle.core_terms.specs.ReadTerms.{RootsRead};
ghost use Rattle.core_terms.specs.TermBreaches.{of_definitions, FirstStandsAt};
ghost use Rattle.core_terms.specs.TermViews.{term_view};
ghost use Rattle.core_terms.specs.Templating.{AddsFound, AreArguments, AreCallees, AreFound, CantTakeTemplate, HaveUnknown, IsTemplate, IsWrongTemplate, NameNothing, ReadsIfTemplate, ReadsExtractor, SetsCallees, TakesTemplate, TemplatesRead, may_have_template};
ghost use Rattle.core_terms.specs.TermPositions.{argument_places, entry_positions, table_positions, IsPlacedAmong};

use crate::reading::externs::report_second;
use crate::term::{ExtractorKind, Term, TermFlags, TermKind};
use crate::term_table::TermTable;
use core_syntax::syntax::{Def, Error, Extractor, Ident, Pattern, Pos};
use core_types::{TermId, TypeEnv, report, report_name};
use core_why::{Why, Wrong};
use std::alloc::{AllocError, Global};

impl TermTable {
    // Reads all internal extractors, and looks for recursion among them. One on a term that isn't there ends
    // this at once, and recursion isn't looked for then.
    pub(crate) fn collect_extractor_templates(
        &mut self,
        tyenv: &TypeEnv,
        errors: &mut Vec<Error>,
        defs: &[Def],
    ) -> Result<(), AllocError>
        ghost read: { TypesRead }
        requires readable { AreReadable read }
        requires start { ReadsTerms read of_definitions (definition_views defs.now)
            (RootsRead read (definition_views defs.now) (definition_views defs.now)) tyenv.now self.old errors.old.items }
        ensures reads { OnOk result (ReadsTerms read of_definitions (definition_views defs.now)
            (ExtractorsRead read (definition_views defs.now)) tyenv.now self.new errors.new.items) }
        ensures places { OnOk result (NotesAt (positions_of (definition_views defs.now) ++ table_positions self.old) errors.old.items errors.new.items) }
        ensures placed { OnOk result (IsPlacedAmong (positions_of (definition_views defs.now) ++ table_positions self.old) self.new) }
    {
        let mut callees = no_callees(*errors.allocator(), self.terms.len())?;
        if !self.read_templates(tyenv, errors, &mut callees, defs)? {
            return Ok(());
        }
        self.check_recursion(tyenv, errors, &callees)
    }

    // Reads all internal extractors, and which terms each names. One on a term that isn't there ends the
    // reading of extractors at once: the answer is false then.
    fn read_templates(
        &mut self,
        tyenv: &TypeEnv,
        errors: &mut Vec<Error>,
        callees: &mut Vec<Vec<TermId>>,
        defs: &[Def],
    ) -> Result<bool, AllocError>
        ghost read: { TypesRead }
        requires readable { AreReadable read }
        requires callees { AreCallees self.old callees.old.items }
        requires start { ReadsTerms read of_definitions (definition_views defs.now)
            (TemplatesRead read (definition_views defs.now) [] callees.old.items) tyenv.now self.old errors.old.items }
        ensures callees { OnOk result (AreCallees self.new callees.new.items) }
        ensures reads { IfOk result (λ b. ReadsTerms read of_definitions (definition_views defs.now)
            (λ env table. (b ≡ true)
            × TemplatesRead read (definition_views defs.now) (definition_views defs.now) callees.new.items env table) tyenv.now self.new errors.new.items) }
        ensures places { OnOk result (NotesAt (positions_of (definition_views defs.now) ++ table_positions self.old) errors.old.items errors.new.items) }
        ensures placed { OnOk result (IsPlacedAmong (positions_of (definition_views defs.now) ++ table_positions self.old) self.new) }
    {
        for def in defs {
            if !self.read_if_template(tyenv, errors, callees, def)? {
                return Ok(false);
            }
        }
        Ok(true)
    }

    // Reads a definition, if it is an internal extractor.
    #[tactic(auto, using(core_syntax::proofs::Positioned::notes_nothing))]
    fn read_if_template(
        &mut self,
        tyenv: &TypeEnv,
        errors: &mut Vec<Error>,
        callees: &mut Vec<Vec<TermId>>,
        def: &Def,
    ) -> Result<bool, AllocError>
        requires within { IsWithin self.old }
        requires callees { AreCallees self.old callees.old.items }
        ensures within { OnOk result (IsWithin self.new) }
        ensures callees { OnOk result (AreCallees self.new callees.new.items) }
        ensures reads { IfOk result (λ b. ReadsIfTemplate
            (definition_view def.now) tyenv.now self.old callees.old.items errors.old.items self.new callees.new.items errors.new.items b) }
        ensures places { OnOk result (NotesAt (definition_positions (definition_view def.now) ++ table_positions self.old) errors.old.items errors.new.items) }
        ensures begins { OnOk result (FirstStandsAt (definition_positions (definition_view def.now)) errors.old.items errors.new.items) }
        ensures placed { OnOk result (IsPlacedAmong (definition_positions (definition_view def.now) ++ table_positions self.old) self.new) }
    {
        let Def::Extractor(extractor) = def else {
            return Ok(true);
        };
        self.read_template(tyenv, errors, callees, extractor)
    }

    // Reads an internal extractor.
    #[tactic(auto, using(core_syntax::proofs::Positioned::notes_nothing))]
    fn read_template(
        &mut self,
        tyenv: &TypeEnv,
        errors: &mut Vec<Error>,
        callees: &mut Vec<Vec<TermId>>,
        extractor: &Extractor,
    ) -> Result<bool, AllocError>
        requires within { IsWithin self.old }
        requires callees { AreCallees self.old callees.old.items }
        ensures within { OnOk result (IsWithin self.new) }
        ensures callees { OnOk result (AreCallees self.new callees.new.items) }
        ensures reads { IfOk result (λ b. ReadsExtractor
            (extractor_view extractor.now) tyenv.now self.old callees.old.items errors.old.items self.new callees.new.items errors.new.items b) }
        ensures places { OnOk result (NotesAt
            (extractor_positions (extractor_view extractor.now) ++ table_positions self.old) errors.old.items errors.new.items) }
        ensures begins { OnOk result (FirstStandsAt (extractor_positions (extractor_view extractor.now)) errors.old.items errors.new.items) }
        ensures placed { OnOk result (IsPlacedAmong (extractor_positions (extractor_view extractor.now) ++ table_positions self.old) self.new) }
    {
        let Some(id) = self.find_term(tyenv, &extractor.term) else {
            let name = &extractor.term.0;
            report_name(errors, extractor.pos, Wrong::UndeclaredTemplate, name)?;
            return Ok(false);
        };
        self.read_template_of(tyenv, errors, callees, id, extractor)?;
        Ok(true)
    }

    // Reads an internal extractor of a term. A macro argument stands only in templates: an extractor that is
    // defined with one is passed over.
    fn read_template_of(
        &mut self,
        tyenv: &TypeEnv,
        errors: &mut Vec<Error>,
        callees: &mut Vec<Vec<TermId>>,
        id: TermId,
        extractor: &Extractor,
    ) -> Result<(), AllocError>
        requires within { IsWithin self.old }
        requires callees { AreCallees self.old callees.old.items }
        requires there { id.0 < length self.old.terms.items }
        ensures within { OnOk result (IsWithin self.new) }
        ensures callees { OnOk result (AreCallees self.new callees.new.items) }
        ensures notes { OnOk result (NotesIfWrong errors.old.items errors.new.items
            (IsTemplate (extractor_view extractor.now) id.0 tyenv.now self.old self.new callees.old.items callees.new.items)
            (IsWrongTemplate (extractor_view extractor.now) id.0 tyenv.now self.old)) }
        ensures places { OnOk result (NotesAt
            (extractor_positions (extractor_view extractor.now) ++ table_positions self.old) errors.old.items errors.new.items) }
        ensures begins { OnOk result (FirstStandsAt (extractor_positions (extractor_view extractor.now)) errors.old.items errors.new.items) }
        ensures placed { OnOk result (IsPlacedAmong (extractor_positions (extractor_view extractor.now) ++ table_positions self.old) self.new) }
    {
        let arguments = arguments_of(*errors.allocator(), &extractor.template)?;
        if let Some((pos, index)) = arguments.first() {
            return report(errors, *pos, Why::MacroArgument(*index));
        }
        let named = self.terms_named(tyenv, errors, extractor)?;
        set_callees(callees, id, named);
        self.take_template(errors, id, extractor)
    }

    // The terms that the pattern of an extractor names. Each name that is no term's is noted.
    fn terms_named(
        &self,
        tyenv: &TypeEnv,
        errors: &mut Vec<Error>,
        extractor: &Extractor,
    ) -> Result<Vec<TermId>, AllocError>
        requires { IsWithin self.now }
        ensures within { IfOk result (λ v. All (λ t. t.0 < length self.now.terms.items) v.items) }
        ensures notes { IfOk result (λ v. NotesIfWrong errors.old.items errors.new.items
            (AreFound tyenv.now self.now (terms_in (pattern_view extractor.now.template)) (map (λ t. t.0) v.items))
            (HaveUnknown tyenv.now self.now (terms_in (pattern_view extractor.now.template)))) }
        ensures places { OnOk result (NotesAt (pattern_positions (pattern_view extractor.now.template)) errors.old.items errors.new.items) }
    {
        let mut named = Vec::new(*errors.allocator());
        extractor.template.terms(&mut named)?;
        self.find_terms(tyenv, errors, &extractor.term, &named)
    }

    // The terms of these names, which stand in the pattern of a term's extractor. Each that is no term's is
    // noted.
    #[tactic(auto, using(core_syntax::proofs::Positioned::notes_nothing))]
    fn find_terms(
        &self,
        tyenv: &TypeEnv,
        errors: &mut Vec<Error>,
        term: &Ident,
        named: &[(Pos, &Ident)],
    ) -> Result<Vec<TermId>, AllocError>
        requires { IsWithin self.now }
        ensures within { IfOk result (λ v. All (λ t. t.0 < length self.now.terms.items) v.items) }
        ensures notes { IfOk result (λ v. NotesIfWrong errors.old.items errors.new.items
            (AreFound tyenv.now self.now (map (λ n. name_view n.1.now) named.now) (map (λ t. t.0) v.items))
            (HaveUnknown tyenv.now self.now (map (λ n. name_view n.1.now) named.now))) }
        ensures places { OnOk result (NotesAt (map (λ n. position n.0) named.now) errors.old.items errors.new.items) }
    {
        let mut found = Vec::new(*errors.allocator());
        for name in named {
            self.find_named(tyenv, errors, &mut found, term, name.0, name.1)?;
        }
        Ok(found)
    }

    // Adds the term of a name, which stands in the pattern of a term's extractor. One that is no term's is
    // noted.
    #[tactic(auto, using(core_syntax::proofs::Positioned::notes_nothing))]
    fn find_named(
        &self,
        tyenv: &TypeEnv,
        errors: &mut Vec<Error>,
        found: &mut Vec<TermId>,
        term: &Ident,
        pos: Pos,
        name: &Ident,
    ) -> Result<(), AllocError>
        requires within { IsWithin self.now }
        requires found { All (λ t. t.0 < length self.now.terms.items) found.old.items }
        ensures within { OnOk result (All (λ t. t.0 < length self.now.terms.items) found.new.items) }
        ensures notes { OnOk result (NotesIfWrong errors.old.items errors.new.items
            (AddsFound (term_of_name tyenv.now self.now (name_view name.now)) found.old.items found.new.items)
            (term_of_name tyenv.now self.now (name_view name.now) ≡ None)) }
        ensures places { OnOk result (NotesAt (position pos ∷ []) errors.old.items errors.new.items) }
    {
        let Some(id) = self.find_term(tyenv, name) else {
            return report_unknown(errors, pos, term, name);
        };
        found.push(id)?;
        Ok(())
    }

    // Makes the pattern of an extractor the template of its term, if the term can have it. A template that
    // uses an argument too many is that of its term for what follows.
    fn take_template(
        &mut self,
        errors: &mut Vec<Error>,
        id: TermId,
        extractor: &Extractor,
    ) -> Result<(), AllocError>
        requires within { IsWithin self.old }
        requires there { id.0 < length self.old.terms.items }
        ensures within { OnOk result (IsWithin self.new) }
        ensures count { length self.new.terms.items ≡ length self.old.terms.items }
        ensures notes { OnOk result (NotesIfWrong errors.old.items errors.new.items
            (TakesTemplate (extractor_view extractor.now) id.0 self.old self.new)
            (CantTakeTemplate (extractor_view extractor.now) id.0 self.old)) }
        ensures places { OnOk result (NotesAt (position extractor.now.pos ∷ table_positions self.old) errors.old.items errors.new.items) }
        ensures begins { OnOk result (FirstStandsAt (position extractor.now.pos ∷ []) errors.old.items errors.new.items) }
        ensures placed { OnOk result (IsPlacedAmong (extractor_positions (extractor_view extractor.now) ++ table_positions self.old) self.new) }
    {
        if !can_have_template(
            errors,
            &self.terms[id.index()],
            &extractor.term,
            extractor.pos,
        )? {
            return Ok(());
        }
        let template = template_of(*errors.allocator(), extractor)?;
        let count = self.terms[id.index()].arg_tys.len();
        check_arguments(errors, extractor.pos, &extractor.term, &template, count)?;
        let kind = ExtractorKind::InternalExtractor { template };
        self.terms[id.index()].set_extractor(kind);
        Ok(())
    }
}

// Of so many terms none names any.
#[tactic(auto, using(crate::proofs::Callees::nothing_first, crate::proofs::Callees::nothing_more))]
fn no_callees(alloc: Global, count: usize) -> Result<Vec<Vec<TermId>>, AllocError>
    ensures { IfOk result (λ cs. NameNothing count cs.items) }
{
    let mut callees = Vec::with_capacity(alloc, count)?;
    for _id in 0..count {
        callees.push(Vec::new(alloc))?;
    }
    Ok(callees)
}

// The template of a term names these terms: recursion is looked for along the greatest one first.
fn set_callees(callees: &mut Vec<Vec<TermId>>, term: TermId, mut named: Vec<TermId>)
    requires { term.0 < length callees.old.items }
    ensures { SetsCallees term.0 (map (λ t. t.0) named.items) callees.old.items callees.new.items }
{
    named.sort_unstable();
    named.reverse();
    callees[term.index()] = named;
}

fn template_of(alloc: Global, extractor: &Extractor) -> Result<Pattern, AllocError>
    ensures { IfOk result (λ t. pattern_view t ≡ extractor_template (extractor_view extractor.now)) }
{
    extractor
        .template
        .make_macro_template(alloc, &extractor.args)
}

// Notes a name in the pattern of a term's extractor that is no term's.
fn report_unknown(
    errors: &mut Vec<Error>,
    pos: Pos,
    term: &Ident,
    name: &Ident,
) -> Result<(), AllocError>
    ensures noted { OnOk result (NotesMore errors.old.items errors.new.items) }
    ensures places { OnOk result (NotesAt (position pos ∷ []) errors.old.items errors.new.items) }
{
    let term = term.0.clone()?;
    let unknown = name.0.clone()?;
    report(errors, pos, Why::TemplateTerm { term, unknown })
}

// Whether a term can have an internal extractor, which stands at this place: what is against it is noted.
fn can_have_template(
    errors: &mut Vec<Error>,
    entry: &Term,
    term: &Ident,
    pos: Pos,
) -> Result<bool, AllocError>
    ensures free { IfOk result (λ b. b ≡ may_have_template (term_view entry.now).kind) }
    ensures noted { IfOk result (λ b. ReportsIf (not b) errors.old.items errors.new.items) }
    ensures places { OnOk result (NotesAt (position pos ∷ entry_positions (term_view entry.now)) errors.old.items errors.new.items) }
    ensures begins { OnOk result (FirstStandsAt (position pos ∷ []) errors.old.items errors.new.items) }
{
    let name = term.0.as_str();
    match &entry.kind {
        TermKind::Decl {
            flags: TermFlags { multi: false, .. },
            extractor_kind: None,
            ..
        } => return Ok(true),
        TermKind::Decl {
            extractor_kind: None,
            ..
        } => report_name(errors, pos, Wrong::TemplateOfMulti, name)?,
        TermKind::Decl {
            extractor_kind: Some(earlier),
            ..
        } => report_second(errors, pos, name, earlier, AGAIN)?,
        TermKind::EnumVariant { .. } => report_name(errors, pos, Wrong::TemplateOfVariant, name)?,
        TermKind::Struct => report_name(errors, pos, Wrong::TemplateOfStruct, name)?,
    }
    Ok(false)
}

// What isn't right with an internal extractor of a term that has an extractor, and what is said of that one.
const AGAIN: (Wrong, Wrong) = (Wrong::TemplateTwice, Wrong::FirstTemplate);

// Notes the greatest argument that a template uses, where it is past the arguments that the term is
// declared with.
#[tactic(auto, using(crate::proofs::TemplateNames::greatest_below, crate::proofs::TemplateNames::greatest_past, crate::proofs::TemplateNames::none_used, core_syntax::proofs::Positioned::notes_nothing))]
fn check_arguments(
    errors: &mut Vec<Error>,
    pos: Pos,
    term: &Ident,
    template: &Pattern,
    count: usize,
) -> Result<(), AllocError>
    ensures notes { OnOk result (NotesIfWrong errors.old.items errors.new.items
        (AreArguments count (arguments_in (pattern_view template.now)))
        (AreArguments count (arguments_in (pattern_view template.now)) → ⊥)) }
    ensures places { OnOk result (NotesAt (position pos ∷ []) errors.old.items errors.new.items) }
{
    let alloc = *errors.allocator();
    let arguments = arguments_of(alloc, template)?;
    let Some((_, greatest)) = greatest_argument(&arguments) else {
        return Ok(());
    };
    let greatest = *greatest;
    if greatest < count {
        return Ok(());
    }
    let term = term.0.clone()?;
    report(
        errors,
        pos,
        Why::TemplateArgument {
            term,
            greatest,
            count,
        },
    )
}

fn greatest_argument(arguments: &[(Pos, usize)]) -> Option<&(Pos, usize)>
    ensures { MatchOption result (arguments.now ≡ [])
        (λ g. Contains arguments.now g.now × All (λ a. a.1 ≤ g.now.1) arguments.now) }
{
    arguments.iter().max_by_key(|argument| argument.1)
}

// The places and the numbers of the macro arguments of a pattern, left to right.
fn arguments_of(alloc: Global, pattern: &Pattern) -> Result<Vec<(Pos, usize)>, AllocError>
    ensures numbers { IfOk result (λ v. map (λ a. a.1) v.items ≡ arguments_in (pattern_view pattern.now)) }
    ensures places { IfOk result (λ v. map (λ a. position a.0) v.items ≡ argument_places (pattern_view pattern.now)) }
{
    let mut arguments = Vec::new(alloc);
    add_arguments(pattern, &mut arguments)?;
    Ok(arguments)
}

// Adds the places and the numbers of the macro arguments of a pattern, left to right.
#[tactic(auto, using(core_syntax::proofs::PatternViews::pattern_steps))]
fn add_arguments(pattern: &Pattern, out: &mut Vec<(Pos, usize)>) -> Result<(), AllocError>
    ensures numbers { OnOk result (map (λ a. a.1) out.new.items ≡ map (λ a. a.1) out.old.items ++ arguments_in (pattern_view pattern.now)) }
    ensures places { OnOk result (map (λ a. position a.0) out.new.items ≡ map (λ a. position a.0) out.old.items ++ argument_places (pattern_view pattern.now)) }
{
    match pattern {
        Pattern::MacroArg { index, pos } => {
            out.push((*pos, *index))?;
            Ok(())
        }
        Pattern::BindPattern { subpat, .. } => add_arguments(subpat, out),
        Pattern::Term { args, .. } => {
            for arg in args {
                add_arguments(arg, out)?;
            }
            Ok(())
        }
        Pattern::And { subpats, .. } => {
            for subpat in subpats {
                add_arguments(subpat, out)?;
            }
            Ok(())
        }
        _ => Ok(()),
    }
}
