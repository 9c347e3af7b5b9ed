//! How external constructors and extractors are read: functions from outside that make values of declared
//! terms or take them apart.

ghost use Rattle.std.specs.Prelude.{◌≡◌, [], ◌∷◌, ◌++◌, Contains, is_none, not, IfOk, OnOk};
ghost use Rattle.model.specs.claims.Environments.{TypesRead, AreReadable, IsLeftByRefusal};
ghost use Rattle.model.specs.lists.Tables.{external_constructor, external_extractor};
ghost use Rattle.core_syntax.specs.Positions.{NotesAt, definition_positions, extern_positions, positions_of};
ghost use Rattle.core_syntax.specs.SyntaxViews.{definition_view, definition_views, extern_view, name_view, position};
ghost use Rattle.core_types.specs.Envs.{IsInterned};
ghost use Rattle.core_types.specs.EnvViews.{environment_view};
ghost use Rattle.core_syntax.specs.NotedErrors.{NotesMore};
ghost use Rattle.core_types.specs.VariantReading.{ReportsIf};
ghost use Rattle.core_terms.specs.Externing.{lacks_constructor, lacks_extractor, made_by_this, taken_by_this, ReadsKind};
ghost use Rattle.core_terms.specs.ExternStages.{ExternsRead, ReadsExtern, ReadsIfExtern};
ghost use Rattle.core_terms.specs.Reading.{IsWithin, MayIntern};
ghost use Rattle.core_terms.specs.Signing.{ReadsTerms};
ghost use Rattle.core_terms.specs.TermBreaches.{of_externs, FirstStandsAt};
ghost use Rattle.core_terms.specs.TermViews.{term_view};
ghost use Rattle.core_terms.specs.TermPositions.{entry_positions, table_positions, taker_places, IsPlacedAmong};

use crate::reading::meet_name;
use crate::term::{ConstructorKind, ExtractorKind, Term, TermKind};
use crate::term_table::TermTable;
use core_syntax::syntax::{Def, Error, Extern, Ident, Pos};
use core_types::{Sym, TypeEnv, report_name};
use core_why::Wrong;
use std::alloc::AllocError;

impl TermTable {
    // Reads all external constructors and extractors.
    pub(crate) fn read_externs(
        &mut self,
        tyenv: &mut TypeEnv,
        errors: &mut Vec<Error>,
        defs: &[Def],
    ) -> Result<(), AllocError>
        ghost read: { TypesRead }
        requires readable { AreReadable read }
        requires start { ReadsTerms read of_externs (definition_views defs.now)
            (ExternsRead read (definition_views defs.now) []) tyenv.old self.old errors.old.items }
        ensures left { IsLeftByRefusal read (environment_view tyenv.new) }
        ensures reads { OnOk result (ReadsTerms read of_externs (definition_views defs.now)
            (ExternsRead read (definition_views defs.now) (definition_views defs.now)) tyenv.new self.new errors.new.items) }
        ensures places { OnOk result (NotesAt (positions_of (definition_views defs.now) ++ table_positions self.old) errors.old.items errors.new.items) }
        ensures placed { OnOk result (IsPlacedAmong (positions_of (definition_views defs.now) ++ table_positions self.old) self.new) }
    {
        for def in defs {
            self.read_if_extern(tyenv, errors, def)?;
        }
        Ok(())
    }

    // Reads a definition, if it is an external constructor or extractor.
    #[tactic(auto, using(core_syntax::proofs::Positioned::notes_nothing))]
    fn read_if_extern(
        &mut self,
        tyenv: &mut TypeEnv,
        errors: &mut Vec<Error>,
        def: &Def,
    ) -> Result<(), AllocError>
        requires inverse { IsInterned tyenv.old }
        requires within { IsWithin self.old }
        ensures interns { MayIntern tyenv.old tyenv.new }
        ensures within { OnOk result (IsWithin self.new) }
        ensures reads { OnOk result (ReadsIfExtern (definition_view def.now) tyenv.old self.old errors.old.items tyenv.new self.new errors.new.items) }
        ensures places { OnOk result (NotesAt (definition_positions (definition_view def.now) ++ table_positions self.old) errors.old.items errors.new.items) }
        ensures begins { OnOk result (FirstStandsAt (definition_positions (definition_view def.now)) errors.old.items errors.new.items) }
        ensures placed { OnOk result (IsPlacedAmong (definition_positions (definition_view def.now) ++ table_positions self.old) self.new) }
    {
        let Def::Extern(extern_def) = def else {
            return Ok(());
        };
        self.read_extern(tyenv, errors, extern_def)
    }

    // Reads an external constructor or extractor. Constants are read with the types.
    #[tactic(auto, using(core_syntax::proofs::Positioned::notes_nothing))]
    fn read_extern(
        &mut self,
        tyenv: &mut TypeEnv,
        errors: &mut Vec<Error>,
        extern_def: &Extern,
    ) -> Result<(), AllocError>
        requires inverse { IsInterned tyenv.old }
        requires within { IsWithin self.old }
        ensures interns { MayIntern tyenv.old tyenv.new }
        ensures within { OnOk result (IsWithin self.new) }
        ensures reads { OnOk result (ReadsExtern (extern_view extern_def.now) tyenv.old self.old errors.old.items tyenv.new self.new errors.new.items) }
        ensures places { OnOk result (NotesAt (extern_positions (extern_view extern_def.now) ++ table_positions self.old) errors.old.items errors.new.items) }
        ensures begins { OnOk result (FirstStandsAt (extern_positions (extern_view extern_def.now)) errors.old.items errors.new.items) }
        ensures placed { OnOk result (IsPlacedAmong (extern_positions (extern_view extern_def.now) ++ table_positions self.old) self.new) }
    {
        match extern_def {
            Extern::Constructor { term, func, pos } => {
                let name = meet_name(tyenv, func)?;
                self.read_constructor(tyenv, errors, term, name, *pos)
            }
            Extern::Extractor {
                term,
                func,
                pos,
                infallible,
            } => {
                let name = meet_name(tyenv, func)?;
                self.read_extractor(tyenv, errors, term, name, *infallible, *pos)
            }
            Extern::Const { .. } => Ok(()),
        }
    }

    #[tactic(auto, using(core_syntax::proofs::Positioned::notes_nothing))]
    fn read_constructor(
        &mut self,
        tyenv: &TypeEnv,
        errors: &mut Vec<Error>,
        term: &Ident,
        name: Sym,
        pos: Pos,
    ) -> Result<(), AllocError>
        requires { IsWithin self.old }
        ensures within { OnOk result (IsWithin self.new) }
        ensures reads { OnOk result (ReadsKind lacks_constructor (made_by_this (external_constructor name.0))
            (name_view term.now) tyenv.now self.old errors.old.items self.new errors.new.items) }
        ensures places { OnOk result (NotesAt (position pos ∷ []) errors.old.items errors.new.items) }
        ensures placed { OnOk result (IsPlacedAmong (table_positions self.old) self.new) }
    {
        let Some(id) = self.find_term(tyenv, term) else {
            return report_name(errors, pos, Wrong::UndeclaredConstructor, &term.0);
        };
        if !may_have_constructor(errors, &self.terms[id.index()], term, pos)? {
            return Ok(());
        }
        self.terms[id.index()].set_constructor(ConstructorKind::ExternalConstructor { name });
        Ok(())
    }

    #[tactic(auto, using(core_syntax::proofs::Positioned::notes_nothing))]
    fn read_extractor(
        &mut self,
        tyenv: &TypeEnv,
        errors: &mut Vec<Error>,
        term: &Ident,
        name: Sym,
        infallible: bool,
        pos: Pos,
    ) -> Result<(), AllocError>
        requires { IsWithin self.old }
        ensures within { OnOk result (IsWithin self.new) }
        ensures reads { OnOk result (ReadsKind lacks_extractor (taken_by_this (external_extractor name.0 infallible (position pos)))
            (name_view term.now) tyenv.now self.old errors.old.items self.new errors.new.items) }
        ensures places { OnOk result (NotesAt (position pos ∷ table_positions self.old) errors.old.items errors.new.items) }
        ensures begins { OnOk result (FirstStandsAt (position pos ∷ []) errors.old.items errors.new.items) }
        ensures placed { OnOk result (IsPlacedAmong (position pos ∷ table_positions self.old) self.new) }
    {
        let Some(id) = self.find_term(tyenv, term) else {
            return report_name(errors, pos, Wrong::UndeclaredExtractor, &term.0);
        };
        if !may_have_external(errors, &self.terms[id.index()], term, pos)? {
            return Ok(());
        }
        let kind = ExtractorKind::ExternalExtractor {
            name,
            infallible,
            pos,
        };
        self.terms[id.index()].set_extractor(kind);
        Ok(())
    }
}

// Whether a term can have an external constructor, which stands at this place: what is against it is noted.
#[tactic(auto, using(core_syntax::proofs::Positioned::notes_nothing))]
fn may_have_constructor(
    errors: &mut Vec<Error>,
    entry: &Term,
    term: &Ident,
    pos: Pos,
) -> Result<bool, AllocError>
    ensures free { IfOk result (λ b. b ≡ lacks_constructor (term_view entry.now).kind) }
    ensures noted { IfOk result (λ b. ReportsIf (not b) errors.old.items errors.new.items) }
    ensures places { OnOk result (NotesAt (position pos ∷ []) errors.old.items errors.new.items) }
{
    let Some(wrong) = why_no_constructor(entry) else {
        return Ok(true);
    };
    report_name(errors, pos, wrong, &term.0)?;
    Ok(false)
}

// What is against an external constructor of a term.
fn why_no_constructor(entry: &Term) -> Option<Wrong>
    ensures { is_none result ≡ lacks_constructor (term_view entry.now).kind }
{
    match &entry.kind {
        TermKind::Decl {
            constructor_kind: None,
            ..
        } => None,
        TermKind::Decl {
            constructor_kind: Some(ConstructorKind::InternalConstructor),
            ..
        } => Some(Wrong::ConstructorOfRules),
        TermKind::Decl {
            constructor_kind: Some(ConstructorKind::ExternalConstructor { .. }),
            ..
        } => Some(Wrong::ConstructorTwice),
        TermKind::EnumVariant { .. } => Some(Wrong::ConstructorOfVariant),
        TermKind::Struct => Some(Wrong::ConstructorOfStruct),
    }
}

// Whether a term can have an external extractor, which stands at this place: what is against it is noted.
fn may_have_external(
    errors: &mut Vec<Error>,
    entry: &Term,
    term: &Ident,
    pos: Pos,
) -> Result<bool, AllocError>
    ensures free { IfOk result (λ b. b ≡ lacks_extractor (term_view entry.now).kind) }
    ensures noted { IfOk result (λ b. ReportsIf (not b) errors.old.items errors.new.items) }
    ensures places { OnOk result (NotesAt (position pos ∷ entry_positions (term_view entry.now)) errors.old.items errors.new.items) }
    ensures begins { OnOk result (FirstStandsAt (position pos ∷ []) errors.old.items errors.new.items) }
{
    let name = term.0.as_str();
    match &entry.kind {
        TermKind::Decl {
            extractor_kind: None,
            ..
        } => return Ok(true),
        TermKind::Decl {
            extractor_kind: Some(earlier),
            ..
        } => report_second(errors, pos, name, earlier, second_after(earlier))?,
        TermKind::EnumVariant { .. } => report_name(errors, pos, Wrong::ExtractorOfVariant, name)?,
        TermKind::Struct => report_name(errors, pos, Wrong::ExtractorOfStruct, name)?,
    }
    Ok(false)
}

// What isn't right with a second extractor, an external one, and what is said of the first.
fn second_after(earlier: &ExtractorKind) -> (Wrong, Wrong) {
    match earlier {
        ExtractorKind::ExternalExtractor { .. } => (Wrong::ExtractorTwice, Wrong::FirstExtractor),
        ExtractorKind::InternalExtractor { .. } => {
            (Wrong::ExtractorOfTemplate, Wrong::FirstTemplateOfExtractor)
        }
    }
}

// Notes a second extractor of a term, and then the first: what isn't right with each is given.
pub(crate) fn report_second(
    errors: &mut Vec<Error>,
    pos: Pos,
    term: &str,
    earlier: &ExtractorKind,
    wrong: (Wrong, Wrong),
) -> Result<(), AllocError>
    ensures noted { OnOk result (NotesMore errors.old.items errors.new.items) }
    ensures places { OnOk result (NotesAt (position pos ∷ taker_places earlier.now) errors.old.items errors.new.items) }
    ensures begins { OnOk result (FirstStandsAt (position pos ∷ []) errors.old.items errors.new.items) }
{
    report_name(errors, pos, wrong.0, term)?;
    report_name(errors, place_of(earlier), wrong.1, term)
}

// Where an extractor is defined: an internal one at its template.
pub(crate) fn place_of(extractor: &ExtractorKind) -> Pos
    ensures there { Contains (taker_places extractor.now) (position result) }
{
    match extractor {
        ExtractorKind::InternalExtractor { template } => template.pos(),
        ExtractorKind::ExternalExtractor { pos, .. } => *pos,
    }
}
