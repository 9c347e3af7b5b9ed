//! How the term table is read off a list of definitions, group by group. What is wrong with a definition is noted, and the
//! reading goes on.

ghost use Rattle.std.specs.Prelude.{◌≡◌, ◌⊎◌, ◌++◌, ◌∷◌, [], ℕ, None, Some, All, nat_eq, if◌then◌else◌, length, map, IfOk, OnOk, MatchOption, option_map};
ghost use Rattle.core_syntax.specs.Positions.{NotesAt, declaration_positions, name_positions};
ghost use Rattle.core_syntax.specs.SyntaxViews.{decl_view, name_view};
ghost use Rattle.core_types.specs.Envs.{names_of, IsInterned};
ghost use Rattle.model.specs.lists.Names.{number};
ghost use Rattle.core_syntax.specs.NotedErrors.{NotesMore};
ghost use Rattle.core_terms.specs.TermBreaches.{FirstStandsAt};
ghost use Rattle.core_terms.specs.TermTables.{term_at};
ghost use Rattle.core_terms.specs.TermViews.{term_view, term_views};
ghost use Rattle.core_terms.specs.Reading.{IsWithin, Interns, MayIntern, IsKnownInEnv, HaveTypes, IsFreeOrReported, AddsOrReports, internal_entry, signature_entry, term_of_name};
ghost use Rattle.core_terms.specs.TermPositions.{table_positions, IsPlacedAmong};

mod converters;
mod declarations;
mod externs;
mod recursion;
mod roots;
mod table;
mod templates;
mod type_terms;

use crate::term::{ConstructorKind, Term, TermFlags, TermKind};
use crate::term_table::TermTable;
use core_syntax::syntax::{Decl, Error, Ident};
use core_types::{Sym, TermId, TypeEnv, TypeId, report_name};
use core_why::Wrong;
use std::alloc::AllocError;

impl TermTable {
    // Notes a declaration whose name is a term's already, and then the earlier one.
    pub fn check_free(
        &self,
        errors: &mut Vec<Error>,
        decl: &Decl,
        name: Sym,
    ) -> Result<(), AllocError>
        requires { IsWithin self.now }
        ensures noted { OnOk result (IsFreeOrReported name.0 self.now errors.old.items errors.new.items) }
        ensures places { OnOk result (NotesAt (declaration_positions (decl_view decl.now) ++ table_positions self.now) errors.old.items errors.new.items) }
        ensures begins { OnOk result (FirstStandsAt (declaration_positions (decl_view decl.now)) errors.old.items errors.new.items) }
    {
        let Some(existing) = self.term_map.get(&name) else {
            return Ok(());
        };
        let earlier = self.terms[existing.index()].decl_pos;
        report_name(errors, decl.pos, Wrong::TermTwice, &decl.term.0)?;
        report_name(errors, earlier, Wrong::TermTwice, &decl.term.0)
    }

    // Adds a declared term, if the types that it names are known.
    pub fn add_decl(
        &mut self,
        tyenv: &TypeEnv,
        errors: &mut Vec<Error>,
        decl: &Decl,
        name: Sym,
    ) -> Result<(), AllocError>
        requires { IsWithin self.old }
        ensures within { OnOk result (IsWithin self.new) }
        ensures adds { OnOk result (AddsOrReports (decl_view decl.now) tyenv.now name.0 self.old self.new errors.old.items errors.new.items) }
        ensures places { OnOk result (NotesAt (declaration_positions (decl_view decl.now)) errors.old.items errors.new.items) }
        ensures placed { OnOk result (IsPlacedAmong (declaration_positions (decl_view decl.now) ++ table_positions self.old) self.new) }
    {
        let Some(arg_tys) = arg_types(tyenv, errors, &decl.arg_tys)? else {
            return Ok(());
        };
        let Some(ret_ty) = tyenv.get_type_by_name(&decl.ret_ty) else {
            let name = &decl.ret_ty;
            return report_name(errors, name.1, Wrong::UnknownResult, &name.0);
        };
        self.push_term(decl, name, arg_tys, ret_ty)
    }

    // Adds a declared term, the next one.
    fn push_term(
        &mut self,
        decl: &Decl,
        name: Sym,
        arg_tys: Vec<TypeId>,
        ret_ty: TypeId,
    ) -> Result<(), AllocError>
        ensures ids { OnOk result ((k : ℕ) → term_at self.new k ≡ (if nat_eq name.0 k then Some (length self.old.terms.items) else term_at self.old k)) }
        ensures terms { OnOk result (term_views self.new.terms.items
            ≡ term_views self.old.terms.items
            ++ signature_entry (length self.old.terms.items) name.0 (map (λ t. t.0) arg_tys.items) ret_ty.0 (decl_view decl.now) ∷ []) }
        ensures converters { self.new.converters ≡ self.old.converters }
    {
        let id = TermId(self.terms.len());
        let flags = TermFlags {
            pure: decl.pure,
            multi: decl.multi,
            partial: decl.partial,
            rec: decl.rec,
        };
        let kind = TermKind::Decl {
            flags,
            constructor_kind: None,
            extractor_kind: None,
        };
        self.terms.push(Term {
            id,
            decl_pos: decl.pos,
            name,
            arg_tys,
            ret_ty,
            kind,
        })?;
        self.term_map.insert(name, id)?;
        Ok(())
    }

    // The term of a name.
    pub fn find_term(&self, tyenv: &TypeEnv, name: &Ident) -> Option<TermId>
        ensures { option_map (λ t. t.0) result ≡ term_of_name tyenv.now self.now (name_view name.now) }
    {
        let sym = tyenv.intern(name)?;
        self.term_map.get(&sym).copied()
    }
}

// Meets a name: its id, the next one where it wasn't met yet.
pub(crate) fn meet_name(tyenv: &mut TypeEnv, name: &Ident) -> Result<Sym, AllocError>
    requires { IsInterned tyenv.old }
    ensures interns { MayIntern tyenv.old tyenv.new }
    ensures met { OnOk result (Interns (name_view name.now).text tyenv.old tyenv.new) }
    ensures number { IfOk result (λ s. s.0 ≡ number (names_of tyenv.old) (name_view name.now).text) }
{
    tyenv.intern_mut(name)
}

// Makes a declared term one that rules make.
pub fn set_internal(term: &mut Term)
    ensures { term_view term.new ≡ internal_entry (term_view term.old) }
{
    if let TermKind::Decl {
        constructor_kind,
        ..
    } = &mut term.kind
    {
        *constructor_kind = Some(ConstructorKind::InternalConstructor);
    }
}

// The types of these names, or None and an error at the first one that isn't a type's.
fn arg_types(
    tyenv: &TypeEnv,
    errors: &mut Vec<Error>,
    names: &[Ident],
) -> Result<Option<Vec<TypeId>>, AllocError>
    ensures noted { IfOk result (λ o. MatchOption o
        (NotesMore errors.old.items errors.new.items × (All (IsKnownInEnv tyenv.now) (map name_view names.now) → ⊥))
        (λ tys. (errors.new.items ≡ errors.old.items) × HaveTypes tyenv.now (map name_view names.now) (map (λ t. t.0) tys.items))) }
    ensures places { OnOk result (NotesAt (name_positions (map name_view names.now)) errors.old.items errors.new.items) }
{
    let mut arg_tys = Vec::with_capacity(*errors.allocator(), names.len())?;
    for name in names {
        let Some(ty) = tyenv.get_type_by_name(name) else {
            report_name(errors, name.1, Wrong::UnknownArgument, &name.0)?;
            return Ok(None);
        };
        arg_tys.push(ty)?;
    }
    Ok(Some(arg_tys))
}
