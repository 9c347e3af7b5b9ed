//! How the terms that types make are read: one for each variant of an enum, and one for a struct.

ghost use Rattle.std.specs.Prelude.{◌∷◌, ◌++◌, [], OnOk, map};
ghost use Rattle.model.specs.lists.TermTable.{made_by, terms_made, variant_as_term, struct_as_term};
ghost use Rattle.core_syntax.specs.Positions.{NotesAt};
ghost use Rattle.core_syntax.specs.SyntaxViews.{position};
ghost use Rattle.core_types.specs.TypeViews.{fields_view, type_view, type_views, variant_view};
ghost use Rattle.core_terms.specs.Reading.{IsWithin};
ghost use Rattle.core_terms.specs.TermViews.{kind_view};
ghost use Rattle.core_terms.specs.Signing.{AddsAllMade, AddsMade, PushesTerm, made_entry};
ghost use Rattle.core_terms.specs.TermPositions.{table_positions, variants_positions, IsPlacedAmong};
ghost use Rattle.core_types.specs.TypePositions.{entry_positions as type_entry_positions, types_positions};

use crate::term::{Term, TermKind};
use crate::term_table::TermTable;
use core_syntax::syntax::{Error, Pos};
use core_types::{Fields, Sym, TermId, Type, TypeEnv, TypeId, Variant, report_name};
use core_why::Wrong;
use std::alloc::AllocError;

impl TermTable {
    pub(crate) fn add_made_terms(
        &mut self,
        tyenv: &TypeEnv,
        errors: &mut Vec<Error>,
    ) -> Result<(), AllocError>
        requires { IsWithin self.old }
        ensures within { OnOk result (IsWithin self.new) }
        ensures adds { OnOk result (AddsAllMade (type_views tyenv.now.types.items) self.old errors.old.items self.new errors.new.items) }
        ensures places { OnOk result (NotesAt (types_positions (type_views tyenv.now.types.items)) errors.old.items errors.new.items) }
        ensures placed { OnOk result (IsPlacedAmong (types_positions (type_views tyenv.now.types.items) ++ table_positions self.old) self.new) }
    {
        for ty in &tyenv.types {
            self.add_terms_of(tyenv, errors, ty)?;
        }
        Ok(())
    }

    #[tactic(auto, using(core_syntax::proofs::Positioned::notes_nothing))]
    fn add_terms_of(
        &mut self,
        tyenv: &TypeEnv,
        errors: &mut Vec<Error>,
        ty: &Type,
    ) -> Result<(), AllocError>
        requires { IsWithin self.old }
        ensures within { OnOk result (IsWithin self.new) }
        ensures adds { OnOk result (AddsMade (made_by (type_view ty.now)) (terms_made (type_view ty.now)) self.old errors.old.items self.new errors.new.items) }
        ensures places { OnOk result (NotesAt (type_entry_positions (type_view ty.now)) errors.old.items errors.new.items) }
        ensures placed { OnOk result (IsPlacedAmong (type_entry_positions (type_view ty.now) ++ table_positions self.old) self.new) }
    {
        match ty {
            Type::Enum {
                id,
                variants,
                pos,
                ..
            } => self.add_variants(tyenv, errors, *id, *pos, variants),
            Type::Struct {
                name,
                id,
                fields,
                pos,
                ..
            } => self.add_struct(tyenv, errors, *name, *id, fields, *pos),
            Type::Builtin(_) | Type::Primitive(..) => Ok(()),
        }
    }

    // Adds a term for each of these variants of an enum. The first one whose name is taken ends the work on
    // the enum.
    fn add_variants(
        &mut self,
        tyenv: &TypeEnv,
        errors: &mut Vec<Error>,
        ty: TypeId,
        pos: Pos,
        variants: &[Variant],
    ) -> Result<(), AllocError>
        requires { IsWithin self.old }
        ensures within { OnOk result (IsWithin self.new) }
        ensures adds { OnOk result (AddsMade (map (λ v. v.full_name) (map variant_view variants.now))
            (map (variant_as_term ty.0) (map variant_view variants.now)) self.old errors.old.items self.new errors.new.items) }
        ensures places { OnOk result (NotesAt (position pos ∷ []) errors.old.items errors.new.items) }
        ensures placed { OnOk result (IsPlacedAmong (variants_positions (map variant_view variants.now) ++ table_positions self.old) self.new) }
    {
        for variant in variants {
            if self.term_map.contains_key(&variant.fullname) {
                let wrong = Wrong::VariantTermTwice;
                return report_name(errors, pos, wrong, tyenv.text_of(variant.fullname));
            }
            self.push_variant(ty, variant)?;
        }
        Ok(())
    }

    // Adds the term of a variant, the next one.
    fn push_variant(&mut self, ty: TypeId, variant: &Variant) -> Result<(), AllocError>
        requires { IsWithin self.old }
        ensures within { OnOk result (IsWithin self.new) }
        ensures pushes { OnOk result (PushesTerm variant.now.fullname.0 (variant_as_term ty.0 (variant_view variant.now)) self.old self.new) }
    {
        let kind = TermKind::EnumVariant {
            variant: variant.id,
        };
        self.push_made(variant.fullname, ty, &variant.fields, variant.pos, kind)
    }

    // Adds the term of a struct, if its name isn't taken.
    #[tactic(auto, using(core_syntax::proofs::Positioned::notes_nothing))]
    fn add_struct(
        &mut self,
        tyenv: &TypeEnv,
        errors: &mut Vec<Error>,
        name: Sym,
        ty: TypeId,
        fields: &Fields,
        pos: Pos,
    ) -> Result<(), AllocError>
        requires { IsWithin self.old }
        ensures within { OnOk result (IsWithin self.new) }
        ensures adds { OnOk result (AddsMade (name.0 ∷ [])
            (struct_as_term name.0 ty.0 (fields_view fields.now) (position pos) ∷ []) self.old errors.old.items self.new errors.new.items) }
        ensures places { OnOk result (NotesAt (position pos ∷ []) errors.old.items errors.new.items) }
        ensures placed { OnOk result (IsPlacedAmong (position pos ∷ table_positions self.old) self.new) }
    {
        if self.term_map.contains_key(&name) {
            let wrong = Wrong::StructTermTwice;
            return report_name(errors, pos, wrong, tyenv.text_of(name));
        }
        self.push_made(name, ty, fields, pos, TermKind::Struct)
    }

    // Adds a term that a type makes, the next one.
    fn push_made(
        &mut self,
        name: Sym,
        ret_ty: TypeId,
        fields: &Fields,
        decl_pos: Pos,
        kind: TermKind,
    ) -> Result<(), AllocError>
        requires { IsWithin self.old }
        ensures within { OnOk result (IsWithin self.new) }
        ensures pushes { OnOk result (PushesTerm name.0
            (made_entry name.0 ret_ty.0 (fields_view fields.now) (position decl_pos) (kind_view kind)) self.old self.new) }
    {
        let id = TermId(self.terms.len());
        let arg_tys = fields.types(*self.terms.allocator())?;
        self.terms.push(Term {
            id,
            decl_pos,
            name,
            arg_tys,
            ret_ty,
            kind,
        })?;
        self.term_map.insert(name, id)?;
        Ok(())
    }
}
