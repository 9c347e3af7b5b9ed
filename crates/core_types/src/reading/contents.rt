//! How the types of definitions are read, after all names of types are known. In each type the first thing
//! that is wrong is noted and ends the work on it.

ghost use Rattle.std.specs.Prelude.{◌≡◌, ◌&&◌, [], map, option_map, OnOk, IfOk, string_bytes};
ghost use Rattle.model.specs.lists.Syntax.{enum_value, struct_value};
ghost use Rattle.core_syntax.specs.SyntaxViews.{position, name_view, fields_view, variant_view, type_view, definition_view, definition_views};
ghost use Rattle.core_types.specs.Envs.{names_of, IsInterned};
ghost use Rattle.core_types.specs.Promises.{TypeIsRead, PrimitiveIsRead, ValueIsRead, VariantsAreRead, OneVariantIsRead, DefinitionIsFilled};
ghost use Rattle.core_types.specs.Stages.{NamesTypes, FillsTypes};
ghost use Rattle.core_types.specs.ToldErrors.{NotesEach};
ghost use Rattle.core_types.specs.TypeErrors.{TellsOfType};
ghost use Rattle.core_types.specs.VariantReading.{NotesIf, IsNumberOf};

use crate::ids::{Sym, TypeId, VariantId};
use crate::reading::report_name;
use crate::type_env::TypeEnv;
use crate::types::{Type, Variant};
use core_syntax::stablemapset::StableSet;
use core_syntax::syntax;
use core_syntax::syntax::{Def, Error, Ident, TypeValue};
use core_why::Wrong;
use std::alloc::AllocError;

impl TypeEnv {
    // What a type becomes, with this id. None where something is wrong with it, which is noted then.
    fn read_type(
        &mut self,
        errors: &mut Vec<Error>,
        id: TypeId,
        ty: &syntax::Type,
    ) -> Result<Option<Type>, AllocError>
        requires { IsInterned self.old }
        ensures inverse { IsInterned self.new }
        ensures reads { IfOk result (λ o. TypeIsRead id.0 (type_view ty.now) o self.old errors.old.items self.new errors.new.items) }
    {
        let name = self.intern_mut(&ty.name)?;
        match &ty.ty {
            TypeValue::Primitive(inner, _) => self.read_primitive(errors, id, ty, inner),
            TypeValue::Enum(variants, _) => self.read_enum(errors, id, name, ty, variants),
            TypeValue::Struct(fields, _) => self.read_struct(errors, id, name, ty, fields),
        }
    }

    // What a primitive type becomes: one that is marked isn't right.
    fn read_primitive(
        &mut self,
        errors: &mut Vec<Error>,
        id: TypeId,
        ty: &syntax::Type,
        inner: &Ident,
    ) -> Result<Option<Type>, AllocError>
        requires { IsInterned self.old }
        ensures inverse { IsInterned self.new }
        ensures reads { IfOk result (λ o. PrimitiveIsRead id.0 (type_view ty.now) (name_view inner.now) o
            self.old errors.old.items self.new errors.new.items) }
    {
        if ty.is_nodebug {
            report_name(errors, ty.pos, Wrong::NodebugPrimitive, &ty.name.0)?;
            return Ok(None);
        }
        if ty.is_extern {
            report_name(errors, ty.pos, Wrong::ExternPrimitive, &ty.name.0)?;
            return Ok(None);
        }
        let name = self.intern_mut(inner)?;
        Ok(Some(Type::Primitive(id, name, ty.pos)))
    }

    // What an enum becomes, whose name has this id.
    fn read_enum(
        &mut self,
        errors: &mut Vec<Error>,
        id: TypeId,
        name: Sym,
        ty: &syntax::Type,
        variants: &[syntax::Variant],
    ) -> Result<Option<Type>, AllocError>
        requires inverse { IsInterned self.old }
        requires name { IsNumberOf name.0 (string_bytes ty.now.name.0) (names_of self.old) }
        ensures inverse { IsInterned self.new }
        ensures reads { IfOk result (λ o. ValueIsRead id.0 (type_view ty.now) (enum_value (map variant_view variants.now)) o
            self.old errors.old.items self.new errors.new.items) }
    {
        if has_both_marks(errors, ty)? {
            return Ok(None);
        }
        let Some(variants) = self.read_variants(errors, &ty.name, variants)? else {
            return Ok(None);
        };
        Ok(Some(Type::Enum {
            name,
            id,
            is_extern: ty.is_extern,
            is_nodebug: ty.is_nodebug,
            variants,
            pos: ty.pos,
        }))
    }

    // What a struct becomes, whose name has this id.
    fn read_struct(
        &mut self,
        errors: &mut Vec<Error>,
        id: TypeId,
        name: Sym,
        ty: &syntax::Type,
        fields: &syntax::Fields,
    ) -> Result<Option<Type>, AllocError>
        requires inverse { IsInterned self.old }
        requires name { IsNumberOf name.0 (string_bytes ty.now.name.0) (names_of self.old) }
        ensures inverse { IsInterned self.new }
        ensures reads { IfOk result (λ o. ValueIsRead id.0 (type_view ty.now) (struct_value (fields_view fields.now)) o
            self.old errors.old.items self.new errors.new.items) }
    {
        if has_both_marks(errors, ty)? {
            return Ok(None);
        }
        let Some(fields) = self.read_fields(errors, fields, None)? else {
            return Ok(None);
        };
        Ok(Some(Type::Struct {
            name,
            id,
            is_extern: ty.is_extern,
            is_nodebug: ty.is_nodebug,
            fields,
            pos: ty.pos,
        }))
    }

    // The variants of the enum that is named. None where something is wrong with one, which is noted then.
    fn read_variants(
        &mut self,
        errors: &mut Vec<Error>,
        ty: &Ident,
        variants: &[syntax::Variant],
    ) -> Result<Option<Vec<Variant>>, AllocError>
        requires { IsInterned self.old }
        ensures inverse { IsInterned self.new }
        ensures reads { IfOk result (λ o. VariantsAreRead (string_bytes ty.now.0) (map variant_view variants.now) (option_map (λ v. v.items) o)
            self.old errors.old.items self.new errors.new.items) }
    {
        let alloc = *self.syms.allocator();
        let mut seen = StableSet::new(alloc);
        let mut read = Vec::new(alloc);
        for variant in variants {
            let id = VariantId(read.len());
            let Some(next) = self.read_variant(errors, &mut seen, ty, id, variant)? else {
                return Ok(None);
            };
            read.push(next)?;
        }
        Ok(Some(read))
    }

    // What a variant becomes, with this id, where the set has the names of those before it.
    fn read_variant(
        &mut self,
        errors: &mut Vec<Error>,
        seen: &mut StableSet<Sym>,
        ty: &Ident,
        id: VariantId,
        variant: &syntax::Variant,
    ) -> Result<Option<Variant>, AllocError>
        requires { IsInterned self.old }
        ensures inverse { IsInterned self.new }
        ensures reads { IfOk result (λ o. OneVariantIsRead (string_bytes ty.now.0) id.0 (variant_view variant.now) o
            self.old errors.old.items seen.old self.new errors.new.items seen.new) }
    {
        let full_name = syntax::Variant::full_name(ty, &variant.name)?;
        let fullname = self.intern_mut(&full_name)?;
        let name = self.intern_mut(&variant.name)?;
        if !seen.insert(name)? {
            report_name(errors, variant.pos, Wrong::VariantTwice, &variant.name.0)?;
            return Ok(None);
        }
        let Some(fields) = self.read_fields(errors, &variant.fields, Some(&variant.name))? else {
            return Ok(None);
        };
        Ok(Some(Variant {
            name,
            fullname,
            id,
            fields,
            pos: variant.pos,
        }))
    }

    // Reads what the type of a definition is, if it is one of a type.
    fn fill_definition(&mut self, errors: &mut Vec<Error>, def: &Def) -> Result<(), AllocError>
        requires { IsInterned self.old }
        ensures inverse { IsInterned self.new }
        ensures fills { OnOk result (DefinitionIsFilled (definition_view def.now) self.old errors.old.items self.new errors.new.items) }
    {
        let Def::TypeDef(ty) = def else {
            return Ok(());
        };
        let id = TypeId(self.types.len());
        if let Some(read) = self.read_type(errors, id, ty)? {
            self.types.push(read)?;
        }
        Ok(())
    }

    pub(crate) fn fill_types(
        &mut self,
        errors: &mut Vec<Error>,
        defs: &[Def],
    ) -> Result<(), AllocError>
        requires { NamesTypes (definition_views defs.now) (definition_views defs.now) [] self.old errors.old.items }
        ensures fills { OnOk result (FillsTypes (definition_views defs.now) [] self.new errors.new.items) }
        ensures told { OnOk result (NotesEach (TellsOfType (definition_views defs.now)) (definition_views defs.now) errors.old.items errors.new.items) }
    {
        for def in defs {
            self.fill_definition(errors, def)?;
        }
        Ok(())
    }
}

// Whether a type is marked both `extern` and `nodebug`, which is noted then.
fn has_both_marks(errors: &mut Vec<Error>, ty: &syntax::Type) -> Result<bool, AllocError>
    ensures both { IfOk result (λ b. b ≡ (ty.now.is_extern && ty.now.is_nodebug)) }
    ensures noted { IfOk result (λ b. NotesIf b (position ty.now.pos) errors.old.items errors.new.items) }
{
    if !(ty.is_extern && ty.is_nodebug) {
        return Ok(false);
    }
    report_name(errors, ty.pos, Wrong::NodebugExtern, &ty.name.0)?;
    Ok(true)
}
