//! How the fields of a struct or of a variant are read: their names are met in order, and the first thing
//! that is wrong is noted and ends the reading.

ghost use Rattle.std.specs.Prelude.{[], ◌∷◌, map, option_map, IfOk, OnOk};
ghost use Rattle.model.specs.lists.Syntax.{struct_fields, tuple_fields};
ghost use Rattle.core_syntax.specs.SyntaxViews.{position, fields_view, field_view, tuple_field_view};
ghost use Rattle.core_types.specs.Envs.{IsInterned};
ghost use Rattle.core_types.specs.FieldReading.{ReadsField, ReadsTupleField};
ghost use Rattle.core_types.specs.Promises.{FieldsAreRead};
ghost use Rattle.core_types.specs.Reading.{MeetsNames};
ghost use Rattle.core_types.specs.ToldErrors.{Notes};

use crate::ids::{FieldId, Sym};
use crate::reading::report;
use crate::type_env::TypeEnv;
use crate::types::{Fields, StructField, StructFields, TupleField, TupleFields};
use core_syntax::stablemapset::StableSet;
use core_syntax::syntax;
use core_syntax::syntax::{Error, Ident};
use core_why::{FieldName, Why};
use std::alloc::AllocError;

impl TypeEnv {
    // The fields of a struct, or of the variant that is named. None where something is wrong with them,
    // which is noted then.
    pub(crate) fn read_fields(
        &mut self,
        errors: &mut Vec<Error>,
        fields: &syntax::Fields,
        variant: Option<&Ident>,
    ) -> Result<Option<Fields>, AllocError>
        requires { IsInterned self.old }
        ensures inverse { IsInterned self.new }
        ensures reads { IfOk result (λ o. FieldsAreRead (fields_view fields.now) o self.old errors.old.items self.new errors.new.items) }
    {
        match fields {
            syntax::Fields::Unit => Ok(Some(Fields::Unit)),
            syntax::Fields::Struct(fields) => {
                let read = self.read_struct_fields(errors, &fields.fields, variant)?;
                Ok(read.map(Fields::Struct))
            }
            syntax::Fields::Tuple(fields) => {
                let read = self.read_tuple_fields(errors, &fields.fields, variant)?;
                Ok(read.map(Fields::Tuple))
            }
        }
    }

    // The fields with names, in order.
    fn read_struct_fields(
        &mut self,
        errors: &mut Vec<Error>,
        fields: &[syntax::StructField],
        variant: Option<&Ident>,
    ) -> Result<Option<StructFields>, AllocError>
        requires { IsInterned self.old }
        ensures inverse { IsInterned self.new }
        ensures reads { IfOk result (λ o. FieldsAreRead (struct_fields (map field_view fields.now)) (option_map Fields.Struct o)
            self.old errors.old.items self.new errors.new.items) }
    {
        let alloc = *self.syms.allocator();
        let mut read = Vec::new(alloc);
        let mut seen = StableSet::new(alloc);
        for field in fields {
            let id = FieldId(read.len());
            let Some(field) = self.read_struct_field(errors, &mut seen, id, field, variant)? else {
                return Ok(None);
            };
            read.push(field)?;
        }
        Ok(Some(StructFields { fields: read }))
    }

    // The field of this id, where the ids of the names before it were seen.
    fn read_struct_field(
        &mut self,
        errors: &mut Vec<Error>,
        seen: &mut StableSet<Sym>,
        id: FieldId,
        field: &syntax::StructField,
        variant: Option<&Ident>,
    ) -> Result<Option<StructField>, AllocError>
        requires { IsInterned self.old }
        ensures inverse { IsInterned self.new }
        ensures meets { OnOk result (MeetsNames ((field_view field.now).name.text ∷ []) self.old self.new) }
        ensures reads { IfOk result (λ o. ReadsField (field_view field.now) id.0 o self.old errors.old.items seen.old self.new errors.new.items seen.new) }
    {
        let name = self.intern_mut(&field.name)?;
        if !seen.insert(name)? {
            report_duplicate_field(errors, field, variant)?;
            return Ok(None);
        }
        let Some(ty) = self.get_type_by_name(&field.ty) else {
            let name = FieldName::Text(field.name.0.clone()?);
            report_unknown_type(errors, &field.ty, name, variant)?;
            return Ok(None);
        };
        Ok(Some(StructField { name, id, ty }))
    }

    // The fields without names, in order.
    fn read_tuple_fields(
        &self,
        errors: &mut Vec<Error>,
        fields: &[syntax::TupleField],
        variant: Option<&Ident>,
    ) -> Result<Option<TupleFields>, AllocError>
        requires { IsInterned self.now }
        ensures reads { IfOk result (λ o. FieldsAreRead (tuple_fields (map tuple_field_view fields.now)) (option_map Fields.Tuple o)
            self.now errors.old.items self.now errors.new.items) }
    {
        let mut read = Vec::new(*self.syms.allocator());
        for field in fields {
            let id = FieldId(read.len());
            let Some(field) = self.read_tuple_field(errors, id, field, variant)? else {
                return Ok(None);
            };
            read.push(field)?;
        }
        Ok(Some(TupleFields { fields: read }))
    }

    fn read_tuple_field(
        &self,
        errors: &mut Vec<Error>,
        id: FieldId,
        field: &syntax::TupleField,
        variant: Option<&Ident>,
    ) -> Result<Option<TupleField>, AllocError>
        ensures reads { IfOk result (λ o. ReadsTupleField (tuple_field_view field.now) id.0 o self.now errors.old.items errors.new.items) }
    {
        let Some(ty) = self.get_type_by_name(&field.ty) else {
            let name = FieldName::Number(field.index);
            report_unknown_type(errors, &field.ty, name, variant)?;
            return Ok(None);
        };
        Ok(Some(TupleField { id, ty }))
    }
}

// Notes that two fields have one name.
fn report_duplicate_field(
    errors: &mut Vec<Error>,
    field: &syntax::StructField,
    variant: Option<&Ident>,
) -> Result<(), AllocError>
    ensures { OnOk result (Notes 1 (position field.now.pos ∷ []) errors.old.items errors.new.items) }
{
    let name = field.name.0.clone()?;
    let variant = name_of(variant)?;
    report(errors, field.pos, Why::FieldTwice { name, variant })
}

// Notes that a name isn't a type's, where this field has it for its type.
fn report_unknown_type(
    errors: &mut Vec<Error>,
    ty: &Ident,
    field: FieldName,
    variant: Option<&Ident>,
) -> Result<(), AllocError>
    ensures { OnOk result (Notes 1 (position ty.now.1 ∷ []) errors.old.items errors.new.items) }
{
    let pos = ty.1;
    let ty = ty.0.clone()?;
    let variant = name_of(variant)?;
    report(errors, pos, Why::FieldType { ty, field, variant })
}

// The name of a variant, where there is one.
fn name_of(variant: Option<&Ident>) -> Result<Option<String>, AllocError> {
    match variant {
        Some(variant) => Ok(Some(variant.0.clone()?)),
        None => Ok(None),
    }
}
