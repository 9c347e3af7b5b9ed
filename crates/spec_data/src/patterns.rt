//! Patterns of arms, and the names that they bind.

use crate::faults::Stop;
use crate::fields::{field_count, field_type};
use crate::heads::{name_in, pos_of};
use crate::kinds::Kind;
use crate::scopes::Scope;
use crate::translation::Translation;
use core_syntax::syntax::{Ident, Pos};
use cranelift_isle::sema::{Fields, TypeId, VariantId};
use report_queries::names::type_name;
use std::alloc::AllocError;
use text_reader::syntax::SpecExpr;

/// What an arm takes.
#[derive(Clone, Copy)]
pub(crate) enum Taken {
    /// A variant, whose fields are bound.
    Variant(TypeId, VariantId),
    /// A struct, whose fields are bound.
    Struct(TypeId),
    /// Anything, which is bound.
    Any,
}

// Binds fields that have no names here. The first is bound last.
fn bind_unnamed_fields(scope: &mut Scope<'_>, fields: &Fields) -> Result<(), AllocError> {
    for _ in 0..field_count(fields) {
        scope.bind_unnamed()?;
    }
    Ok(())
}

impl<'c, 's> Translation<'c, 's> {
    /// Binds what a pattern names, of a value of this kind: a variant or a struct with names for its fields, a name for any other value, or
    /// `_`.
    pub(crate) fn bind_pattern<'e>(
        &self,
        scope: &mut Scope<'e>,
        kind: Kind,
        pattern: &'e SpecExpr,
    ) -> Result<Taken, Stop> {
        match pattern {
            SpecExpr::Var { var, .. } => self.bind_name(scope, kind, var),
            SpecExpr::Op { op, args, pos } => self.bind_list(scope, kind.own(), op, args, *pos),
            _ => Err(self.unsupported("this pattern", pos_of(pattern))),
        }
    }

    // A name as a pattern: a variant, or what is bound to the value.
    fn bind_name<'e>(
        &self,
        scope: &mut Scope<'e>,
        kind: Kind,
        name: &'e Ident,
    ) -> Result<Taken, Stop> {
        let ty = kind.own();
        if let (Some(ty), Some(variant)) = (ty, self.variant_called(ty, name)) {
            bind_unnamed_fields(scope, &variant.fields)?;
            return Ok(Taken::Variant(ty, variant.id));
        }
        if name.0.as_str() != "_" && self.variants_of(ty).is_some() {
            return Err(self.no_variant(name));
        }
        scope.bind(name.0.as_str(), kind)?;
        Ok(Taken::Any)
    }

    // A variant or a struct with names for its fields as a pattern.
    fn bind_list<'e>(
        &self,
        scope: &mut Scope<'e>,
        ty: Option<TypeId>,
        name: &Ident,
        args: &'e [SpecExpr],
        pos: Pos,
    ) -> Result<Taken, Stop> {
        let Some(ty) = ty else {
            return Err(self.no_variant(name));
        };
        if let Some(variant) = self.variant_called(Some(ty), name) {
            self.bind_fields(scope, name, &variant.fields, args, pos)?;
            return Ok(Taken::Variant(ty, variant.id));
        }
        match self.fields_of(Some(ty)) {
            Some(fields) if type_name(&self.lowered.tyenv, ty) == Some(name.0.as_str()) => {
                self.bind_fields(scope, name, fields, args, pos)?;
                Ok(Taken::Struct(ty))
            }
            _ => Err(self.no_variant(name)),
        }
    }

    // Binds names to fields, of which there are as many. The first is bound last.
    fn bind_fields<'e>(
        &self,
        scope: &mut Scope<'e>,
        name: &Ident,
        fields: &Fields,
        args: &'e [SpecExpr],
        pos: Pos,
    ) -> Result<(), Stop> {
        if field_count(fields) != args.len() {
            return Err(self.miscounted(name, "fields", field_count(fields), args.len(), pos));
        }
        let mut place = args.len();
        for arg in args.iter().rev() {
            place = place.saturating_sub(1);
            match name_in(arg) {
                Some(name) => scope.bind(name, self.kind_of_field(field_type(fields, place)))?,
                None => return Err(self.unsupported(
                    "a pattern of a field that is no name",
                    pos_of(arg),
                )),
            }
        }
        Ok(())
    }
}
