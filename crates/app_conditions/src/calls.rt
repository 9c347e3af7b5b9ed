//! A call that shows that a rule is wrong, as `isle run` takes it.

use crate::told::Teller;
use cranelift_isle::sema::{BuiltinType, Fields, TermId, Type, TypeId, Variant};
use report_queries::names::{term_name, type_name};
use std::alloc::AllocError;

// How deep the values of a call nest.
const DEEPEST: usize = 8;

/// What a solver gave for the constants of a question.
#[derive(Clone, Copy)]
pub(crate) struct Given<'a> {
    /// The constants, each with the path of what it is.
    pub(crate) names: &'a [(String, String)],
    /// Their values, in the same order.
    pub(crate) values: &'a [String],
}

impl<'a> Given<'a> {
    // The value of the constant of this path.
    fn of(self, path: &str) -> Option<&'a str> {
        for ((_, known), value) in self.names.iter().zip(self.values) {
            if known.as_str() == path {
                return Some(value.as_str());
            }
        }
        None
    }
}

impl<'a, 'f> Teller<'a, 'f> {
    /// Adds a call of a term with the values of its arguments. What a question doesn't speak of is 0, or of the first variant.
    pub(crate) fn push_call(
        self,
        out: &mut String,
        term: TermId,
        given: Given<'_>,
    ) -> Result<(), AllocError> {
        let (tyenv, termenv) = (&self.lowered.tyenv, &self.lowered.termenv);
        let Some(known) = termenv.terms.get(term.index()) else {
            return Ok(());
        };
        let name = term_name(tyenv, termenv, term).unwrap_or("_");
        write!(out, "\n  call: ({name}")?;
        for (place, ty) in known.arg_tys.iter().enumerate() {
            out.push(' ')?;
            let name = format!(in self.alloc; "arg{place}")?;
            self.push_value(out, *ty, &name, given, DEEPEST)?;
        }
        out.push(')')
    }

    // Adds the value of a type whose constants begin with this name.
    #[cycle(value)]
    fn push_value(
        self,
        out: &mut String,
        ty: TypeId,
        name: &str,
        given: Given<'_>,
        fuel: usize,
    ) -> Result<(), AllocError> {
        let lowered = self.lowered;
        if fuel == 0 {
            return out.push('0');
        }
        let called = type_name(&lowered.tyenv, ty).unwrap_or("_");
        match lowered.tyenv.types.get(ty.index()) {
            Some(
                Type::Enum {
                    variants,
                    is_extern,
                    ..
                },
            ) => self.push_variant(out, called, variants, *is_extern, name, given, fuel),
            Some(Type::Struct { fields, .. }) => {
                write!(out, "({called}")?;
                self.push_fields(out, fields, name, given, fuel)?;
                out.push(')')
            }
            Some(Type::Builtin(BuiltinType::Bool)) => {
                out.push_str(given.of(name).unwrap_or("false"))
            }
            _ => out.push_str(given.of(name).unwrap_or("0")),
        }
    }

    // Adds a variant by its number. Where there is none, it is a value of none if the enum is one of others', and else the last.
    #[cycle(value)]
    fn push_variant(
        self,
        out: &mut String,
        called: &str,
        variants: &[Variant],
        is_extern: bool,
        name: &str,
        given: Given<'_>,
        fuel: usize,
    ) -> Result<(), AllocError> {
        if fuel == 0 {
            return out.push('0');
        }
        let tag = format!(in self.alloc; "{name}.tag")?;
        let mut place = place_of(given.of(&tag), variants.len());
        if !is_extern {
            place = place.min(variants.len().saturating_sub(1));
        }
        let Some(variant) = variants.get(place) else {
            return write!(out, "{called}#{place}");
        };
        let variant_name = self.lowered.tyenv.text_of(variant.fullname);
        write!(out, "({variant_name}")?;
        let inner = format!(in self.alloc; "{name}.v{place}")?;
        self.push_fields(out, &variant.fields, &inner, given, fuel - 1)?;
        out.push(')')
    }

    // Adds the values of fields, each behind a space.
    #[cycle(value)]
    fn push_fields(
        self,
        out: &mut String,
        fields: &Fields,
        name: &str,
        given: Given<'_>,
        fuel: usize,
    ) -> Result<(), AllocError> {
        if fuel == 0 {
            return out.push_str(" 0");
        }
        let types = fields.types(self.alloc)?;
        for (place, ty) in types.iter().enumerate() {
            out.push(' ')?;
            let field = format!(in self.alloc; "{name}.{place}")?;
            self.push_value(out, *ty, &field, given, fuel - 1)?;
        }
        Ok(())
    }
}

// Which variant a number is of, which counts them from 1: the first where nothing is said, and one behind the last where it is none.
fn place_of(number: Option<&str>, count: usize) -> usize {
    match number {
        Some(number) => number
            .parse::<usize>()
            .unwrap_or(0)
            .checked_sub(1)
            .unwrap_or(count),
        None => 0,
    }
}
