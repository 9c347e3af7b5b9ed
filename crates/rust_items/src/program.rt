//! What the code of a program is made of.

ghost use Rattle.std.specs.Prelude.{◌≡◌, ◌++◌, OnOk, map, slice_get, string_bytes};
ghost use Rattle.cranelift_isle.specs.Envs.{names_of};
ghost use Rattle.cranelift_isle.specs.SyntaxViews.{position};
ghost use Rattle.cranelift_isle.specs.TypeViews.{type_views};
ghost use Rattle.cranelift_isle.specs.Values.{is_composed_type};
ghost use Rattle.rust_items.specs.RustNames.{quoted};
ghost use Rattle.rust_items.specs.FilePlaces.{place_written};
ghost use Rattle.rust_items.specs.LineViews.{lines_view};
ghost use Rattle.rust_items.specs.WrittenTypes.{lead, listed_type, listed_types, outputs_written, parameter_written, parameters_written, reference, type_written};

use crate::lines::Lines;
use crate::names::{push_name, push_path, push_quoted};
use cranelift_isle::sema::{Term, Type, TypeEnv, TypeId};
use cranelift_isle::syntax::Pos;
use std::alloc::{AllocError, Global};

/// A program: its names, types and terms, the lines of its files, and whether its results are logged.
#[derive(Clone, Copy)]
pub struct Program<'a> {
    pub alloc: Global,
    pub tyenv: &'a TypeEnv,
    pub terms: &'a [Term],
    pub lines: &'a Lines<'a>,
    pub is_logged: bool,
}

/// The attribute that keeps lints from an item.
pub const ALLOWED: &str = "#[allow(warnings)]\n";

/// Adds what stands before the first of several things, or a comma before another one.
pub(crate) fn push_lead(out: &mut String, first: &str, i: usize) -> Result<(), AllocError>
    ensures { OnOk result (string_bytes out.new ≡ string_bytes out.old ++ lead first.now i) }
{
    out.push_str(if i == 0 { first } else { ", " })
}

impl<'a> Program<'a> {
    /// Whether the values of a type are composed: those of enums and structs. Only these are passed by reference.
    pub fn is_composed(self, id: TypeId) -> bool
        ensures { result ≡ is_composed_type (slice_get (type_views self.entry.tyenv.now.types.items) id.0) }
    {
        matches!(
            self.tyenv.types.get(id.index()),
            Some(Type::Enum { .. } | Type::Struct { .. })
        )
    }

    /// Adds the name of a type.
    pub fn push_type(self, out: &mut String, id: TypeId) -> Result<(), AllocError>
        ensures { OnOk result (string_bytes out.new ≡ string_bytes out.old
            ++ type_written (names_of self.entry.tyenv.now) (slice_get (type_views self.entry.tyenv.now.types.items) id.0)) }
    {
        match self.tyenv.types.get(id.index()) {
            Some(Type::Builtin(builtin)) => out.push_str(builtin.name()),
            Some(Type::Primitive(_, name, _)) => push_path(out, self.tyenv.text_of(*name)),
            Some(Type::Enum { name, .. } | Type::Struct { name, .. }) => {
                push_name(out, self.tyenv.text_of(*name))
            }
            None => Ok(()),
        }
    }

    /// Adds the type of a function that gives values of these types: `()` for none, the type of one, a tuple of several.
    pub fn push_outputs(self, out: &mut String, types: &[TypeId]) -> Result<(), AllocError>
        ensures { OnOk result (string_bytes out.new ≡ string_bytes out.old
            ++ outputs_written (names_of self.entry.tyenv.now) (type_views self.entry.tyenv.now.types.items) (map (λ t. t.0) types.now)) }
    {
        if let [ty] = types {
            return self.push_type(out, *ty);
        }
        out.push('(')?;
        self.push_listed(out, types)?;
        out.push(')')
    }

    // Adds types, with commas between them.
    fn push_listed(self, out: &mut String, types: &[TypeId]) -> Result<(), AllocError>
        ensures { OnOk result (string_bytes out.new ≡ string_bytes out.old
            ++ listed_types (names_of self.entry.tyenv.now) (type_views self.entry.tyenv.now.types.items) 0 (map (λ t. t.0) types.now)) }
    {
        for (i, ty) in types.iter().enumerate() {
            self.push_at(out, i, *ty)?;
        }
        Ok(())
    }

    // Adds one of these types, by its place.
    fn push_at(self, out: &mut String, i: usize, ty: TypeId) -> Result<(), AllocError>
        ensures { OnOk result (string_bytes out.new ≡ string_bytes out.old
            ++ listed_type (names_of self.entry.tyenv.now) (type_views self.entry.tyenv.now.types.items) i ty.0) }
    {
        push_lead(out, "", i)?;
        self.push_type(out, ty)
    }

    /// Adds a function's parameters, each after a comma: `arg0`, `arg1` and so on, of these types, composed ones by reference.
    pub fn push_parameters(self, out: &mut String, types: &[TypeId]) -> Result<(), AllocError>
        ensures { OnOk result (string_bytes out.new ≡ string_bytes out.old
            ++ parameters_written (names_of self.entry.tyenv.now) (type_views self.entry.tyenv.now.types.items) 0 (map (λ t. t.0) types.now)) }
    {
        for (i, ty) in types.iter().enumerate() {
            self.push_parameter(out, i, *ty)?;
        }
        Ok(())
    }

    // Adds a parameter, by its number.
    fn push_parameter(self, out: &mut String, i: usize, ty: TypeId) -> Result<(), AllocError>
        ensures { OnOk result (string_bytes out.new ≡ string_bytes out.old
            ++ parameter_written (names_of self.entry.tyenv.now) (type_views self.entry.tyenv.now.types.items) i ty.0) }
    {
        write!(out, ", arg{i}: ")?;
        self.push_reference(out, ty)?;
        self.push_type(out, ty)
    }

    // Adds what stands before the type of a parameter that is a reference.
    fn push_reference(self, out: &mut String, ty: TypeId) -> Result<(), AllocError>
        ensures { OnOk result (string_bytes out.new ≡ string_bytes out.old ++ reference (slice_get (type_views self.entry.tyenv.now.types.items) ty.0)) }
    {
        out.push_str(if self.is_composed(ty) { "&" } else { "" })
    }

    /// Adds a place as a text within quotes.
    pub fn push_quoted_place(self, out: &mut String, pos: Pos) -> Result<(), AllocError>
        ensures { OnOk result (string_bytes out.new ≡ string_bytes out.old ++ quoted (place_written (lines_view self.entry.lines.now) (position pos))) }
    {
        let mut place = String::new(self.alloc);
        self.lines.push(&mut place, pos)?;
        push_quoted(out, &place)
    }
}
