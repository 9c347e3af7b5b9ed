//! How the things of a program are written.

ghost use Rattle.std.specs.Prelude.{◌≡◌, map, option_map, slice_get};
ghost use Rattle.model.specs.rules.Values.{field_types};
ghost use Rattle.model.specs.rules.Values.{is_composed_type};
ghost use Rattle.model.specs.sites.Serves.{term_args, term_results};
ghost use Rattle.model_code.specs.Tokens.{struct_owner, variant_owner};
ghost use Rattle.model_code.specs.Pieces as Pieces;
ghost use Rattle.model_code.specs.Pieces.{result_ends};
ghost use Rattle.model_code.specs.Alike as Alike;
ghost use Rattle.model_code.specs.ProgramNotation.{fields_in, shape_of};
ghost use Rattle.core_types.specs.TypeViews.{field_view, fields_view, tuple_field_view, type_views};
ghost use Rattle.core_terms.specs.TermViews.{kind_view, term_views};
ghost use Rattle.rust_text.specs.TokenViews.{callee_view, owner_view};
ghost use Rattle.rust_text.specs.ProgramFields.{answers_in, composed_in, fields_in_env, fields_seen, multi_at, multi_of, sole};
ghost use Rattle.rust_text.specs.Writers.{gives_view, shape_view, Says};

use crate::tokens::{Callee, Owner};
use core_typed::checks::constant_type;
use cranelift_isle::sema::{
    Fields, ReturnKind, StructField, Sym, Term, TermId, TermKind, TupleField, Type, TypeEnv,
    TypeId, VariantId,
};
use rust_items::program::Program;

/// How fields are written.
#[derive(Clone, Copy)]
pub enum Shape {
    /// Not at all.
    Unit,
    /// With names.
    Named {
        /// How many there are.
        count: usize,
    },
    /// In order.
    Unnamed {
        /// How many there are.
        count: usize,
    },
}

/// What code is written by: its program, and how many values its function gives.
#[derive(Clone, Copy)]
pub struct Writer<'a> {
    /// The program.
    pub program: Program<'a>,
    /// How many values the function gives.
    pub gives: ReturnKind,
}

impl<'a> Writer<'a> {
    /// How many values the function gives.
    pub(crate) fn gives(&self) -> ReturnKind
        ensures { Says self.now (λ p. gives_view result ≡ p.kind) }
    {
        self.gives
    }

    /// Whether the log is told which rule is taken.
    pub(crate) fn is_logged(&self) -> bool
        ensures { Says self.now (λ p. result ≡ p.is_logged) }
    {
        self.program.is_logged
    }

    /// Whether a result ends the function.
    pub(crate) fn ends(&self) -> bool
        ensures { Says self.now (λ p. result ≡ result_ends p) }
    {
        ends_function(self.gives())
    }

    /// How the fields of a variant or a struct are written.
    pub(crate) fn shape_of(&self, owner: Owner) -> Shape
        ensures { Says self.now (λ p. shape_view result ≡ p.shape (owner_view owner)) }
    {
        form_of(fields_of(self.program.tyenv, owner))
    }

    /// Whether a field is an enum or a struct.
    pub(crate) fn is_field_composed(&self, owner: Owner, index: usize) -> bool
        ensures { Says self.now (λ p. result ≡ p.is_field_composed (owner_view owner) index) }
    {
        let ty = field_type(fields_of(self.program.tyenv, owner), index);
        is_one_composed(self.program.tyenv, ty)
    }

    /// Whether a constant is an enum or a struct.
    pub(crate) fn is_constant_composed(&self, name: Sym) -> bool
        ensures { Says self.now (λ p. result ≡ p.is_constant_composed name.0) }
    {
        let ty = constant_type(self.program.tyenv, name);
        is_one_composed(self.program.tyenv, ty)
    }

    /// Whether the answer of a call is one enum or struct, or may be nothing and else is one.
    pub(crate) fn gives_composed(&self, callee: Callee) -> bool
        ensures { Says self.now (λ p. result ≡ p.gives_composed (callee_view callee)) }
    {
        let ty = answer_of(self.program.terms, callee);
        is_one_composed(self.program.tyenv, ty)
    }

    /// Whether a call has many answers.
    pub(crate) fn has_many(&self, callee: Callee) -> bool
        ensures { Says self.now (λ p. result ≡ p.has_many (callee_view callee)) }
    {
        is_multi(self.program.terms, term_of(callee))
    }
}

// Whether a result ends a function that gives so many values.
fn ends_function(gives: ReturnKind) -> bool
    ensures { result ≡ Pieces.ends_function (gives_view gives) }
{
    match gives {
        ReturnKind::Plain => true,
        ReturnKind::Option => true,
        ReturnKind::Iterator => false,
    }
}

// Whether a type is an enum or a struct.
fn is_composed(tyenv: &TypeEnv, ty: TypeId) -> bool
    ensures { result ≡ is_composed_type (slice_get (type_views tyenv.now.types.items) ty.0) }
{
    match tyenv.types.get(ty.index()) {
        Some(Type::Enum { .. }) => true,
        Some(Type::Struct { .. }) => true,
        Some(Type::Builtin(_)) => false,
        Some(Type::Primitive(_, _, _)) => false,
        None => false,
    }
}

// Whether a type is there, and an enum or a struct.
fn is_one_composed(tyenv: &TypeEnv, ty: Option<TypeId>) -> bool
    ensures { result ≡ composed_in tyenv.now (option_map (λ t. t.0) ty) }
{
    match ty {
        Some(ty) => is_composed(tyenv, ty),
        None => false,
    }
}

// The fields of a variant or a struct.
fn fields_of<'a>(tyenv: &'a TypeEnv, owner: Owner) -> Option<&'a Fields>
    ensures { fields_seen (option_map (λ f. f.now) result) ≡ fields_in_env tyenv.now (owner_view owner) }
{
    match owner {
        Owner::Variant { ty, variant } => variant_fields(tyenv, ty, variant),
        Owner::Struct { ty } => struct_fields(tyenv, ty),
    }
}

// The fields of a variant of an enum, where the type is one that has it.
fn variant_fields<'a>(tyenv: &'a TypeEnv, ty: TypeId, variant: VariantId) -> Option<&'a Fields>
    ensures { fields_seen (option_map (λ f. f.now) result)
        ≡ fields_in (slice_get (type_views tyenv.now.types.items) ty.0) (variant_owner ty.0 variant.0) }
{
    match tyenv.types.get(ty.index()) {
        Some(Type::Enum { variants, .. }) => match variants.get(variant.index()) {
            Some(variant) => Some(&variant.fields),
            None => None,
        },
        Some(Type::Struct { .. }) => None,
        Some(Type::Builtin(_)) => None,
        Some(Type::Primitive(_, _, _)) => None,
        None => None,
    }
}

// The fields of a struct, where the type is one.
fn struct_fields<'a>(tyenv: &'a TypeEnv, ty: TypeId) -> Option<&'a Fields>
    ensures { fields_seen (option_map (λ f. f.now) result)
        ≡ fields_in (slice_get (type_views tyenv.now.types.items) ty.0) (struct_owner ty.0) }
{
    match tyenv.types.get(ty.index()) {
        Some(Type::Struct { fields, .. }) => Some(fields),
        Some(Type::Enum { .. }) => None,
        Some(Type::Builtin(_)) => None,
        Some(Type::Primitive(_, _, _)) => None,
        None => None,
    }
}

// How fields are written; none are there where the type isn't one that has them.
fn form_of(fields: Option<&Fields>) -> Shape
    ensures { shape_view result ≡ shape_of (fields_seen (option_map (λ f. f.now) fields.entry)) }
{
    match fields {
        Some(Fields::Struct(named)) => Shape::Named {
            count: named.fields.len(),
        },
        Some(Fields::Tuple(unnamed)) => Shape::Unnamed {
            count: unnamed.fields.len(),
        },
        Some(Fields::Unit) => Shape::Unit,
        None => Shape::Unit,
    }
}

fn field_type(fields: Option<&Fields>, index: usize) -> Option<TypeId>
    ensures { option_map (λ t. t.0) result ≡ slice_get (field_types (fields_seen (option_map (λ f. f.now) fields.entry))) index }
{
    match fields {
        Some(Fields::Struct(named)) => named_type(&named.fields, index),
        Some(Fields::Tuple(unnamed)) => unnamed_type(&unnamed.fields, index),
        Some(Fields::Unit) => None,
        None => None,
    }
}

fn named_type(fields: &[StructField], index: usize) -> Option<TypeId>
    ensures { option_map (λ t. t.0) result ≡ slice_get (map (λ f. f.ty) (map field_view fields.now)) index }
{
    match fields.get(index) {
        Some(field) => Some(field.ty),
        None => None,
    }
}

fn unnamed_type(fields: &[TupleField], index: usize) -> Option<TypeId>
    ensures { option_map (λ t. t.0) result ≡ slice_get (map (λ f. f.ty) (map tuple_field_view fields.now)) index }
{
    match fields.get(index) {
        Some(field) => Some(field.ty),
        None => None,
    }
}

fn only(types: &[TypeId]) -> Option<TypeId>
    ensures { option_map (λ ty. ty.0) result ≡ sole (map (λ ty. ty.0) types.now) }
{
    match types {
        [ty] => Some(*ty),
        _ => None,
    }
}

// The type of what a call answers, where it is one.
fn answer_of(terms: &[Term], callee: Callee) -> Option<TypeId>
    ensures { option_map (λ ty. ty.0) result ≡ sole (answers_in (term_views terms.now) (callee_view callee)) }
{
    match callee {
        Callee::Extractor(term) => argument_of(terms, term),
        Callee::Constructor(term) => result_of(terms, term),
    }
}

// The type of a term's argument, where it is one.
fn argument_of(terms: &[Term], term: TermId) -> Option<TypeId>
    ensures { option_map (λ ty. ty.0) result ≡ sole (term_args (slice_get (term_views terms.now) term.0)) }
{
    match terms.get(term.index()) {
        Some(term) => only(&term.arg_tys),
        None => None,
    }
}

fn result_of(terms: &[Term], term: TermId) -> Option<TypeId>
    ensures { option_map (λ ty. ty.0) result ≡ sole (term_results (slice_get (term_views terms.now) term.0)) }
{
    match terms.get(term.index()) {
        Some(term) => Some(term.ret_ty),
        None => None,
    }
}

fn term_of(callee: Callee) -> TermId
    ensures { result.0 ≡ Alike.term_of (callee_view callee) }
{
    match callee {
        Callee::Extractor(term) => term,
        Callee::Constructor(term) => term,
    }
}

// Whether a term may give many values.
fn is_multi(terms: &[Term], term: TermId) -> bool
    ensures { result ≡ multi_at (slice_get (term_views terms.now) term.0) }
{
    match terms.get(term.index()) {
        Some(term) => is_multi_kind(&term.kind),
        None => false,
    }
}

// Whether a term of this kind may.
fn is_multi_kind(kind: &TermKind) -> bool
    ensures { result ≡ multi_of (kind_view kind.now) }
{
    match kind {
        TermKind::Decl { flags, .. } => flags.multi,
        TermKind::EnumVariant { .. } => false,
        TermKind::Struct => false,
    }
}
