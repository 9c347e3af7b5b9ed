//! How what a function's code names is written.

ghost use Rattle.std.specs.Prelude.{◌≡◌, ◌++◌, OnOk, Some, map, option_map, slice_get, string_bytes};
ghost use Rattle.model.specs.lists.Signatures.{text_of};
ghost use Rattle.model_code.specs.Alike.{term_of};
ghost use Rattle.model_code.specs.ProgramNotation.{ending_in, fields_of, outside_constructor, outside_extractor, outside_in, outside_of};
ghost use Rattle.core_syntax.specs.SyntaxViews.{position};
ghost use Rattle.core_types.specs.Builtin.{builtin_place};
ghost use Rattle.core_types.specs.TypeViews.{field_view, fields_view, type_view, variant_view};
ghost use Rattle.model.specs.lists.Tables.{builtin_type};
ghost use Rattle.core_terms.specs.TermViews.{constructor_view, extractor_view, kind_view};
ghost use Rattle.rust_items.specs.FilePlaces.{place_written};
ghost use Rattle.rust_items.specs.RustNames.{spelled_constant};
ghost use Rattle.rust_text.specs.ProgramNames.{field_written, fields_or_unit, function_text, function_written, int_at, int_place_in, integer_written, list_text, list_written, log_written, number_written, one_field_written, owner_written, panic_written, program_in, term_part, told, variant_in, variant_written};
ghost use Rattle.rust_text.specs.SettingViews.{int_place, setting_of};
ghost use Rattle.rust_text.specs.TokenViews.{callee_view, owner_view};

use crate::numbers::push_int_of;
use crate::tokens::{Callee, Owner};
use cranelift_isle::sema::{
    BuiltinType, ConstructorKind, ExtractorKind, Fields, IntType, StructField, Sym, Term, TermId,
    TermKind, Type, TypeId, Variant, VariantId,
};
use cranelift_isle::syntax::Pos;
use rust_items::names::{push_constant, push_name, push_part, push_quoted};
use rust_items::program::Program;
use std::alloc::AllocError;

/// What names are written by: the program, and the term whose function it is.
#[derive(Clone, Copy)]
pub struct Names<'a> {
    /// The program.
    pub program: Program<'a>,
    /// The term.
    pub term: &'a Term,
}

impl<'a> Names<'a> {
    pub(crate) fn push_constant(self, out: &mut String, name: Sym) -> Result<(), AllocError>
        ensures { OnOk result (string_bytes out.new ≡ string_bytes out.old
            ++ spelled_constant (text_of (setting_of self.entry).names name.0)) }
    {
        push_constant(out, self.program.tyenv.text_of(name))
    }

    // Adds an integer of a type: at a built-in type with the type's name behind it.
    #[tactic(auto, using(crate::proofs::IntegerTexts::number_at))]
    pub(crate) fn push_int(self, out: &mut String, val: i128, ty: TypeId) -> Result<(), AllocError>
        ensures { OnOk result (string_bytes out.new ≡ string_bytes out.old
            ++ number_written (setting_of self.entry) val (ending_in (slice_get (setting_of self.entry).types ty.0) ty.0)) }
    {
        self.push_typed(out, val, self.int_type(ty))
    }

    // Adds an integer, with the name of a built-in type behind it.
    fn push_typed(self, out: &mut String, val: i128, int: Option<IntType>) -> Result<(), AllocError>
        ensures { OnOk result (string_bytes out.new ≡ string_bytes out.old ++ integer_written val (option_map int_place int)) }
    {
        match int {
            Some(int) => push_int_of(out, val, int),
            None => write!(out, "{val}"),
        }
    }

    // The built-in type of integers that a type is. `bool`, whose number is 0, isn't one.
    fn int_type(self, ty: TypeId) -> Option<IntType>
        ensures { option_map int_place result ≡ int_at (setting_of self.entry) ty.0 }
    {
        if ty.index() == 0 {
            return None;
        }
        match self.program.tyenv.types.get(ty.index()) {
            Some(ty) => int_of(ty),
            None => None,
        }
    }

    // Adds a variant after its enum, or a struct.
    pub(crate) fn push_owner(self, out: &mut String, owner: Owner) -> Result<(), AllocError>
        ensures { OnOk result (string_bytes out.new ≡ string_bytes out.old ++ owner_written (setting_of self.entry) (owner_view owner)) }
    {
        match owner {
            Owner::Variant { ty, variant } => {
                self.program.push_type(out, ty)?;
                out.push_str("::")?;
                self.push_variant(out, ty, variant)
            }
            Owner::Struct { ty } => self.program.push_type(out, ty),
        }
    }

    fn push_variant(
        self,
        out: &mut String,
        ty: TypeId,
        variant: VariantId,
    ) -> Result<(), AllocError>
        ensures { OnOk result (string_bytes out.new ≡ string_bytes out.old
            ++ variant_written (setting_of self.entry).names (variant_in (slice_get (setting_of self.entry).types ty.0) variant.0)) }
    {
        match self.variant(ty, variant) {
            Some(variant) => push_name(out, self.program.tyenv.text_of(variant.name)),
            None => Ok(()),
        }
    }

    // A variant of an enum, where the type is one that has it.
    fn variant(self, ty: TypeId, variant: VariantId) -> Option<&'a Variant>
        ensures { option_map (λ v. variant_view v.now) result ≡ variant_in (slice_get (setting_of self.entry).types ty.0) variant.0 }
    {
        match self.program.tyenv.types.get(ty.index()) {
            Some(Type::Enum { variants, .. }) => variants.get(variant.index()),
            _ => None,
        }
    }

    /// The fields of a variant or a struct, where the type has it.
    pub fn fields(self, owner: Owner) -> Option<&'a Fields>
        ensures { fields_or_unit (option_map (λ f. fields_view f.now) result) ≡ fields_of (program_in (setting_of self.entry)) (owner_view owner) }
    {
        match owner {
            Owner::Variant { ty, variant } => match self.variant(ty, variant) {
                Some(variant) => Some(&variant.fields),
                None => None,
            },
            Owner::Struct { ty } => match self.program.tyenv.types.get(ty.index()) {
                Some(Type::Struct { fields, .. }) => Some(fields),
                _ => None,
            },
        }
    }

    pub(crate) fn push_field(
        self,
        out: &mut String,
        owner: Owner,
        index: usize,
    ) -> Result<(), AllocError>
        ensures { OnOk result (string_bytes out.new ≡ string_bytes out.old
            ++ field_written (setting_of self.entry).names (fields_of (program_in (setting_of self.entry)) (owner_view owner)) index) }
    {
        match self.fields(owner) {
            Some(Fields::Struct(named)) => self.push_field_name(
                out,
                field_at(&named.fields, index),
            ),
            Some(Fields::Unit | Fields::Tuple(_)) | None => Ok(()),
        }
    }

    fn push_field_name(
        self,
        out: &mut String,
        field: Option<&StructField>,
    ) -> Result<(), AllocError>
        ensures { OnOk result (string_bytes out.new ≡ string_bytes out.old
            ++ one_field_written (setting_of self.entry).names (option_map (λ f. field_view f.now) field.entry)) }
    {
        match field {
            Some(field) => push_name(out, self.program.tyenv.text_of(field.name)),
            None => Ok(()),
        }
    }

    pub(crate) fn push_function(self, out: &mut String, callee: Callee) -> Result<(), AllocError>
        ensures { OnOk result (string_bytes out.new ≡ string_bytes out.old ++ function_written (setting_of self.entry) (callee_view callee)) }
    {
        self.push_function_of(out, self.outside_name(callee), callee.term())
    }

    // Adds a function of a term: one from outside, which has a name, after `C::`.
    fn push_function_of(
        self,
        out: &mut String,
        name: Option<Sym>,
        term: TermId,
    ) -> Result<(), AllocError>
        ensures { OnOk result (string_bytes out.new ≡ string_bytes out.old
            ++ function_text (setting_of self.entry).names (option_map (λ s. s.0) name) (slice_get (setting_of self.entry).terms term.0)) }
    {
        match name {
            Some(name) => {
                out.push_str("C::")?;
                push_name(out, self.program.tyenv.text_of(name))
            }
            None => {
                out.push_str("constructor_")?;
                self.push_term(out, term)
            }
        }
    }

    // Adds a term's name as a part of a name.
    fn push_term(self, out: &mut String, id: TermId) -> Result<(), AllocError>
        ensures { OnOk result (string_bytes out.new ≡ string_bytes out.old
            ++ term_part (setting_of self.entry).names (slice_get (setting_of self.entry).terms id.0)) }
    {
        match self.program.terms.get(id.index()) {
            Some(term) => push_part(out, self.program.tyenv.text_of(term.name)),
            None => Ok(()),
        }
    }

    // Adds what the answers of a function with many are put into, before there is one.
    pub(crate) fn push_list(self, out: &mut String, callee: Callee) -> Result<(), AllocError>
        ensures { OnOk result (string_bytes out.new ≡ string_bytes out.old ++ list_written (setting_of self.entry) (callee_view callee)) }
    {
        self.push_list_of(out, self.outside_name(callee))
    }

    // Adds the same of a function from outside, which has a name, or of another.
    fn push_list_of(self, out: &mut String, name: Option<Sym>) -> Result<(), AllocError>
        ensures { OnOk result (string_bytes out.new ≡ string_bytes out.old
            ++ list_text (setting_of self.entry).names (option_map (λ s. s.0) name)) }
    {
        match name {
            Some(name) => self.push_own_list(out, name),
            None => out.push_str("ContextIterWrapper::<ConstructorVec<_>, _>::default()"),
        }
    }

    // Adds the list of a function from outside.
    fn push_own_list(self, out: &mut String, name: Sym) -> Result<(), AllocError>
        ensures { OnOk result (string_bytes out.new ≡ string_bytes out.old
            ++ list_text (setting_of self.entry).names (Some name.0)) }
    {
        out.push_str("C::")?;
        push_part(out, self.program.tyenv.text_of(name))?;
        out.push_str("_returns::default()")
    }

    fn outside_name(self, callee: Callee) -> Option<Sym>
        ensures { option_map (λ s. s.0) result ≡ outside_of (program_in (setting_of self.entry)) (callee_view callee) }
    {
        match self.program.terms.get(callee.term().index()) {
            Some(term) => outside_in(&term.kind, callee),
            None => None,
        }
    }

    // Adds the panic of a term that isn't partial, where no rule matched.
    pub(crate) fn push_panic(self, out: &mut String) -> Result<(), AllocError>
        ensures { OnOk result (string_bytes out.new ≡ string_bytes out.old ++ panic_written (setting_of self.entry)) }
    {
        self.push_told(
            out,
            "unreachable",
            "no rule matched for term {} at {}; should it be partial?",
            self.term.decl_pos,
        )
    }

    // Adds what tells the log that the rule of a place is taken.
    pub(crate) fn push_log(self, out: &mut String, pos: Pos) -> Result<(), AllocError>
        ensures { OnOk result (string_bytes out.new ≡ string_bytes out.old ++ log_written (setting_of self.entry) (position pos)) }
    {
        self.push_told(out, "log::debug", "ISLE: {} by the rule at {}", pos)?;
        out.push_str(";")
    }

    // Adds a call of a macro with a message, the term's name and a place.
    fn push_told(
        self,
        out: &mut String,
        macro_name: &str,
        message: &str,
        pos: Pos,
    ) -> Result<(), AllocError>
        ensures { OnOk result (string_bytes out.new ≡ string_bytes out.old
            ++ told macro_name.now message.now (text_of (setting_of self.entry).names (setting_of self.entry).term_name)
            (place_written (setting_of self.entry).sources (position pos))) }
    {
        out.push_str(macro_name)?;
        out.push_str("!(")?;
        push_quoted(out, message)?;
        out.push_str(", ")?;
        push_quoted(out, self.program.tyenv.text_of(self.term.name))?;
        out.push_str(", ")?;
        self.program.push_quoted_place(out, pos)?;
        out.push(')')
    }
}

impl Callee {
    /// The term that a function is of.
    pub fn term(self) -> TermId
        ensures { result.0 ≡ term_of (callee_view self) }
    {
        match self {
            Callee::Extractor(term) | Callee::Constructor(term) => term,
        }
    }
}

fn field_at(fields: &[StructField], index: usize) -> Option<&StructField>
    ensures { option_map (λ f. field_view f.now) result ≡ slice_get (map field_view fields.now) index }
{
    fields.get(index)
}

// The built-in type of integers that a type is.
fn int_of(ty: &Type) -> Option<IntType>
    ensures { option_map int_place result ≡ int_place_in (Some (type_view ty.now)) }
{
    match ty {
        Type::Builtin(builtin) => int_of_builtin(*builtin),
        Type::Primitive(..) | Type::Enum { .. } | Type::Struct { .. } => None,
    }
}

#[tactic(auto, using(crate::proofs::IntegerTexts::int_place_at))]
fn int_of_builtin(builtin: BuiltinType) -> Option<IntType>
    ensures { option_map int_place result ≡ int_place_in (Some (builtin_type (builtin_place builtin))) }
{
    match builtin {
        BuiltinType::Int(int) => Some(int),
        BuiltinType::Bool => None,
    }
}

// The name of a function from outside, of a term of this kind.
fn outside_in(kind: &TermKind, callee: Callee) -> Option<Sym>
    ensures { option_map (λ s. s.0) result ≡ outside_in (kind_view kind.now) (callee_view callee) }
{
    match kind {
        TermKind::Decl {
            constructor_kind,
            extractor_kind,
            ..
        } => match callee {
            Callee::Extractor(_) => outside_extractor(extractor_kind),
            Callee::Constructor(_) => outside_constructor(constructor_kind),
        },
        TermKind::EnumVariant { .. } | TermKind::Struct => None,
    }
}

fn outside_extractor(kind: &Option<ExtractorKind>) -> Option<Sym>
    ensures { option_map (λ s. s.0) result ≡ outside_extractor (option_map extractor_view kind.now) }
{
    match kind {
        Some(ExtractorKind::ExternalExtractor { name, .. }) => Some(*name),
        Some(ExtractorKind::InternalExtractor { .. }) | None => None,
    }
}

fn outside_constructor(kind: &Option<ConstructorKind>) -> Option<Sym>
    ensures { option_map (λ s. s.0) result ≡ outside_constructor (option_map constructor_view kind.now) }
{
    match kind {
        Some(ConstructorKind::ExternalConstructor { name }) => Some(*name),
        Some(ConstructorKind::InternalConstructor) | None => None,
    }
}
