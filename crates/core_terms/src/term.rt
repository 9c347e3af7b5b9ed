//! Terms: their types, how they are declared, and what makes or takes them apart.

ghost use Rattle.std.specs.Prelude.{◌≡◌, true};
ghost use Rattle.core_terms.specs.Terms.{is_variant_term, is_struct_term, is_partial_term, is_recursive_term, has_constructor_term, has_extractor_term, has_external_extractor_term, has_external_constructor_term, has_internal_constructor_term};
ghost use Rattle.core_terms.specs.Externing.{made_by_this, taken_by_this, with_kind};
ghost use Rattle.core_terms.specs.TermViews.{constructor_view, extractor_view, term_view};

use core_syntax::syntax::{Pattern, Pos};
use core_types::{Sym, TermId, TypeId, VariantId};

/// A term. A constructor makes a value of its type from values of the argument types, an extractor
/// takes one apart into such values, and a term may be both.
#[derive(Clone, Debug, PartialEq, Eq)]
pub struct Term {
    /// The id of the term: its place in `TermEnv::terms`.
    pub id: TermId,
    /// Where the term is declared.
    pub decl_pos: Pos,
    /// The name of the term.
    pub name: Sym,
    /// The types of the arguments: what a constructor takes, and what an extractor gives.
    pub arg_tys: Vec<TypeId>,
    /// The type of what a constructor makes, and of what an extractor takes apart.
    pub ret_ty: TypeId,
    /// What the term is, and with it what makes its values and takes them apart.
    pub kind: TermKind,
}

/// How a term is declared. Rules are checked against these flags, and calls are made by them.
#[derive(Clone, Copy, PartialEq, Eq, Debug)]
pub struct TermFlags {
    /// Whether the term has no effects: only then may an if-let call it, and only then may one call stand
    /// for two equal ones.
    pub pure: bool,
    /// Whether the term may give many values, each of which a rule goes on with.
    pub multi: bool,
    /// Whether the term may give no value: in an if-let the rule then doesn't match, on a right side the
    /// whole term fails.
    pub partial: bool,
    /// Whether the term may call itself. It is carried and shown, never checked.
    pub rec: bool,
}

/// What a term is.
#[derive(Clone, Debug, PartialEq, Eq)]
pub enum TermKind {
    /// A variant of an enum.
    EnumVariant {
        /// The id of the variant in its enum, which is the term's result type.
        variant: VariantId,
    },
    /// A struct: made of its fields, and taken apart into them without a test.
    Struct,
    /// A declared term.
    Decl {
        /// How the term is declared.
        flags: TermFlags,
        /// What makes a value, where the term has a constructor. Only then may it stand in an expression.
        constructor_kind: Option<ConstructorKind>,
        /// What takes a value apart, where the term has an extractor. Only then may it stand in a pattern.
        extractor_kind: Option<ExtractorKind>,
    },
}

/// What makes a value of a declared term.
#[derive(Clone, Debug, PartialEq, Eq)]
pub enum ConstructorKind {
    /// The rules of the term: for these a tree is made.
    InternalConstructor,
    /// An external function.
    ExternalConstructor {
        /// The name of the function.
        name: Sym,
    },
}

/// What takes a value of a declared term apart.
#[derive(Clone, Debug, PartialEq, Eq)]
pub enum ExtractorKind {
    /// A pattern with places for the arguments, which stands for the term wherever a pattern uses it.
    InternalExtractor {
        /// The pattern.
        template: Pattern,
    },
    /// An external function.
    ExternalExtractor {
        /// The name of the function.
        name: Sym,
        /// Whether the function always answers: what it gives is then there without a test.
        infallible: bool,
        /// Where the extractor is declared, for the error that a second one gets.
        pos: Pos,
    },
}

impl TermFlags {
    /// The flags of a term that a rule's left side uses: it has to be pure, and may give no value.
    /// Nothing else changes.
    pub fn on_lhs(mut self) -> TermFlags
        ensures { result ≡ record self { pure = true; partial = true } }
    {
        self.pure = true;
        self.partial = true;
        self
    }
}

impl Term {
    /// The type of what the term makes.
    pub fn ty(&self) -> TypeId
        ensures { result.0 ≡ (term_view self.now).ret_ty }
    {
        self.ret_ty
    }

    /// Whether the term is a variant of an enum.
    pub fn is_enum_variant(&self) -> bool
        ensures { result ≡ is_variant_term (term_view self.now) }
    {
        matches!(self.kind, TermKind::EnumVariant { .. })
    }

    /// Whether the term is a struct.
    pub fn is_struct(&self) -> bool
        ensures { result ≡ is_struct_term (term_view self.now) }
    {
        matches!(self.kind, TermKind::Struct)
    }

    /// Whether the term is declared as one that may give no value.
    pub fn is_partial(&self) -> bool
        ensures { result ≡ is_partial_term (term_view self.now) }
    {
        match &self.kind {
            TermKind::Decl { flags, .. } => flags.partial,
            TermKind::EnumVariant { .. } | TermKind::Struct => false,
        }
    }

    /// Whether the term is declared as one that may call itself.
    pub fn is_recursive(&self) -> bool
        ensures { result ≡ is_recursive_term (term_view self.now) }
    {
        match &self.kind {
            TermKind::Decl { flags, .. } => flags.rec,
            TermKind::EnumVariant { .. } | TermKind::Struct => false,
        }
    }

    /// Whether something makes a value of the term: all but declared terms without a constructor.
    pub fn has_constructor(&self) -> bool
        ensures { result ≡ has_constructor_term (term_view self.now) }
    {
        match &self.kind {
            TermKind::Decl {
                constructor_kind,
                ..
            } => constructor_kind.is_some(),
            TermKind::EnumVariant { .. } | TermKind::Struct => true,
        }
    }

    /// Whether something takes a value of the term apart: all but declared terms without an extractor.
    pub fn has_extractor(&self) -> bool
        ensures { result ≡ has_extractor_term (term_view self.now) }
    {
        match &self.kind {
            TermKind::Decl { extractor_kind, .. } => extractor_kind.is_some(),
            TermKind::EnumVariant { .. } | TermKind::Struct => true,
        }
    }

    /// Whether an external function takes a value of the term apart.
    pub fn has_external_extractor(&self) -> bool
        ensures { result ≡ has_external_extractor_term (term_view self.now) }
    {
        matches!(
            &self.kind,
            TermKind::Decl {
                extractor_kind: Some(ExtractorKind::ExternalExtractor { .. }),
                ..
            }
        )
    }

    /// Whether an external function makes a value of the term.
    pub fn has_external_constructor(&self) -> bool
        ensures { result ≡ has_external_constructor_term (term_view self.now) }
    {
        matches!(
            &self.kind,
            TermKind::Decl {
                constructor_kind: Some(ConstructorKind::ExternalConstructor { .. }),
                ..
            }
        )
    }

    /// Whether rules make a value of the term.
    pub fn has_internal_constructor(&self) -> bool
        ensures { result ≡ has_internal_constructor_term (term_view self.now) }
    {
        matches!(
            &self.kind,
            TermKind::Decl {
                constructor_kind: Some(ConstructorKind::InternalConstructor),
                ..
            }
        )
    }
}

impl Term {
    // Gives a declared term a constructor.
    pub(crate) fn set_constructor(&mut self, kind: ConstructorKind)
        ensures { term_view self.new ≡ with_kind (made_by_this (constructor_view kind)) (term_view self.old) }
    {
        if let TermKind::Decl {
            constructor_kind,
            ..
        } = &mut self.kind
        {
            *constructor_kind = Some(kind);
        }
    }

    // Gives a declared term an extractor.
    pub(crate) fn set_extractor(&mut self, kind: ExtractorKind)
        ensures { term_view self.new ≡ with_kind (taken_by_this (extractor_view kind)) (term_view self.old) }
    {
        if let TermKind::Decl { extractor_kind, .. } = &mut self.kind {
            *extractor_kind = Some(kind);
        }
    }
}

// Written out, and so proved here once: a derived `Drop` is proved again in each crate that drops the
// type.
impl Drop for Term {
    fn drop(self) {
        let Term {
            id: _,
            decl_pos: _,
            name: _,
            arg_tys: _,
            ret_ty: _,
            kind: _,
        } = self;
    }
}

impl Drop for TermKind {
    fn drop(self) {
        match self {
            TermKind::EnumVariant { variant: _ } => {}
            TermKind::Struct => {}
            TermKind::Decl {
                flags: _,
                constructor_kind: _,
                extractor_kind: _,
            } => {}
        }
    }
}

impl Drop for ConstructorKind {
    fn drop(self) {
        match self {
            ConstructorKind::InternalConstructor => {}
            ConstructorKind::ExternalConstructor { name: _ } => {}
        }
    }
}

impl Drop for ExtractorKind {
    fn drop(self) {
        match self {
            ExtractorKind::InternalExtractor { template: _ } => {}
            ExtractorKind::ExternalExtractor {
                name: _,
                infallible: _,
                pos: _,
            } => {}
        }
    }
}
