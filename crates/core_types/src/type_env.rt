//! The table of all names and types.

ghost use Rattle.std.specs.Prelude.{◌≡◌, ℕ, List, ◌++◌, ◌∷◌, [], map, option_map, IfOk, OnOk, OnErr, string_bytes, length, Some, IsSome, slice_get};
ghost use Rattle.std.specs.HashMap.{get_by_text};
ghost use Rattle.model.specs.lists.Names.{number, with_name, number_if_met};
ghost use Rattle.model.specs.lists.Signatures.{text_of};
ghost use Rattle.model.specs.claims.Questions.{IsWellFormedEnvironment, variant_by_id};
ghost use Rattle.core_types.specs.EnvViews.{environment_view};
ghost use Rattle.core_types.specs.Envs.{names_of, symbol_of, type_of_name, IsInterned};
ghost use Rattle.core_types.specs.TypeViews.{type_views, variant_view};

use crate::ids::{Sym, TypeId, VariantId};
use crate::types::{Type, Variant};
use core_syntax::stablemapset::StableMap;
use core_syntax::syntax::{Error, Ident};
use std::alloc::AllocError;
use std::collections::HashMap;

/// The names and the types that definitions speak of. Upstream's `TypeEnv`.
#[derive(Debug)]
pub struct TypeEnv {
    /// The names: the place of each is its id. No name stands twice, so equal names have equal ids.
    pub syms: Vec<String>,
    /// The id of each name.
    pub sym_map: HashMap<String, Sym>,
    /// The types: the place of each is its id.
    pub types: Vec<Type>,
    /// The type of each type's name. Names of other things are not in it.
    pub type_map: StableMap<Sym, TypeId>,
    /// The type of each constant's name: a constant is known by its name alone, its value is outside.
    pub const_types: StableMap<Sym, TypeId>,
    /// What was found wrong in a reading that is not finished. Empty in each table that is answered.
    pub errors: Vec<Error>,
}

impl TypeEnv {
    /// The id of a name, or None where it isn't known. Takes no memory. Upstream's `TypeEnv::intern`.
    pub fn intern(&self, ident: &Ident) -> Option<Sym>
        ensures looked_up { option_map (λ s. s.0) result ≡ symbol_of self.now (string_bytes ident.now.0) }
        ensures place { IsInterned self.now
            → option_map (λ s. s.0) result ≡ number_if_met (names_of self.now) (string_bytes ident.now.0) }
    {
        self.look_up_text(ident.0.as_str())
    }

    /// The id of a name, which is the next one where the name isn't known yet. Upstream's private
    /// `TypeEnv::intern_mut`.
    ///
    /// Condition: no name stands twice in `syms`, and `sym_map` has the place of each, as in every
    /// environment of `from_ast` and `try_default`.
    ///
    /// A well-formed environment stays so.
    ///
    /// # Errors
    ///
    /// Where memory is refused. Nothing has changed then.
    pub fn intern_mut(&mut self, ident: &Ident) -> Result<Sym, AllocError>
        requires { IsInterned self.old }
        ensures names { OnOk result (names_of self.new ≡ with_name (names_of self.old) (string_bytes ident.now.0)) }
        ensures number { IfOk result (λ s. s.0 ≡ number (names_of self.old) (string_bytes ident.now.0)) }
        ensures inverse { IsInterned self.new }
        ensures err_names { OnErr result (names_of self.new ≡ names_of self.old) }
        ensures err_symbols { OnErr result ((q : List ℕ) → symbol_of self.new q ≡ symbol_of self.old q) }
        ensures types { self.new.types ≡ self.old.types }
        ensures type_map { self.new.type_map ≡ self.old.type_map }
        ensures const_types { self.new.const_types ≡ self.old.const_types }
        ensures errors { self.new.errors ≡ self.old.errors }
        ensures well_formed { IsWellFormedEnvironment (environment_view self.old) → IsWellFormedEnvironment (environment_view self.new) }
    {
        self.intern_text(ident.0.as_str())
    }

    /// The type of a name, or None where it isn't a type's. Takes no memory. Upstream's
    /// `TypeEnv::get_type_by_name`.
    pub fn get_type_by_name(&self, ident: &Ident) -> Option<TypeId>
        ensures { option_map (λ t. t.0) result ≡ type_of_name self.now (string_bytes ident.now.0) }
    {
        let sym = self.intern(ident)?;
        self.type_map.get(&sym).copied()
    }

    /// The variant of this id of the type of this id. Condition: the type is an enum of this table and
    /// has that variant. Takes no memory. Upstream's `TypeEnv::get_variant`.
    pub fn get_variant(&self, ty: TypeId, variant: VariantId) -> &Variant
        requires { IsSome (variant_by_id (type_views self.now.types.items) ty.0 variant.0) }
        ensures { Some (variant_view result.now) ≡ variant_by_id (type_views self.now.types.items) ty.0 variant.0 }
    {
        let Type::Enum { variants, .. } = &self.types[ty.index()] else {
            unreachable!()
        };
        &variants[variant.index()]
    }

    /// The text of a name, or the empty text where the id is no name's. Takes no memory.
    pub fn text_of(&self, name: Sym) -> &str
        ensures { result.now ≡ text_of (names_of self.now) name.0 }
    {
        match self.syms.get(name.index()) {
            Some(text) => text.as_str(),
            None => "",
        }
    }

    fn look_up_text(&self, name: &str) -> Option<Sym>
        ensures looked_up { option_map (λ s. s.0) result ≡ symbol_of self.now name.now }
        ensures place { IsInterned self.now
            → option_map (λ s. s.0) result ≡ number_if_met (names_of self.now) name.now }
    {
        self.sym_map.get(name).copied()
    }

    // The id of the name of a text, the next one where the text isn't known yet.
    pub(crate) fn intern_text(&mut self, name: &str) -> Result<Sym, AllocError>
        requires { IsInterned self.old }
        ensures names { OnOk result (names_of self.new ≡ with_name (names_of self.old) name.now) }
        ensures number { IfOk result (λ s. s.0 ≡ number (names_of self.old) name.now) }
        ensures inverse { IsInterned self.new }
        ensures err_names { OnErr result (names_of self.new ≡ names_of self.old) }
        ensures err_symbols { OnErr result ((q : List ℕ) → symbol_of self.new q ≡ symbol_of self.old q) }
        ensures types { self.new.types ≡ self.old.types }
        ensures type_map { self.new.type_map ≡ self.old.type_map }
        ensures const_types { self.new.const_types ≡ self.old.const_types }
        ensures errors { self.new.errors ≡ self.old.errors }
    {
        if let Some(sym) = self.look_up_text(name) {
            return Ok(sym);
        }
        self.add_name(name)
    }

    // Gives a name that isn't known yet the next id.
    fn add_name(&mut self, name: &str) -> Result<Sym, AllocError>
        requires inverse { IsInterned self.old }
        requires absent { (k : ℕ) → slice_get (names_of self.old) k ≡ Some name.now → ⊥ }
        ensures names { OnOk result (names_of self.new ≡ names_of self.old ++ name.now ∷ []) }
        ensures number { IfOk result (λ s. s.0 ≡ length (names_of self.old)) }
        ensures inverse { IsInterned self.new }
        ensures err_names { OnErr result (names_of self.new ≡ names_of self.old) }
        ensures err_symbols { OnErr result ((q : List ℕ) → symbol_of self.new q ≡ symbol_of self.old q) }
        ensures types { self.new.types ≡ self.old.types }
        ensures type_map { self.new.type_map ≡ self.old.type_map }
        ensures const_types { self.new.const_types ≡ self.old.const_types }
        ensures errors { self.new.errors ≡ self.old.errors }
    {
        let alloc = *self.syms.allocator();
        let number = Sym(self.syms.len());
        let sym = String::from_str(alloc, name)?;
        let key = String::from_str(alloc, name)?;
        self.syms.reserve(1)?;
        self.sym_map.insert(key, number)?;
        self.syms.push(sym).unwrap();
        Ok(number)
    }
}

// Written out, and so proved here once.
impl Drop for TypeEnv {
    fn drop(self) {
        let TypeEnv {
            syms: _,
            sym_map: _,
            types: _,
            type_map: _,
            const_types: _,
            errors: _,
        } = self;
    }
}
