//! The signatures of the functions that stand for terms outside.

ghost use Rattle.std.specs.Prelude.{◌≡◌, ◌++◌, ◌∷◌, [], codes, IfOk, map, option_map, string_bytes};
ghost use Rattle.model.specs.lists.Signatures.{extractor_signature, constructor_signature, extractor_gives, constructor_gives};
ghost use Rattle.core_types.specs.Envs.{names_of};
ghost use Rattle.core_terms.specs.TermViews.{flags_view, term_view};
ghost use Rattle.core_terms.specs.SignatureViews.{giving_view, signature_view};

use crate::term::{ConstructorKind, ExtractorKind, Term, TermFlags, TermKind};
use core_types::{TypeEnv, TypeId};
use std::alloc::{AllocError, Global};

/// How many values a function gives.
#[derive(Clone, Copy, PartialEq, Eq, Debug)]
pub enum ReturnKind {
    /// One.
    Plain,
    /// One or none.
    Option,
    /// Any number.
    Iterator,
}

/// The signature of a function that stands for a term.
#[derive(Clone, Debug)]
pub struct ExternalSig {
    /// The name of the function.
    pub func_name: String,
    /// The name of the function, with the trait that it belongs to before it where it is external.
    pub full_name: String,
    /// The types of the function's parameters.
    pub param_tys: Vec<TypeId>,
    /// The types of what the function gives.
    pub ret_tys: Vec<TypeId>,
    /// How many values the function gives.
    pub ret_kind: ReturnKind,
}

// Written out, and so proved here once: a derived `Drop` is proved again in each crate that drops the
// type.
impl Drop for ExternalSig {
    fn drop(self) {
        let ExternalSig {
            func_name: _,
            full_name: _,
            param_tys: _,
            ret_tys: _,
            ret_kind: _,
        } = self;
    }
}

impl Term {
    /// The signature of the function that takes a value of the term apart: None where the term has no
    /// extractor, and of variants and structs. `tyenv` is the environment that the term was read with: where
    /// it lacks a name of the term, the empty text stands for it. An error where memory is refused.
    pub fn extractor_sig(
        &self,
        alloc: Global,
        tyenv: &TypeEnv,
    ) -> Result<Option<ExternalSig>, AllocError>
        ensures { IfOk result (λ o. option_map signature_view o ≡ extractor_signature (names_of tyenv.now) (term_view self.now)) }
    {
        let TermKind::Decl {
            flags,
            extractor_kind: Some(kind),
            ..
        } = &self.kind
        else {
            return Ok(None);
        };
        let (names, infallible) = match kind {
            ExtractorKind::InternalExtractor { .. } => {
                let name = tyenv.text_of(self.name);
                (inside_names(alloc, "extractor_", name)?, false)
            }
            ExtractorKind::ExternalExtractor {
                name,
                infallible,
                ..
            } => (outside_names(alloc, tyenv.text_of(*name))?, *infallible),
        };
        let ret_kind = extractor_kind_of(*flags, infallible);
        let taken = one_type(alloc, self.ret_ty)?;
        let given = copied_types(alloc, &self.arg_tys)?;
        Ok(Some(signature(names, taken, given, ret_kind)))
    }

    /// The signature of the function that makes a value of the term: None where the term has no
    /// constructor, and of variants and structs. `tyenv` is the environment that the term was read with:
    /// where it lacks a name of the term, the empty text stands for it. An error where memory is refused.
    pub fn constructor_sig(
        &self,
        alloc: Global,
        tyenv: &TypeEnv,
    ) -> Result<Option<ExternalSig>, AllocError>
        ensures { IfOk result (λ o. option_map signature_view o ≡ constructor_signature (names_of tyenv.now) (term_view self.now)) }
    {
        let TermKind::Decl {
            flags,
            constructor_kind: Some(kind),
            ..
        } = &self.kind
        else {
            return Ok(None);
        };
        let names = match kind {
            ConstructorKind::InternalConstructor => {
                inside_names(alloc, "constructor_", tyenv.text_of(self.name))?
            }
            ConstructorKind::ExternalConstructor { name } => {
                outside_names(alloc, tyenv.text_of(*name))?
            }
        };
        let ret_kind = constructor_kind_of(*flags);
        let taken = copied_types(alloc, &self.arg_tys)?;
        let given = one_type(alloc, self.ret_ty)?;
        Ok(Some(signature(names, taken, given, ret_kind)))
    }
}

// A function's name, and the name with the trait that it belongs to.
#[derive(Drop)]
struct FunctionNames {
    own: String,
    full: String,
}

// The names of a function of the project: both are the term's name after a word.
fn inside_names(alloc: Global, word: &str, name: &str) -> Result<FunctionNames, AllocError>
    ensures own { IfOk result (λ n. string_bytes n.own ≡ word.now ++ name.now) }
    ensures full { IfOk result (λ n. string_bytes n.full ≡ word.now ++ name.now) }
{
    let own = format!(in alloc; "{word}{name}")?;
    let full = format!(in alloc; "{word}{name}")?;
    Ok(FunctionNames { own, full })
}

fn outside_names(alloc: Global, name: &str) -> Result<FunctionNames, AllocError>
    ensures own { IfOk result (λ n. string_bytes n.own ≡ name.now) }
    ensures full { IfOk result (λ n. string_bytes n.full ≡ codes "C::" ++ name.now) }
{
    let own = String::from_str(alloc, name)?;
    let full = format!(in alloc; "C::{name}")?;
    Ok(FunctionNames { own, full })
}

fn signature(
    names: FunctionNames,
    param_tys: Vec<TypeId>,
    ret_tys: Vec<TypeId>,
    ret_kind: ReturnKind,
) -> ExternalSig
    ensures { signature_view result ≡ record {
      func_name = string_bytes names.own;
      full_name = string_bytes names.full;
      param_tys = map (λ t. t.0) param_tys.items;
      ret_tys = map (λ t. t.0) ret_tys.items;
      ret_kind = giving_view ret_kind;
    } }
{
    ExternalSig {
        func_name: names.own,
        full_name: names.full,
        param_tys,
        ret_tys,
        ret_kind,
    }
}

// How many values an extractor gives.
fn extractor_kind_of(flags: TermFlags, infallible: bool) -> ReturnKind
    ensures { giving_view result ≡ extractor_gives (flags_view flags) infallible }
{
    if flags.multi {
        ReturnKind::Iterator
    } else if infallible {
        ReturnKind::Plain
    } else {
        ReturnKind::Option
    }
}

// How many values a constructor gives.
fn constructor_kind_of(flags: TermFlags) -> ReturnKind
    ensures { giving_view result ≡ constructor_gives (flags_view flags) }
{
    if flags.multi {
        ReturnKind::Iterator
    } else if flags.partial {
        ReturnKind::Option
    } else {
        ReturnKind::Plain
    }
}

fn one_type(alloc: Global, ty: TypeId) -> Result<Vec<TypeId>, AllocError>
    ensures { IfOk result (λ v. map (λ t. t.0) v.items ≡ ty.0 ∷ []) }
{
    let mut types = Vec::new(alloc);
    types.push(ty)?;
    Ok(types)
}

fn copied_types(alloc: Global, types: &[TypeId]) -> Result<Vec<TypeId>, AllocError>
    ensures { IfOk result (λ v. v.items ≡ types.now) }
{
    Vec::from_slice(alloc, types)
}
