//! The types of terms.
ghost use Rattle.std.specs.Prelude.{◌≡◌, ◌++◌, map, IfOk, OnOk};
ghost use Rattle.core_terms.specs.TermViews.{term_views};
ghost use Rattle.spec_asked.specs.Tables.{entry_types, signature_view};

use core_terms::Term;
use spec_steps::demands::Signature;
use std::alloc::{AllocError, Global};

// Adds the types of terms.
#[tactic(auto, using(crate::proofs::DemandSteps::signature_steps))]
fn add_signatures(alloc: Global, terms: &[Term], out: &mut Vec<Signature>) -> Result<(), AllocError>
    ensures { OnOk result (map signature_view out.new.items ≡ map signature_view out.old.items ++ map entry_types (term_views terms.now)) }
{
    match terms {
        [] => Ok(()),
        [term, rest @ ..] => {
            out.push(Signature {
                args: Vec::from_slice(alloc, &term.arg_tys)?,
                result: term.ret_ty,
            })?;
            Ok(add_signatures(alloc, rest, out)?)
        }
    }
}

/// The types of terms, by their numbers.
///
/// # Errors
///
/// Where memory is refused.
pub fn signatures_of(alloc: Global, terms: &[Term]) -> Result<Vec<Signature>, AllocError>
    ensures { IfOk result (λ out. map signature_view out.items ≡ map entry_types (term_views terms.now)) }
{
    let mut out = Vec::new(alloc);
    add_signatures(alloc, terms, &mut out)?;
    Ok(out)
}
