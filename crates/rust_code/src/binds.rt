//! The statements that bind sites.

ghost use Rattle.std.specs.Prelude.{◌≡◌, IfOk, OnOk, Some, slice_get};
ghost use Rattle.model_code.specs.Code.{Block};
ghost use Rattle.model_code.specs.TreeCode.{bind_code, binds_code};
ghost use Rattle.model.specs.sites.Sites.{constructor_site, make_struct_site, make_variant_site};
ghost use Rattle.core_rule_sets.specs.SiteViews.{site_view, site_views};
ghost use Rattle.rust_code.specs.CodeViews.{before, statement_view};
ghost use Rattle.rust_code.specs.HeldViews.{passes_in};

use crate::code::{BoundExpr, Statement};
use crate::stage::Stage;
use crate::uses::{kept_use, kept_uses, lent_use, lent_uses};
use core_rule_sets::trie_again::{Binding, BindingId};
use core_types::{TermId, TypeId, VariantId};
use std::alloc::AllocError;

#[tactic(auto, using(crate::proofs::CodeBridges::code_steps, crate::proofs::HeldPasses::arguments_lent))]
fn bind_call(
    stage: &Stage<'_>,
    site: BindingId,
    term: TermId,
    parameters: &[BindingId],
    instance: u32,
) -> Result<Statement, AllocError>
    ensures { IfOk result (λ s. statement_view s
        ≡ bind_code (site_views stage.now.sites.now) (passes_in stage.now) site (Some (constructor_site term.0 parameters.now instance))) }
{
    Ok(Statement::Bind {
        site,
        expr: BoundExpr::Call {
            term,
            args: lent_uses(stage, parameters)?,
            instance,
        },
    })
}

#[tactic(auto, using(crate::proofs::CodeBridges::code_steps))]
fn bind_variant(
    stage: &Stage<'_>,
    site: BindingId,
    ty: TypeId,
    variant: VariantId,
    fields: &[BindingId],
) -> Result<Statement, AllocError>
    ensures { IfOk result (λ s. statement_view s
        ≡ bind_code (site_views stage.now.sites.now) (passes_in stage.now) site (Some (make_variant_site ty.0 variant.0 fields.now))) }
{
    Ok(Statement::Bind {
        site,
        expr: BoundExpr::VariantOf {
            ty,
            variant,
            fields: kept_uses(stage, fields)?,
        },
    })
}

#[tactic(auto, using(crate::proofs::CodeBridges::code_steps))]
fn bind_struct(
    stage: &Stage<'_>,
    site: BindingId,
    ty: TypeId,
    fields: &[BindingId],
) -> Result<Statement, AllocError>
    ensures { IfOk result (λ s. statement_view s
        ≡ bind_code (site_views stage.now.sites.now) (passes_in stage.now) site (Some (make_struct_site ty.0 fields.now))) }
{
    Ok(Statement::Bind {
        site,
        expr: BoundExpr::StructOf {
            ty,
            fields: kept_uses(stage, fields)?,
        },
    })
}

// What binds a site that stands for this. No run comes to the binding of what an arm or a loop alone can bind.
#[tactic(auto, using(crate::proofs::CodeBridges::code_steps))]
fn bind_binding(
    stage: &Stage<'_>,
    site: BindingId,
    binding: &Binding,
) -> Result<Statement, AllocError>
    ensures { IfOk result (λ s. statement_view s
        ≡ bind_code (site_views stage.now.sites.now) (passes_in stage.now) site (Some (site_view binding.now))) }
{
    match binding {
        Binding::ConstBool { val, ty } => Ok(Statement::Bind {
            site,
            expr: BoundExpr::TruthWritten { val: *val, ty: *ty },
        }),
        Binding::Extractor { term, parameter } => Ok(Statement::Bind {
            site,
            expr: BoundExpr::Extraction {
                term: *term,
                value: lent_use(stage, *parameter),
            },
        }),
        Binding::Constructor {
            term,
            parameters,
            instance,
        } => Ok(bind_call(stage, site, *term, parameters, *instance)?),
        Binding::MakeVariant {
            ty,
            variant,
            fields,
        } => Ok(bind_variant(stage, site, *ty, *variant, fields)?),
        Binding::MakeStruct { ty, fields } => Ok(bind_struct(stage, site, *ty, fields)?),
        Binding::MakeSome { inner } => Ok(Statement::Bind {
            site,
            expr: BoundExpr::SomeOf {
                value: kept_use(stage, *inner),
            },
        }),
        Binding::MatchSome { source } => Ok(Statement::BindSome {
            site,
            value: lent_use(stage, *source),
        }),
        Binding::ConstInt { .. } => Ok(Statement::NoWay),
        Binding::ConstPrim { .. } => Ok(Statement::NoWay),
        Binding::Argument { .. } => Ok(Statement::NoWay),
        Binding::Iterator { .. } => Ok(Statement::NoWay),
        Binding::MatchVariant { .. } => Ok(Statement::NoWay),
        Binding::ExtractStruct { .. } => Ok(Statement::NoWay),
        Binding::MatchTuple { .. } => Ok(Statement::NoWay),
    }
}

#[tactic(auto, using(crate::proofs::CodeBridges::code_steps))]
fn bind_site(stage: &Stage<'_>, site: BindingId) -> Result<Statement, AllocError>
    ensures { IfOk result (λ s. statement_view s
        ≡ bind_code (site_views stage.now.sites.now) (passes_in stage.now) site (slice_get (site_views stage.now.sites.now) site)) }
{
    match stage.sites.get(site.index()) {
        Some(binding) => Ok(bind_binding(stage, site, binding)?),
        None => Ok(Statement::NoWay),
    }
}

/// Adds what binds each site of a bind order.
pub(crate) fn add_binds(
    stage: &Stage<'_>,
    out: &mut Vec<Statement>,
    sites: &[BindingId],
) -> Result<(), AllocError>
    ensures { OnOk result ((rest : Block) → before out.new.items rest
        ≡ before out.old.items (binds_code (site_views stage.now.sites.now) (passes_in stage.now) sites.now rest)) }
{
    for site in sites {
        let bound = bind_site(stage, *site)?;
        out.push(bound)?;
    }
    Ok(())
}
