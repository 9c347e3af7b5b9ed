//! The calls whose answers the value of a site is made of.
ghost use Rattle.std.specs.Prelude.{◌≡◌, OnOk};
ghost use Rattle.model.specs.sites.Sites.{each_term, layer, pick_of};
ghost use Rattle.core_rule_sets.specs.SiteViews.{site_view};
ghost use Rattle.model_questions.specs.Steps as S;
ghost use Rattle.spec_cases.specs.Namings.{Naming};
ghost use Rattle.spec_steps.specs.Listing.{Lists};
ghost use Rattle.spec_steps.specs.Sites.{AreSites, IsBound};

use crate::sites::{binding_at, source_of};
use core_rule_sets::trie_again::{Binding, BindingId};
use spec_cases::faults::Fault;

// Adds the calls whose answers a site's value is made of, sources first.
#[cycle(telling)]
#[tactic(auto, using(crate::proofs::TellingSteps::told_steps))]
pub(crate) fn told_in(bindings: &[Binding], site: u32, out: &mut Vec<u32>) -> Result<(), Fault>
    ensures { OnOk result ((v : Naming) → AreSites v bindings.now → Lists v out.old.items out.new.items (S.told_in (v.site site))) }
{
    let binding = binding_at(bindings, site)?;
    Ok(told_by(bindings, site, binding, out)?)
}

#[cycle(telling)]
#[tactic(auto, using(crate::proofs::TellingSteps::told_steps))]
fn told_by(
    bindings: &[Binding],
    site: u32,
    binding: &Binding,
    out: &mut Vec<u32>,
) -> Result<(), Fault>
    ensures { OnOk result ((v : Naming) → AreSites v bindings.now → IsBound v site binding.now → Lists v out.old.items out.new.items (S.told_in (layer v.site (site_view binding.now)))) }
{
    match binding {
        Binding::Extractor { parameter, .. } => {
            let source = source_of(site, *parameter)?;
            told_in(bindings, source, out)?;
            out.push(site)?;
            Ok(())
        }
        Binding::Constructor { parameters, .. } => {
            told_in_each(bindings, site, parameters, out)?;
            out.push(site)?;
            Ok(())
        }
        Binding::Iterator { source } => {
            let call = source_of(site, *source)?;
            sources_in(bindings, call, out)?;
            out.push(site)?;
            Ok(())
        }
        Binding::MakeVariant { fields, .. } | Binding::MakeStruct { fields, .. } => {
            Ok(told_in_each(bindings, site, fields, out)?)
        }
        Binding::MatchVariant { source, .. } | Binding::ExtractStruct { source, .. } => {
            let whole = source_of(site, *source)?;
            Ok(told_in(bindings, whole, out)?)
        }
        Binding::MatchSome { source } => {
            let whole = source_of(site, *source)?;
            Ok(part_in(bindings, whole, out)?)
        }
        Binding::MatchTuple { source, .. } => {
            let whole = source_of(site, *source)?;
            Ok(outputs_in(bindings, whole, out)?)
        }
        Binding::ConstBool { .. }
        | Binding::ConstInt { .. }
        | Binding::ConstPrim { .. }
        | Binding::Argument { .. }
        | Binding::MakeSome { .. } => Ok(()),
    }
}

#[cycle(telling)]
#[tactic(auto, using(crate::proofs::TellingSteps::told_steps))]
pub(crate) fn told_in_each(
    bindings: &[Binding],
    site: u32,
    sources: &[BindingId],
    out: &mut Vec<u32>,
) -> Result<(), Fault>
    ensures { OnOk result ((v : Naming) → AreSites v bindings.now → Lists v out.old.items out.new.items (S.told_in_each (each_term v.site sources.now))) }
{
    match sources {
        [] => Ok(()),
        [first, rest @ ..] => {
            let source = source_of(site, *first)?;
            told_in(bindings, source, out)?;
            Ok(told_in_each(bindings, site, rest, out)?)
        }
    }
}

// Those of a call's own parts, where it has an answer.
#[cycle(telling)]
#[tactic(auto, using(crate::proofs::TellingSteps::told_steps))]
pub(crate) fn sources_in(bindings: &[Binding], site: u32, out: &mut Vec<u32>) -> Result<(), Fault>
    ensures { OnOk result ((v : Naming) → AreSites v bindings.now → Lists v out.old.items out.new.items (S.sources_in (v.site site))) }
{
    let binding = binding_at(bindings, site)?;
    Ok(sources_by(bindings, site, binding, out)?)
}

#[cycle(telling)]
#[tactic(auto, using(crate::proofs::TellingSteps::told_steps))]
fn sources_by(
    bindings: &[Binding],
    site: u32,
    binding: &Binding,
    out: &mut Vec<u32>,
) -> Result<(), Fault>
    ensures { OnOk result ((v : Naming) → AreSites v bindings.now → Lists v out.old.items out.new.items (S.sources_in (layer v.site (site_view binding.now)))) }
{
    match binding {
        Binding::Extractor { parameter, .. } => {
            let source = source_of(site, *parameter)?;
            Ok(told_in(bindings, source, out)?)
        }
        Binding::Constructor { parameters, .. } => {
            Ok(told_in_each(bindings, site, parameters, out)?)
        }
        Binding::Iterator { .. }
        | Binding::MakeVariant { .. }
        | Binding::MakeStruct { .. }
        | Binding::MatchVariant { .. }
        | Binding::ExtractStruct { .. }
        | Binding::MatchSome { .. }
        | Binding::MatchTuple { .. }
        | Binding::ConstBool { .. }
        | Binding::ConstInt { .. }
        | Binding::ConstPrim { .. }
        | Binding::Argument { .. }
        | Binding::MakeSome { .. } => Ok(()),
    }
}

// Those of what it has just the value of.
#[cycle(telling)]
#[tactic(auto, using(crate::proofs::TellingSteps::told_steps))]
fn part_in(bindings: &[Binding], site: u32, out: &mut Vec<u32>) -> Result<(), Fault>
    ensures { OnOk result ((v : Naming) → AreSites v bindings.now → Lists v out.old.items out.new.items (S.part_in (v.site site))) }
{
    let binding = binding_at(bindings, site)?;
    Ok(part_by(bindings, site, binding, out)?)
}

#[cycle(telling)]
#[tactic(auto, using(crate::proofs::TellingSteps::told_steps))]
fn part_by(
    bindings: &[Binding],
    site: u32,
    binding: &Binding,
    out: &mut Vec<u32>,
) -> Result<(), Fault>
    ensures { OnOk result ((v : Naming) → AreSites v bindings.now → IsBound v site binding.now → Lists v out.old.items out.new.items (S.part_in (layer v.site (site_view binding.now)))) }
{
    match binding {
        Binding::Extractor { parameter, .. } => {
            let source = source_of(site, *parameter)?;
            told_in(bindings, source, out)?;
            out.push(site)?;
            Ok(())
        }
        Binding::Constructor { parameters, .. } => {
            told_in_each(bindings, site, parameters, out)?;
            out.push(site)?;
            Ok(())
        }
        Binding::Iterator { source } => {
            let call = source_of(site, *source)?;
            sources_in(bindings, call, out)?;
            out.push(site)?;
            Ok(())
        }
        Binding::MakeSome { inner } => {
            let source = source_of(site, *inner)?;
            Ok(told_in(bindings, source, out)?)
        }
        Binding::MakeVariant { .. }
        | Binding::MakeStruct { .. }
        | Binding::MatchVariant { .. }
        | Binding::ExtractStruct { .. }
        | Binding::MatchSome { .. }
        | Binding::MatchTuple { .. }
        | Binding::ConstBool { .. }
        | Binding::ConstInt { .. }
        | Binding::ConstPrim { .. }
        | Binding::Argument { .. } => Ok(()),
    }
}

// Those of what it has outputs of, none or several.
#[cycle(telling)]
#[tactic(auto, using(crate::proofs::TellingSteps::told_steps))]
fn outputs_in(bindings: &[Binding], site: u32, out: &mut Vec<u32>) -> Result<(), Fault>
    ensures { OnOk result ((v : Naming) → AreSites v bindings.now → Lists v out.old.items out.new.items (S.outputs_in (v.site site))) }
{
    let binding = binding_at(bindings, site)?;
    Ok(outputs_by(bindings, site, binding, out)?)
}

#[cycle(telling)]
#[tactic(auto, using(crate::proofs::TellingSteps::told_steps))]
fn outputs_by(
    bindings: &[Binding],
    site: u32,
    binding: &Binding,
    out: &mut Vec<u32>,
) -> Result<(), Fault>
    ensures { OnOk result ((v : Naming) → AreSites v bindings.now → IsBound v site binding.now → Lists v out.old.items out.new.items (S.outputs_in (layer v.site (site_view binding.now)))) }
{
    match binding {
        Binding::Extractor { parameter, .. } => {
            let source = source_of(site, *parameter)?;
            told_in(bindings, source, out)?;
            out.push(site)?;
            Ok(())
        }
        Binding::Iterator { source } => {
            let call = source_of(site, *source)?;
            Ok(picked_in(bindings, call, site, out)?)
        }
        Binding::MatchSome { source } => {
            let whole = source_of(site, *source)?;
            Ok(part_outputs_in(bindings, whole, out)?)
        }
        Binding::Constructor { .. }
        | Binding::MakeSome { .. }
        | Binding::MakeVariant { .. }
        | Binding::MakeStruct { .. }
        | Binding::MatchVariant { .. }
        | Binding::ExtractStruct { .. }
        | Binding::MatchTuple { .. }
        | Binding::ConstBool { .. }
        | Binding::ConstInt { .. }
        | Binding::ConstPrim { .. }
        | Binding::Argument { .. } => Ok(()),
    }
}

// Those of a call whose answers another site picks of.
#[cycle(telling)]
#[tactic(auto, using(crate::proofs::TellingSteps::told_steps))]
fn picked_in(bindings: &[Binding], site: u32, pick: u32, out: &mut Vec<u32>) -> Result<(), Fault>
    ensures { OnOk result ((v : Naming) → AreSites v bindings.now → v.site pick ≡ pick_of (v.site site) → Lists v out.old.items out.new.items (S.picked_in (v.site site))) }
{
    let binding = binding_at(bindings, site)?;
    Ok(picked_by(bindings, site, pick, binding, out)?)
}

#[cycle(telling)]
#[tactic(auto, using(crate::proofs::TellingSteps::told_steps))]
fn picked_by(
    bindings: &[Binding],
    site: u32,
    pick: u32,
    binding: &Binding,
    out: &mut Vec<u32>,
) -> Result<(), Fault>
    ensures { OnOk result ((v : Naming) → AreSites v bindings.now → v.site pick ≡ pick_of (layer v.site (site_view binding.now)) → Lists v out.old.items out.new.items (S.picked_in (layer v.site (site_view binding.now)))) }
{
    match binding {
        Binding::Extractor { parameter, .. } => {
            let source = source_of(site, *parameter)?;
            told_in(bindings, source, out)?;
            out.push(pick)?;
            Ok(())
        }
        Binding::Constructor { .. }
        | Binding::Iterator { .. }
        | Binding::MakeSome { .. }
        | Binding::MakeVariant { .. }
        | Binding::MakeStruct { .. }
        | Binding::MatchVariant { .. }
        | Binding::ExtractStruct { .. }
        | Binding::MatchSome { .. }
        | Binding::MatchTuple { .. }
        | Binding::ConstBool { .. }
        | Binding::ConstInt { .. }
        | Binding::ConstPrim { .. }
        | Binding::Argument { .. } => Ok(()),
    }
}

// Those of what it has just the outputs of.
#[cycle(telling)]
#[tactic(auto, using(crate::proofs::TellingSteps::told_steps))]
fn part_outputs_in(bindings: &[Binding], site: u32, out: &mut Vec<u32>) -> Result<(), Fault>
    ensures { OnOk result ((v : Naming) → AreSites v bindings.now → Lists v out.old.items out.new.items (S.part_outputs_in (v.site site))) }
{
    let binding = binding_at(bindings, site)?;
    Ok(part_outputs_by(bindings, site, binding, out)?)
}

#[cycle(telling)]
#[tactic(auto, using(crate::proofs::TellingSteps::told_steps))]
fn part_outputs_by(
    bindings: &[Binding],
    site: u32,
    binding: &Binding,
    out: &mut Vec<u32>,
) -> Result<(), Fault>
    ensures { OnOk result ((v : Naming) → AreSites v bindings.now → IsBound v site binding.now → Lists v out.old.items out.new.items (S.part_outputs_in (layer v.site (site_view binding.now)))) }
{
    match binding {
        Binding::Extractor { parameter, .. } => {
            let source = source_of(site, *parameter)?;
            told_in(bindings, source, out)?;
            out.push(site)?;
            Ok(())
        }
        Binding::Iterator { source } => {
            let call = source_of(site, *source)?;
            Ok(picked_in(bindings, call, site, out)?)
        }
        Binding::Constructor { .. }
        | Binding::MakeSome { .. }
        | Binding::MakeVariant { .. }
        | Binding::MakeStruct { .. }
        | Binding::MatchVariant { .. }
        | Binding::ExtractStruct { .. }
        | Binding::MatchSome { .. }
        | Binding::MatchTuple { .. }
        | Binding::ConstBool { .. }
        | Binding::ConstInt { .. }
        | Binding::ConstPrim { .. }
        | Binding::Argument { .. } => Ok(()),
    }
}
