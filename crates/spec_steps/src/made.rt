//! Which sites a condition makes, and which calls are answered.
ghost use Rattle.std.specs.Prelude.{◌≡◌, ◌&&◌, ◌||◌, slice_get, IfOk};
ghost use Rattle.laws_specs.specs.Conditions.{is_impure_call};
ghost use Rattle.model.specs.sites.Sites.{layer};
ghost use Rattle.model.specs.visits.Demands.{has_site};
ghost use Rattle.core_rule_sets.specs.SiteViews.{site_view};
ghost use Rattle.model_questions.specs.Steps as S;
ghost use Rattle.spec_cases.specs.Namings.{Naming};
ghost use Rattle.spec_cases.specs.Places.{AreApart};
ghost use Rattle.spec_steps.specs.Demands.{is_marked, Meant};
ghost use Rattle.spec_steps.specs.Listing.{sites};
ghost use Rattle.spec_steps.specs.Sites.{IsBound};

use crate::demands::Demands;
use crate::sites::binding_at;
use core_rule_sets::trie_again::Binding;
use spec_cases::faults::Fault;

fn is_marked(made: &[bool], site: u32) -> bool
    ensures { result ≡ is_marked (slice_get made.now site) }
{
    match made.get(site as usize) {
        None => false,
        Some(mark) => *mark,
    }
}

fn both(a: bool, b: bool) -> bool
    ensures { result ≡ (a && b) }
{
    a && b
}

fn either(a: bool, b: bool) -> bool
    ensures { result ≡ (a || b) }
{
    a || b
}

#[tactic(auto, using(crate::proofs::MadeSteps::impure_steps))]
fn is_impure(binding: &Binding) -> bool
    ensures { (v : Naming) → result ≡ is_impure_call (layer v.site (site_view binding.now)) }
{
    match binding {
        Binding::Constructor { instance, .. } => *instance > 0,
        Binding::Extractor { .. }
        | Binding::Iterator { .. }
        | Binding::MakeSome { .. }
        | Binding::MakeVariant { .. }
        | Binding::MakeStruct { .. }
        | Binding::MatchVariant { .. }
        | Binding::ExtractStruct { .. }
        | Binding::MatchSome { .. }
        | Binding::MatchTuple { .. }
        | Binding::ConstBool { .. }
        | Binding::ConstInt { .. }
        | Binding::ConstPrim { .. }
        | Binding::Argument { .. } => false,
    }
}

// Whether a site is a pure call that the condition makes.
pub(crate) fn is_pure_made(demands: &Demands<'_>, site: u32) -> Result<bool, Fault>
    ensures { IfOk result (λ b. (v : Naming) (m : Meant v demands.now) → b ≡ S.is_pure_made m.p m.specs m.c (v.site site)) }
{
    let binding = binding_at(demands.bindings, site)?;
    let impure = is_impure(binding);
    let made = is_marked(demands.made, site);
    Ok(both(made, !impure))
}

// Whether a site is one of a list.
#[tactic(auto, using(crate::proofs::MadeSteps::one_steps))]
pub(crate) fn is_one_of(list: &[u32], site: u32) -> bool
    ensures { (v : _) → AreApart v → result ≡ has_site (sites v list.now) (v.site site) }
{
    match list {
        [] => false,
        [first, rest @ ..] => {
            if *first == site {
                true
            } else {
                is_one_of(rest, site)
            }
        }
    }
}

// Whether a call is answered: it is pure and made, or it was made.
pub(crate) fn is_answered(demands: &Demands<'_>, done: &[u32], site: u32) -> Result<bool, Fault>
    ensures { IfOk result (λ b. (v : Naming) (m : Meant v demands.now) → b ≡ S.is_answered m.p m.specs m.c (sites v done.now) (v.site site)) }
{
    let made = is_pure_made(demands, site)?;
    let called = is_one_of(done, site);
    Ok(either(made, called))
}

// Whether what is unwrapped of a site is the one result of a call, or its one output.
pub(crate) fn is_unwrapped(demands: &Demands<'_>, done: &[u32], site: u32) -> Result<bool, Fault>
    ensures { IfOk result (λ b. (v : Naming) (m : Meant v demands.now) → b ≡ S.is_unwrapped m.p m.specs m.c (sites v done.now) (v.site site)) }
{
    let binding = binding_at(demands.bindings, site)?;
    Ok(is_unwrapped_by(demands, done, site, binding)?)
}

fn is_unwrapped_by(
    demands: &Demands<'_>,
    done: &[u32],
    site: u32,
    binding: &Binding,
) -> Result<bool, Fault>
    ensures { IfOk result (λ b. (v : Naming) (m : Meant v demands.now) → IsBound v site binding.now → b ≡ S.is_unwrapped m.p m.specs m.c (sites v done.now) (layer v.site (site_view binding.now))) }
{
    match binding {
        Binding::Constructor { .. } | Binding::Extractor { .. } => {
            Ok(is_answered(demands, done, site)?)
        }
        Binding::Iterator { .. }
        | Binding::MakeSome { .. }
        | Binding::MakeVariant { .. }
        | Binding::MakeStruct { .. }
        | Binding::MatchVariant { .. }
        | Binding::ExtractStruct { .. }
        | Binding::MatchSome { .. }
        | Binding::MatchTuple { .. }
        | Binding::ConstBool { .. }
        | Binding::ConstInt { .. }
        | Binding::ConstPrim { .. }
        | Binding::Argument { .. } => Ok(false),
    }
}
