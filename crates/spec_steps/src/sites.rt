//! Sites by their numbers.
ghost use Rattle.std.specs.Prelude.{◌≡◌, ◌<◌, slice_get, IfOk};
ghost use Rattle.spec_steps.specs.Sites.{AreSites, IsBound};

use core_rule_sets::trie_again::{Binding, BindingId};
use spec_cases::faults::Fault;

// What is bound to a number.
pub(crate) fn binding_at<'d>(bindings: &'d [Binding], site: u32) -> Result<&'d Binding, Fault>
    ensures bound { IfOk result (λ b. (v : _) → AreSites v bindings.now → IsBound v site b.now) }
    ensures found { IfOk result (λ b. slice_get bindings.now site ≡ Some b.now) }
{
    match bindings.get(site as usize) {
        None => Err(Fault::Foreign),
        Some(binding) => Ok(binding),
    }
}

// The number of what a site is made of: it has a smaller one.
pub(crate) fn source_of(site: u32, source: BindingId) -> Result<u32, Fault>
    ensures value { IfOk result (λ n. n ≡ source) }
    ensures below { IfOk result (λ n. n < site) }
{
    match u32::try_from(source.index()) {
        Err(_) => Err(Fault::Foreign),
        Ok(number) => {
            if number < site {
                Ok(number)
            } else {
                Err(Fault::Foreign)
            }
        }
    }
}
