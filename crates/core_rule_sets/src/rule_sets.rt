//! What is asked of the rule set of a term.
ghost use Rattle.std.specs.Prelude.{◌≡◌, ◌≤◌, ◌↔◌, IfSome, IsTrue, Some, slice_get, vec_len};
ghost use Rattle.model.specs.lists.Names.{IsDistinct};
ghost use Rattle.model.specs.sites.SetRules.{IsFoundAs};
ghost use Rattle.core_rule_sets.specs.SiteViews.{empty_set, set_view, site_view};

use crate::trie_again::{Binding, BindingId, RuleSet};
use std::alloc::Global;

impl RuleSet {
    /// No rules, and no sites.
    pub fn new(alloc: Global) -> RuleSet
        ensures { set_view result ≡ empty_set }
    {
        RuleSet {
            rules: Vec::new(alloc),
            bindings: Vec::new(alloc),
        }
    }

    /// The site of this set that stands for a binding, if there is one. In a built set each binding has one site at most.
    pub fn find_binding(&self, binding: &Binding) -> Option<BindingId>
        ensures found { IfSome result (λ s. slice_get (set_view self.now).sites s ≡ Some (site_view binding.now)) }
        ensures exact { IsDistinct (set_view self.now).sites → vec_len self.now.bindings ≤ 65536 → IsFoundAs (set_view self.now) (site_view binding.now) result }
    {
        for (number, site) in self.bindings.iter().enumerate() {
            if is_same_binding(site, binding) {
                return BindingId::try_from(number).ok();
            }
        }
        None
    }
}

fn is_same_binding(a: &Binding, b: &Binding) -> bool
    ensures { IsTrue result ↔ (site_view a.now ≡ site_view b.now) }
{
    a == b
}
