//! Whether two rules of a set may both match.
ghost use Rattle.std.specs.Prelude.{◌≡◌, ◌==◌, ◌&&◌, ◌+◌, IsTrue, MatchOption, length, sum_by};
ghost use Rattle.model.specs.visits.Demands.{constraint_eq};
ghost use Rattle.model.specs.sites.SetRules.{equates_none, overlap_between, sites_differ};
ghost use Rattle.core_rule_sets.specs.Listings.{ascends, sites_of};
ghost use Rattle.core_rule_sets.specs.Overlaps.{overlap_view, IsComparedAs};
ghost use Rattle.core_rule_sets.specs.SiteViews.{constraint_view, constraint_views, set_rule_view};

use crate::trie_again::{BindingId, Constraint, Overlap, Rule};

impl Rule {
    /// Whether this rule and another one of its set may both match, and whether all that meets the demands of one meets
    /// those of the other. Where either demands that sites are equal, the latter isn't looked into, and the answer is
    /// that it doesn't.
    pub fn may_overlap(&self, other: &Rule) -> Overlap
        ensures { overlap_view result ≡ overlap_between (set_rule_view self.now) (set_rule_view other.now) }
    {
        let Some((among, others_among)) = side_by_side(&self.constraints, &other.constraints) else {
            return Overlap::No;
        };
        Overlap::Yes {
            subset: has_no_equality(self) && has_no_equality(other) && (among || others_among),
        }
    }

    /// How many sites the rule asks something of or demands to equal another one. Of two rules of which one asks all that
    /// the other does, the one with fewer is the more general.
    pub fn total_constraints(&self) -> usize
        ensures { result ≡ length (set_rule_view self.now).constraints + sum_by length (set_rule_view self.now).classes }
    {
        self.constraints.len() + self.equals.len()
    }
}

fn has_no_equality(rule: &Rule) -> bool
    ensures { result ≡ equates_none (set_rule_view rule.now) }
{
    rule.equals.len() == 0
}

pub(crate) fn is_same_constraint(a: &Constraint, b: &Constraint) -> bool
    ensures { result ≡ constraint_eq (constraint_view a.now) (constraint_view b.now) }
{
    a == b
}

// Whether all of some constraints are among others, and these among them; none where some site has different ones in
// the two lists. Both ascend by site, so one walk sees it.
fn side_by_side(
    some: &[(BindingId, Constraint)],
    others: &[(BindingId, Constraint)],
) -> Option<(bool, bool)>
    requires ascending { IsTrue (ascends (sites_of some.now)) }
    requires others_ascending { IsTrue (ascends (sites_of others.now)) }
    ensures { MatchOption result (IsTrue (sites_differ (constraint_views some.now) (constraint_views others.now)))
        (λ m. IsComparedAs (constraint_views some.now) (constraint_views others.now) m.0 m.1) }
{
    let mut i = 0;
    let mut j = 0;
    let mut among = true;
    let mut others_among = true;
    while i < some.len() && j < others.len() {
        let (site, constraint) = &some[i];
        let (other_site, other) = &others[j];
        if site.index() < other_site.index() {
            among = false;
            i += 1;
        } else if other_site.index() < site.index() {
            others_among = false;
            j += 1;
        } else if is_same_constraint(constraint, other) {
            i += 1;
            j += 1;
        } else {
            return None;
        }
    }
    Some((
        is_whole(among, i, some.len()),
        is_whole(others_among, j, others.len()),
    ))
}

// Whether all that was walked is among the others, and all was.
fn is_whole(among: bool, walked: usize, count: usize) -> bool
    ensures { result ≡ (among && (walked == count)) }
{
    among && walked == count
}
