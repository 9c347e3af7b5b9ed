//! Whether any value can meet what a rule demands: what is asked of the classes of sites that must be equal.
ghost use Rattle.std.specs.Prelude.{◌≡◌, ℕ, List, [], ◌∷◌, None, Some, IfOk, if◌then◌else◌, option_map};
ghost use Rattle.std.specs.BTreeMap.{get};
ghost use Rattle.std.specs.Ordering.{nat_cmp};
ghost use Rattle.model.specs.sites.Closure.{cycle, first_filled, reported};
ghost use Rattle.model.specs.visits.Demands.{Demands, constraint_eq, with_sites};
ghost use Rattle.model.specs.sites.Sites.{SiteTerm};
ghost use Rattle.core_rule_sets.specs.SiteTables.{IsTable, table_sites};
ghost use Rattle.core_rule_sets.specs.SiteViews.{constraint_view, constraint_views};
ghost use Rattle.core_rule_sets.specs.Verdicts.{AreVisited, asked_in, asked_view, class_head, conflict_asked, conflict_in, unreachability_views, with_asked};

use crate::closure_classes::{class_of, close_classes, list_parts};
use crate::cycles::has_cycle;
use crate::demanded::Demanded;
use crate::overlaps::is_same_constraint;
use crate::site_table::SiteTable;
use crate::trie_again::{BindingId, Constraint};
use core_containers::disjointsets::DisjointSets;
use std::alloc::{AllocError, Global};
use std::collections::BTreeMap;

/// Why no value can meet what a rule demands. Upstream's `UnreachableError`, which knows no cycles.
#[derive(Clone, Copy, Debug, PartialEq, Eq)]
pub enum Unreachable {
    /// Sites that must be equal are asked to meet two constraints.
    Conflict {
        /// That of the least site.
        first: Constraint,
        /// That of the least site that has another one.
        second: Constraint,
    },
    /// A value would have to equal a part of itself.
    Cycle,
}

// What is asked of a class: the first thing, and the first other one.
type Asked = (Constraint, Option<Constraint>);

fn other_than(first: Constraint, constraint: Constraint) -> Option<Constraint>
    ensures { option_map constraint_view result ≡ (if constraint_eq (constraint_view first) (constraint_view constraint) then None else Some (constraint_view constraint)) }
{
    if is_same_constraint(&first, &constraint) {
        None
    } else {
        Some(constraint)
    }
}

// The first other thing that a class is asked, with one thing more.
fn with_other(
    first: Constraint,
    other: Option<Constraint>,
    constraint: Constraint,
) -> Option<Constraint>
    ensures { option_map constraint_view result ≡ (with_asked (Some (constraint_view first, option_map constraint_view other)) (constraint_view constraint)).1 }
{
    match other {
        Some(second) => Some(second),
        None => other_than(first, constraint),
    }
}

// What is asked of a class, with one thing more.
fn with_asked(before: Option<Asked>, constraint: Constraint) -> Asked
    ensures { asked_view result ≡ with_asked (option_map asked_view before) (constraint_view constraint) }
{
    match before {
        None => (constraint, None),
        Some(asked) => (asked.0, with_other(asked.0, asked.1, constraint)),
    }
}

// What is asked of each class of sites, by the site that it goes by.
fn asked_by_class(
    alloc: Global,
    classes: &DisjointSets<BindingId>,
    constraints: &[(BindingId, Constraint)],
) -> Result<BTreeMap<BindingId, Asked>, AllocError>
    ensures { IfOk result (λ m. (k : ℕ) → option_map asked_view (get nat_cmp m k)
        ≡ asked_in (class_head classes.now) k (constraint_views constraints.now)) }
{
    let mut by_class = BTreeMap::new(alloc);
    for (site, constraint) in constraints {
        let class = class_of(classes, *site);
        let asked = with_asked(by_class.get(&class).copied(), *constraint);
        by_class.insert(class, asked)?;
    }
    Ok(by_class)
}

// The conflict of a class, where it is asked two things.
fn conflict_of(asked: Option<Asked>) -> Option<Unreachable>
    ensures { unreachability_views result ≡ conflict_asked (option_map asked_view asked) }
{
    let (first, other) = asked?;
    let second = other?;
    Some(Unreachable::Conflict { first, second })
}

// The conflict of a site's class, where it is asked two things.
fn conflict_at(
    classes: &DisjointSets<BindingId>,
    by_class: &BTreeMap<BindingId, Asked>,
    site: BindingId,
) -> Option<Unreachable>
    ensures { unreachability_views result ≡ conflict_asked (option_map asked_view (get nat_cmp by_class.now (class_head classes.now site))) }
{
    let class = class_of(classes, site);
    conflict_of(by_class.get(&class).copied())
}

// The conflict of the least site whose class is asked another thing too.
fn find_conflict(
    alloc: Global,
    classes: &DisjointSets<BindingId>,
    constraints: &[(BindingId, Constraint)],
) -> Result<Option<Unreachable>, AllocError>
    ensures { IfOk result (λ o. unreachability_views o ≡ conflict_in (class_head classes.now) (constraint_views constraints.now) (constraint_views constraints.now)) }
{
    let by_class = asked_by_class(alloc, classes, constraints)?;
    for (site, _) in constraints {
        if let Some(conflict) = conflict_at(classes, &by_class, *site) {
            return Ok(Some(conflict));
        }
    }
    Ok(None)
}

// The conflict, if there is one, else a cycle, if there is one.
fn first_reason(conflict: Option<Unreachable>, cyclic: bool) -> Option<Unreachable>
    ensures { unreachability_views result ≡ first_filled (unreachability_views conflict) (if cyclic then cycle ∷ [] else []) }
{
    match conflict {
        Some(conflict) => Some(conflict),
        None if cyclic => Some(Unreachable::Cycle),
        None => None,
    }
}

/// Why no value can meet what a rule demands, if none can, before the demands are closed: a conflict of the closure,
/// else a cycle. The sites are those that the term's rules made up to this one's visit, which met no conflict.
///
/// # Errors
///
/// Where memory is refused.
pub fn why_unreachable(
    alloc: Global,
    table: &SiteTable,
    demanded: &Demanded,
) -> Result<Option<Unreachable>, AllocError>
    requires { IsTable table.now }
    ensures { IfOk result (λ o. (before : List SiteTerm) (d : Demands) → AreVisited (table_sites table.now) before d demanded.now
        → unreachability_views o ≡ reported (with_sites before d.made) d) }
{
    if demanded.equals.sets().len() == 0 {
        // each site is asked one thing, and no site is a field of itself
        return Ok(None);
    }
    let constraints = demanded.list_constraints(alloc)?;
    let parts = list_parts(alloc, table, &constraints)?;
    let classes = close_classes(alloc, demanded.equals.sets(), &parts)?;
    let conflict = find_conflict(alloc, &classes, &constraints)?;
    let cyclic = has_cycle(alloc, &classes, &parts)?;
    Ok(first_reason(conflict, cyclic))
}
