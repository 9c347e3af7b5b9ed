//! Which sites a rule makes: all that is at or below one that it speaks of.
ghost use Rattle.std.specs.Prelude.{◌≡◌, ◌<◌, ◌≤◌, ◌||◌, ℕ, false, length, IfOk};
ghost use Rattle.std.specs.Bool.{◌==◌};
ghost use Rattle.model.specs.trees.Places.{is_in, all_below};
ghost use Rattle.core_rule_sets.specs.SiteViews.{site_views};
ghost use Rattle.spec_asked.specs.Demanded.{SourcesFirst};
ghost use Rattle.spec_asked.specs.Marks.{marked_below, marks, spread};

use core_rule_sets::trie_again::{Binding, BindingId};
use std::alloc::{AllocError, Global};

/// Whether a site is marked.
pub fn is_marked(made: &[bool], site: usize) -> bool
    ensures { result ≡ marks made.now site }
{
    match made.get(site) {
        Some(mark) => *mark,
        None => false,
    }
}

/// No marks, of so many sites.
///
/// # Errors
///
/// Where memory is refused.
pub fn no_marks(alloc: Global, bindings: &[Binding]) -> Result<Vec<bool>, AllocError>
    ensures count { IfOk result (λ made. length made.items ≡ length bindings.now) }
    ensures none { IfOk result (λ made. (n : ℕ) → marks made.items n ≡ false) }
{
    vec![in alloc; false; bindings.len()]
}

/// Marks a site, if it is one.
pub fn mark(made: &mut [bool], site: usize)
    ensures { (n : ℕ) → n < length made.old → marks made.new n ≡ (marks made.old n || (site == n)) }
{
    if site < made.len() {
        made[site] = true;
    }
}

// Marks sites.
fn mark_each(made: &mut [bool], sites: &[BindingId])
    ensures { (n : ℕ) → n < length made.old → marks made.new n ≡ (marks made.old n || is_in n sites.now) }
{
    match sites {
        [] => {}
        [first, rest @ ..] => {
            mark(made, first.index());
            mark_each(made, rest)
        }
    }
}

// Marks what a site is made of, if the site is marked.
fn mark_sources(made: &mut [bool], bindings: &[Binding], site: usize)
    ensures { (n : ℕ) → n < length made.old → marks made.new n ≡ marked_below (site_views bindings.now) site (marks made.old) n }
{
    if let Some(true) = made.get(site) {
        if let Some(binding) = bindings.get(site) {
            mark_each(made, binding.sources())
        }
    }
}

/// Marks what marked sites are made of, the last sites first: what a site is made of has smaller numbers.
pub fn spread_marks(made: &mut [bool], bindings: &[Binding])
    ensures { (n : ℕ) → n < length made.old → length bindings.now ≤ length made.old → marks made.new n ≡ spread (site_views bindings.now) (length bindings.now) (marks made.old) n }
{
    let mut count = bindings.len();
    while count > 0 {
        count -= 1;
        mark_sources(made, bindings, count);
    }
}

// Marks the sites at or below one of the roots.
fn mark_below(made: &mut [bool], bindings: &[Binding], roots: &[BindingId])
    ensures { SourcesFirst (site_views bindings.now) → length made.old ≡ length bindings.now → ((n : ℕ) → marks made.old n ≡ false)
        → (n : ℕ) → n < length bindings.now → marks made.new n ≡ is_in n (all_below (site_views bindings.now) roots.now) }
{
    mark_each(made, roots);
    spread_marks(made, bindings)
}

/// Which sites stand at or below one of the roots.
///
/// # Errors
///
/// Where memory is refused.
pub fn made_below(
    alloc: Global,
    bindings: &[Binding],
    roots: &[BindingId],
) -> Result<Vec<bool>, AllocError>
    ensures { IfOk result (λ made. SourcesFirst (site_views bindings.now) → (n : ℕ) → n < length bindings.now → marks made.items n ≡ is_in n (all_below (site_views bindings.now) roots.now)) }
{
    let mut made = no_marks(alloc, bindings)?;
    mark_below(&mut made, bindings, roots);
    Ok(made)
}
