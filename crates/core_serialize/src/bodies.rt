//! What stands around the body of a test.

ghost use Rattle.std.specs.Prelude.{◌≡◌, IfOk, OnOk};
ghost use Rattle.model.specs.trees.Places as Places;
ghost use Rattle.core_serialize.specs.AroundViews.{around_view, brings, Alike};
ghost use Rattle.core_serialize.specs.Changes.{Goes, IsKept};
ghost use Rattle.core_serialize.specs.PlaceViews.{set_in};

use crate::around::{Around, number_of};
use crate::matched::raise_all;
use crate::place::IndexedSet;
use core_rule_sets::trie_again::BindingId;
use std::alloc::{AllocError, Global};

/// The sites of these fields.
pub fn field_sites(alloc: Global, fields: &[Option<BindingId>]) -> Result<Vec<u16>, AllocError>
    ensures { IfOk result (λ v. v.items ≡ Places.field_sites fields.now) }
{
    let mut sites = Vec::new(alloc);
    for field in fields {
        if let Some(site) = field {
            sites.push(number_of(*site))?;
        }
    }
    Ok(sites)
}

/// Goes into the body of an arm or a loop of a source, which brings these sites, with these rules.
pub fn go_in(
    indexed: &IndexedSet<'_>,
    around: &mut Around,
    source: BindingId,
    sites: &[u16],
    here: &[usize],
) -> Result<(), AllocError>
    requires { IsKept (set_in indexed.now) around.old }
    ensures inside { OnOk result (Alike (around_view around.new) (brings (around_view around.old) source sites.now)) }
    ensures goes { OnOk result (Goes around.old around.new) }
    ensures kept { OnOk result (IsKept (set_in indexed.now) around.new) }
{
    around.sources.insert_all(&[number_of(source)])?;
    around.brought.insert_all(sites)?;
    around.emitted.insert_all(sites)?;
    raise_all(indexed.set, &around.sources, &mut around.matched, here)?;
    Ok(())
}
