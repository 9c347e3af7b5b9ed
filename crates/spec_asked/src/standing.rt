//! What the numbers of questions stand for.
ghost use Rattle.core_rule_sets.specs.SiteViews.{site_views};
ghost use Rattle.spec_cases.specs.Expressions.{AreSaid};
ghost use Rattle.spec_cases.specs.Namings.{Names};
ghost use Rattle.spec_cases.specs.Sayings.{saying_of, AreBelow};
ghost use Rattle.spec_cases.specs.Standing.{naming_of};
ghost use Rattle.spec_asked.specs.Asking.{IsOfSites};
ghost use Rattle.spec_asked.specs.Sites.{site_of};

use crate::tables::SpecTables;
use core_rule_sets::trie_again::RuleSet;
use spec_cases::arena::{Formulas, formulas_stand};
use spec_cases::expressions::expressions_stand;

/// The numbers of any formulas stand for something, by the sites of any set; and so do those of expressions, where each is made of
/// earlier ones.
pub fn numbers_stand(formulas: &Formulas, set: &RuleSet, specs: &SpecTables<'_>)
    ensures named { Names (naming_of (site_of (site_views set.now.bindings.items)) formulas.now) formulas.now }
    ensures sites { IsOfSites (naming_of (site_of (site_views set.now.bindings.items)) formulas.now) (site_views set.now.bindings.items) }
    ensures said { AreBelow specs.now.exprs.now → AreSaid (saying_of specs.now.exprs.now) specs.now.exprs.now }
{
    formulas_stand(formulas);
    expressions_stand(specs.exprs);
    let _bindings = &set.bindings;
}
