//! What a rule set asks of a site, as steps have it.
ghost use Rattle.std.specs.Prelude.{◌≡◌};
ghost use Rattle.core_rule_sets.specs.SiteViews as Sets;
ghost use Rattle.spec_cases.specs.Steps.{constraint_view};

use core_rule_sets::trie_again as sets;
use spec_cases::steps::Constraint;

/// A constraint of a rule set.
pub fn constraint_of(constraint: sets::Constraint) -> Constraint
    ensures { constraint_view result ≡ Sets.constraint_view constraint }
{
    match constraint {
        sets::Constraint::Variant {
            ty,
            variant,
            fields,
        } => Constraint::Variant {
            ty,
            variant,
            fields: fields.index(),
        },
        sets::Constraint::Struct { ty, fields } => Constraint::Struct {
            ty,
            fields: fields.index(),
        },
        sets::Constraint::ConstBool { val, ty } => Constraint::ConstBool { val, ty },
        sets::Constraint::ConstInt { val, ty } => Constraint::ConstInt { val, ty },
        sets::Constraint::ConstPrim { val } => Constraint::ConstPrim { val },
        sets::Constraint::Some => Constraint::Some,
    }
}
