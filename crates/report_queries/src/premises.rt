//! Premises of what `lower` promises of a term, as calls.

ghost use Rattle.std.specs.Prelude.{◌≡◌};
ghost use Rattle.std.specs.List.{list_all};
ghost use Rattle.cranelift_isle.specs.Checks.{env_program};
ghost use Rattle.cranelift_isle.specs.Program.{is_multi};
ghost use Rattle.cranelift_isle.specs.TypeViews.{type_views};
ghost use Rattle.cranelift_isle.specs.SiteViews.{constraint_view, constraint_views, set_rule_view, set_view};
ghost use Rattle.report_queries.specs.Premises.{asks_own_constant, asks_own_constants, rule_asks_own};

use cranelift_isle::sema::{TermEnv, TermId, TermKind, Type, TypeEnv};
use cranelift_isle::trie_again::{BindingId, Constraint, Rule, RuleSet};

/// Whether a term may give many values. Of one that is, a tree's run adds a result at each return and goes on.
pub fn is_multi(termenv: &TermEnv, term: TermId) -> bool
    ensures { result ≡ is_multi (env_program termenv.now) term.0 }
{
    match termenv.terms.get(term.index()) {
        Some(term) => match &term.kind {
            TermKind::Decl { flags, .. } => flags.multi,
            TermKind::EnumVariant { .. } | TermKind::Struct => false,
        },
        None => false,
    }
}

/// Whether no rule of a set asks a constant whose value a meaning may choose: a named one, or an integer of a type that isn't
/// built in. Every meaning then tells the constants of the set's rules apart.
pub fn asks_own_constants(tyenv: &TypeEnv, set: &RuleSet) -> bool
    ensures { result ≡ asks_own_constants (type_views tyenv.now.types.items) (set_view set.now) }
{
    for rule in &set.rules {
        if !rule_asks_own(tyenv, rule) {
            return false;
        }
    }
    true
}

// The same of one rule.
fn rule_asks_own(tyenv: &TypeEnv, rule: &Rule) -> bool
    ensures { result ≡ rule_asks_own (type_views tyenv.now.types.items) (set_rule_view rule.now) }
{
    all_own(tyenv, rule.constraints())
}

// The same of constraints on sites.
fn all_own(tyenv: &TypeEnv, constraints: &[(BindingId, Constraint)]) -> bool
    ensures { result ≡ list_all (λ c. asks_own_constant (type_views tyenv.now.types.items) c.1) (constraint_views constraints.now) }
{
    for (_, constraint) in constraints {
        if !is_own(tyenv, *constraint) {
            return false;
        }
    }
    true
}

// The same of one constraint.
fn is_own(tyenv: &TypeEnv, constraint: Constraint) -> bool
    ensures { result ≡ asks_own_constant (type_views tyenv.now.types.items) (constraint_view constraint) }
{
    match constraint {
        Constraint::ConstInt { ty, .. } => match tyenv.types.get(ty.index()) {
            Some(Type::Builtin(_)) => true,
            Some(Type::Primitive(..) | Type::Enum { .. } | Type::Struct { .. }) | None => false,
        },
        Constraint::ConstPrim { .. } => false,
        Constraint::Variant { .. }
        | Constraint::Struct { .. }
        | Constraint::ConstBool { .. }
        | Constraint::Some => true,
    }
}
