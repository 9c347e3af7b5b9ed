//! Names by id.

ghost use Rattle.std.specs.Prelude.{◌≡◌, option_map, slice_get};
ghost use Rattle.cranelift_isle.specs.Envs.{names_of};
ghost use Rattle.cranelift_isle.specs.Questions.{variant_by_id};
ghost use Rattle.cranelift_isle.specs.TypeViews.{type_views, variant_view};
ghost use Rattle.cranelift_isle.specs.TermViews.{term_views};
ghost use Rattle.cranelift_isle.specs.RuleViews.{rule_views};
ghost use Rattle.report_queries.specs.NameTexts.{full_name_of_variant, name_of_rule, name_of_term, name_of_type, name_of_variant};

use cranelift_isle::sema::{
    RuleId, Sym, TermEnv, TermId, Type, TypeEnv, TypeId, Variant, VariantId,
};

/// The text of a name, or None where the id is no name's.
pub fn sym_name(tyenv: &TypeEnv, sym: Sym) -> Option<&str>
    ensures { option_map (λ s. s.now) result ≡ slice_get (names_of tyenv.now) sym.0 }
{
    match tyenv.syms.get(sym.index()) {
        Some(text) => Some(text.as_str()),
        None => None,
    }
}

/// The name of a term, or None where the id is no term's.
pub fn term_name<'a>(tyenv: &'a TypeEnv, termenv: &TermEnv, id: TermId) -> Option<&'a str>
    ensures { option_map (λ s. s.now) result ≡ name_of_term (names_of tyenv.now) (term_views termenv.now.terms.items) id.0 }
{
    match termenv.terms.get(id.index()) {
        Some(term) => sym_name(tyenv, term.name),
        None => None,
    }
}

/// The name of a type, or None where the id is no type's.
pub fn type_name(tyenv: &TypeEnv, id: TypeId) -> Option<&str>
    ensures { option_map (λ s. s.now) result ≡ name_of_type (names_of tyenv.now) (type_views tyenv.now.types.items) id.0 }
{
    match tyenv.types.get(id.index()) {
        Some(Type::Builtin(builtin)) => Some(builtin.name()),
        Some(Type::Primitive(_, name, _) | Type::Enum { name, .. } | Type::Struct { name, .. }) => {
            sym_name(tyenv, *name)
        }
        None => None,
    }
}

/// The name of a variant without that of its enum, or None where the type isn't an enum that has it.
pub fn variant_name(tyenv: &TypeEnv, ty: TypeId, variant: VariantId) -> Option<&str>
    ensures { option_map (λ s. s.now) result ≡ name_of_variant (names_of tyenv.now) (type_views tyenv.now.types.items) ty.0 variant.0 }
{
    match variant_of(tyenv, ty, variant) {
        Some(variant) => sym_name(tyenv, variant.name),
        None => None,
    }
}

/// The name of a variant after that of its enum and a point, or None where the type isn't an enum that has it.
pub fn full_variant_name(tyenv: &TypeEnv, ty: TypeId, variant: VariantId) -> Option<&str>
    ensures { option_map (λ s. s.now) result ≡ full_name_of_variant (names_of tyenv.now) (type_views tyenv.now.types.items) ty.0 variant.0 }
{
    match variant_of(tyenv, ty, variant) {
        Some(variant) => sym_name(tyenv, variant.fullname),
        None => None,
    }
}

/// The name of a rule, or None where it has none, or the id is no rule's. A rule without a name that is the only one of its
/// term has the term's.
pub fn rule_name<'a>(tyenv: &'a TypeEnv, termenv: &TermEnv, id: RuleId) -> Option<&'a str>
    ensures { option_map (λ s. s.now) result ≡ name_of_rule (names_of tyenv.now) (rule_views termenv.now.rules.items) id.0 }
{
    match termenv.rules.get(id.index()) {
        Some(rule) => match rule.name {
            Some(name) => sym_name(tyenv, name),
            None => None,
        },
        None => None,
    }
}

/// The variant of these ids, or None where the type isn't an enum that has it.
pub fn variant_of(tyenv: &TypeEnv, ty: TypeId, variant: VariantId) -> Option<&Variant>
    ensures { option_map (λ v. variant_view v.now) result ≡ variant_by_id (type_views tyenv.now.types.items) ty.0 variant.0 }
{
    match tyenv.types.get(ty.index()) {
        Some(Type::Enum { variants, .. }) => variants.get(variant.index()),
        Some(Type::Builtin(_) | Type::Primitive(..) | Type::Struct { .. }) | None => None,
    }
}
