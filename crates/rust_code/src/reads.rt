//! What code reads.

ghost use Rattle.std.specs.Prelude.{◌≡◌, ◌&&◌, ◌||◌, ◌∷◌, [], Bool, not};
ghost use Rattle.std.specs.List.{list_any};
ghost use Rattle.model_code.specs.Code as Code;
ghost use Rattle.model_code.specs.Code.{no_code_arm, no_statement};
ghost use Rattle.model_code.specs.MovedOnce as Moved;
ghost use Rattle.model_code.specs.MovedOnce.{arms_read, block_reads, expr_reads, is_of, read_behind, statement_reads};
ghost use Rattle.model.specs.trees.Places.{field_sites, is_in};
ghost use Rattle.rust_code.specs.CodeViews.{arm_view, arms_before, before, expr_view, place_view, statement_view};

use crate::code::{BoundExpr, CodeArm, ReadPlace, Statement, Use};
use core_rule_sets::trie_again::{BindingId, TupleIndex};

// Whether to read a variable reads of a place.
fn touches_variable(site: BindingId, other: &ReadPlace) -> bool
    ensures { result ≡ Moved.touches (Code.variable site) (place_view other.now) }
{
    match other {
        ReadPlace::Variable { site: read } => site == *read,
        ReadPlace::PartOf { tuple, .. } => site == *tuple,
        ReadPlace::Parameter { .. } => false,
        ReadPlace::IntWritten { .. } => false,
        ReadPlace::NameWritten { .. } => false,
        ReadPlace::VariantWritten { .. } => false,
        ReadPlace::StructWritten { .. } => false,
    }
}

// Whether to read a part of a tuple reads of a place.
fn touches_part(tuple: BindingId, field: TupleIndex, other: &ReadPlace) -> bool
    ensures { result ≡ Moved.touches (Code.part_of tuple field) (place_view other.now) }
{
    match other {
        ReadPlace::Variable { site } => tuple == *site,
        ReadPlace::PartOf {
            tuple: read,
            field: part,
        } => tuple == *read && field == *part,
        ReadPlace::Parameter { .. } => false,
        ReadPlace::IntWritten { .. } => false,
        ReadPlace::NameWritten { .. } => false,
        ReadPlace::VariantWritten { .. } => false,
        ReadPlace::StructWritten { .. } => false,
    }
}

// Whether to read a parameter reads of a place.
fn touches_parameter(index: TupleIndex, other: &ReadPlace) -> bool
    ensures { result ≡ Moved.touches (Code.parameter index) (place_view other.now) }
{
    match other {
        ReadPlace::Parameter { index: read } => index == *read,
        ReadPlace::Variable { .. } => false,
        ReadPlace::PartOf { .. } => false,
        ReadPlace::IntWritten { .. } => false,
        ReadPlace::NameWritten { .. } => false,
        ReadPlace::VariantWritten { .. } => false,
        ReadPlace::StructWritten { .. } => false,
    }
}

/// Whether to read one place reads of the other: it is the same, or a part of it, or the whole.
fn touches(place: &ReadPlace, other: &ReadPlace) -> bool
    ensures { result ≡ Moved.touches (place_view place.now) (place_view other.now) }
{
    match place {
        ReadPlace::Variable { site } => touches_variable(*site, other),
        ReadPlace::PartOf { tuple, field } => touches_part(*tuple, *field, other),
        ReadPlace::Parameter { index } => touches_parameter(*index, other),
        ReadPlace::IntWritten { .. } => false,
        ReadPlace::NameWritten { .. } => false,
        ReadPlace::VariantWritten { .. } => false,
        ReadPlace::StructWritten { .. } => false,
    }
}

/// Whether one of these uses reads of a place.
pub(crate) fn are_reading(place: &ReadPlace, uses: &[Use]) -> bool
    ensures { result ≡ list_any (λ u. Moved.touches (place_view place.now) (place_view u.place)) uses.now }
{
    uses.iter().any(|found| touches(place, &found.place))
}

#[tactic(auto, using(crate::proofs::Reading::any_touch_listed))]
fn is_reading(place: &ReadPlace, expr: &BoundExpr) -> bool
    ensures { result ≡ expr_reads (place_view place.now) (expr_view expr.now) }
{
    match expr {
        BoundExpr::TruthWritten { .. } => false,
        BoundExpr::Extraction { value, .. } => touches(place, &value.place),
        BoundExpr::Call { args, .. } => are_reading(place, args),
        BoundExpr::VariantOf { fields, .. } => are_reading(place, fields),
        BoundExpr::StructOf { fields, .. } => are_reading(place, fields),
        BoundExpr::SomeOf { value } => touches(place, &value.place),
    }
}

#[tactic(auto, using(crate::proofs::Reading::in_one))]
fn is_of_site(site: BindingId, place: &ReadPlace) -> bool
    ensures { result ≡ is_of (site ∷ []) (place_view place.now) }
{
    match place {
        ReadPlace::Variable { site: read } => site == *read,
        ReadPlace::PartOf { tuple, .. } => site == *tuple,
        ReadPlace::Parameter { .. } => false,
        ReadPlace::IntWritten { .. } => false,
        ReadPlace::NameWritten { .. } => false,
        ReadPlace::VariantWritten { .. } => false,
        ReadPlace::StructWritten { .. } => false,
    }
}

#[tactic(auto, using(crate::proofs::Reading::in_one))]
fn is_bound_to(field: Option<BindingId>, site: BindingId) -> bool
    ensures { result ≡ is_in site (field_sites (field ∷ [])) }
{
    match field {
        Some(bound) => bound == site,
        None => false,
    }
}

fn binds_site(fields: &[Option<BindingId>], site: BindingId) -> bool
    ensures { result ≡ list_any (λ f. is_in site (field_sites (f ∷ []))) fields.now }
{
    fields.iter().any(|field| is_bound_to(*field, site))
}

#[tactic(auto, using(crate::proofs::Reading::in_fields))]
fn is_of_field(fields: &[Option<BindingId>], place: &ReadPlace) -> bool
    ensures { result ≡ is_of (field_sites fields.now) (place_view place.now) }
{
    match place {
        ReadPlace::Variable { site } => binds_site(fields, *site),
        ReadPlace::PartOf { tuple, .. } => binds_site(fields, *tuple),
        ReadPlace::Parameter { .. } => false,
        ReadPlace::IntWritten { .. } => false,
        ReadPlace::NameWritten { .. } => false,
        ReadPlace::VariantWritten { .. } => false,
        ReadPlace::StructWritten { .. } => false,
    }
}

// Whether what follows a statement means another variable by a place, or nothing comes to it.
#[tactic(auto, using(crate::proofs::CodeBridges::code_steps))]
pub(crate) fn hides(statement: &Statement, place: &ReadPlace) -> bool
    ensures { (later : Bool) → read_behind (place_view place.now) (statement_view statement.now) later ≡ (not result && later) }
{
    match statement {
        Statement::NoWay => true,
        Statement::Bind { site, .. } => is_of_site(*site, place),
        Statement::BindSome { site, .. } => is_of_site(*site, place),
        Statement::UnlessLet { fields, .. } => is_of_field(fields, place),
        Statement::MatchOn { .. } => false,
        Statement::IfEqual { .. } => false,
        Statement::ForEachOf { .. } => false,
        Statement::Give { .. } => false,
        Statement::Labelled { .. } => false,
        Statement::UnlessEqual { .. } => false,
    }
}

/// Whether statements read of a place.
#[cycle(reads)]
pub(crate) fn is_read(statements: &[Statement], place: &ReadPlace) -> bool
    ensures { result ≡ block_reads (place_view place.now) (before statements.now no_statement) }
{
    for statement in statements {
        if is_read_at(statement, place) {
            return true;
        }
        if hides(statement, place) {
            return false;
        }
    }
    false
}

#[tactic(auto, using(crate::proofs::CodeBridges::code_steps))]
#[cycle(reads)]
fn is_read_at(statement: &Statement, place: &ReadPlace) -> bool
    ensures { result ≡ statement_reads (place_view place.now) (statement_view statement.now) }
{
    match statement {
        Statement::Bind { expr, .. } => is_reading(place, expr),
        Statement::BindSome { value, .. } => touches(place, &value.place),
        Statement::NoWay => false,
        Statement::MatchOn { value, arms } => touches(place, &value.place)
            || is_read_in(arms, place),
        Statement::IfEqual { a, b, body } => {
            touches(place, &a.place) || touches(place, &b.place) || is_read(&body.statements, place)
        }
        Statement::ForEachOf { site, from, body } => {
            let gone_over = ReadPlace::Variable { site: *from };
            touches(place, &gone_over)
                || (!is_of_site(*site, place) && is_read(&body.statements, place))
        }
        Statement::Give { value, .. } => touches(place, &value.place),
        Statement::Labelled { body } => is_read(&body.statements, place),
        Statement::UnlessLet { value, .. } => touches(place, &value.place),
        Statement::UnlessEqual { a, b } => touches(place, &a.place) || touches(place, &b.place),
    }
}

#[cycle(reads)]
fn is_read_in(arms: &[CodeArm], place: &ReadPlace) -> bool
    ensures { result ≡ arms_read (place_view place.now) (arms_before arms.now no_code_arm) }
{
    for arm in arms {
        if is_read_by(arm, place) {
            return true;
        }
    }
    false
}

#[cycle(reads)]
fn is_read_by(arm: &CodeArm, place: &ReadPlace) -> bool
    ensures { (rest : Code.CodeArms) → arms_read (place_view place.now) (arm_view arm.now rest) ≡ (result || arms_read (place_view place.now) rest) }
{
    !is_of_field(&arm.fields, place) && is_read(&arm.body.statements, place)
}
