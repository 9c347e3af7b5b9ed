//! Moves in place of clones, wherever a move may stand.

ghost use Rattle.std.specs.Prelude.{[], List, ◌≡◌, ◌&&◌, ◌||◌, ◌++◌, ◌∷◌, ℕ, IfOk, OnOk};
ghost use Rattle.model_code.specs.Code.{no_code_arm, no_statement};
ghost use Rattle.model_code.specs.Code as Code;
ghost use Rattle.model_code.specs.Modes.{is_owned, is_value, mode_at, Types};
ghost use Rattle.model_code.specs.MovedOnce as Moved;
ghost use Rattle.model_code.specs.MovedOnce.{any_touch, beside, block_reads, is_of, movable_after};
ghost use Rattle.model_code.specs.Saving.{all_saved, may_save, saved, saved_arms, saved_at, saved_expr, saved_pass, saved_use};
ghost use Rattle.model_code.specs.Saving as Saving;
ghost use Rattle.model.specs.trees.Places.{field_sites, is_in};
ghost use Rattle.rust_code.specs.CodeViews.{arm_view, arms_before, before, block_view, expr_view, pass_view, place_view, statement_view, use_view, use_views};
ghost use Rattle.rust_code.specs.Spots.{later_at, left_reads, HasSame, OfSpots, SaysModes};

use crate::code::{BoundExpr, CodeArm, CodeBlock, Pass, ReadPlace, Statement, Use};
use crate::held::{Held, held_at};
use crate::reads::{are_reading, hides, is_read};
use core_rule_sets::trie_again::BindingId;
use std::alloc::{AllocError, Global};

/// What is left of a block.
#[derive(Clone, Copy)]
pub(crate) struct Left<'a> {
    /// Its statements.
    pub statements: &'a [Statement],
}

/// What a block stands in.
#[derive(Clone, Copy)]
pub(crate) struct Around<'a> {
    /// Where memory is asked of.
    pub alloc: Global,
    /// How each site holds its value.
    pub held: &'a [Held],
    /// What is left of the blocks around, up to the loop around, from the inside out.
    pub after: &'a [Left<'a>],
}

/// Where a statement stands.
#[derive(Clone, Copy)]
pub(crate) struct Spot<'a> {
    /// Where memory is asked of.
    pub alloc: Global,
    /// How each site holds its value.
    pub held: &'a [Held],
    /// What is left of the blocks around, up to the loop around, from the inside out.
    pub after: &'a [Left<'a>],
    /// The variables that may be moved: they were bound in this turn of the loop around, and weren't looked into.
    pub inside: &'a [BindingId],
    /// What follows it in its block.
    pub rest: &'a [Statement],
}

fn is_read_after(after: &[Left<'_>], place: &ReadPlace) -> bool
    ensures { result ≡ left_reads after.now (place_view place.now) }
{
    after.iter().any(|left| is_read(left.statements, place))
}

fn is_read_behind(statement: &Statement, spot: &Spot<'_>, place: &ReadPlace) -> bool
    ensures { result ≡ later_at statement.now spot.now (place_view place.now) }
{
    (!hides(statement, place) && is_read(spot.rest, place)) || is_read_after(spot.after, place)
}

fn is_one_of(sites: &[BindingId], site: BindingId) -> bool
    ensures { result ≡ is_in site sites.now }
{
    sites.iter().any(|found| *found == site)
}

// Whether a site may be moved if nothing reads it later: it is bound in this turn of a loop, and holds its value.
fn is_site_movable(spot: &Spot<'_>, site: BindingId) -> bool
    ensures { OfSpots spot.now.held.now spot.now.inside.now (λ types movable. result ≡ (is_value (types.variables site) && is_in site movable)) }
{
    let is_reference = held_at(spot.held, site).is_reference;
    let is_inside = is_one_of(spot.inside, site);
    !is_reference && is_inside
}

// Whether a place may be moved if nothing reads it later.
fn is_movable(spot: &Spot<'_>, place: &ReadPlace) -> bool
    ensures { OfSpots spot.now.held.now spot.now.inside.now (λ types movable.
        result ≡ ((is_value (mode_at types (place_view place.now)) && is_owned types (place_view place.now)) && is_of movable (place_view place.now))) }
{
    match place {
        ReadPlace::Variable { site } => is_site_movable(spot, *site),
        ReadPlace::PartOf { tuple, .. } => is_site_movable(spot, *tuple),
        ReadPlace::Parameter { .. } => false,
        ReadPlace::IntWritten { .. } => false,
        ReadPlace::NameWritten { .. } => false,
        ReadPlace::VariantWritten { .. } => false,
        ReadPlace::StructWritten { .. } => false,
    }
}

// Whether a place is read later than by a use among those before and behind it in its statement.
fn is_read_later(
    statement: &Statement,
    spot: &Spot<'_>,
    place: &ReadPlace,
    before: &[Use],
    behind: &[Use],
) -> bool
    ensures { result ≡ beside (use_views before.now) (use_views behind.now) (later_at statement.now spot.now) (place_view place.now) }
{
    is_read_beside(place, before, behind) || is_read_behind(statement, spot, place)
}

// Whether one of the uses before and behind a use in its statement reads of a place.
#[tactic(auto, using(crate::proofs::Reading::any_touch_listed))]
fn is_read_beside(place: &ReadPlace, before: &[Use], behind: &[Use]) -> bool
    ensures { result ≡ (any_touch (place_view place.now) (use_views before.now) || any_touch (place_view place.now) (use_views behind.now)) }
{
    are_reading(place, before) || are_reading(place, behind)
}

// Whether a use of a place may move it, among those before and behind it in its statement.
fn may_move(
    statement: &Statement,
    spot: &Spot<'_>,
    place: &ReadPlace,
    before: &[Use],
    behind: &[Use],
) -> bool
    ensures { OfSpots spot.now.held.now spot.now.inside.now (λ types movable.
        result ≡ may_save types movable (beside (use_views before.now) (use_views behind.now) (later_at statement.now spot.now)) (place_view place.now)) }
{
    is_movable(spot, place) && !is_read_later(statement, spot, place, before, behind)
}

// How what was cloned is handed on, where it may be moved or not.
fn moved_or_cloned(may: bool) -> Pass
    ensures { pass_view result ≡ saved_pass may Code.cloned }
{
    if may { Pass::AsItIs } else { Pass::Cloned }
}

// A use, among those before and behind it in its statement.
fn use_with_moves(
    statement: &Statement,
    spot: &Spot<'_>,
    value: &Use,
    before: &[Use],
    behind: &[Use],
) -> Use
    ensures { OfSpots spot.now.held.now spot.now.inside.now (λ types movable.
        use_view result ≡ saved_use types movable (beside (use_views before.now) (use_views behind.now) (later_at statement.now spot.now)) (use_view value.now)) }
{
    match value.pass {
        Pass::Cloned => Use {
            place: value.place,
            pass: moved_or_cloned(may_move(statement, spot, &value.place, before, behind)),
        },
        Pass::AsItIs => *value,
        Pass::Lent => *value,
        Pass::SeenThrough => *value,
    }
}

// Uses that are handed on together.
fn uses_with_moves(
    statement: &Statement,
    spot: &Spot<'_>,
    uses: &[Use],
) -> Result<Vec<Use>, AllocError>
    ensures { IfOk result (λ v. OfSpots spot.now.held.now spot.now.inside.now (λ types movable.
        use_views v.items ≡ all_saved types movable (later_at statement.now spot.now) [] (use_views uses.now))) }
{
    let mut out = Vec::new(spot.alloc);
    let mut number = 0;
    for value in uses {
        number += 1;
        let made = use_with_moves(statement, spot, value, &out, &uses[number..]);
        out.push(made)?;
    }
    Ok(out)
}

// What a variable is bound to: what is made takes values.
fn expr_with_moves(
    statement: &Statement,
    spot: &Spot<'_>,
    expr: &BoundExpr,
) -> Result<BoundExpr, AllocError>
    ensures { IfOk result (λ e. OfSpots spot.now.held.now spot.now.inside.now (λ types movable.
        expr_view e ≡ saved_expr types movable (later_at statement.now spot.now) (expr_view expr.now))) }
{
    match expr {
        BoundExpr::TruthWritten { val, ty } => Ok(BoundExpr::TruthWritten { val: *val, ty: *ty }),
        BoundExpr::Extraction { term, value } => Ok(BoundExpr::Extraction {
            term: *term,
            value: *value,
        }),
        BoundExpr::Call {
            term,
            args,
            instance,
        } => Ok(BoundExpr::Call {
            term: *term,
            args: Vec::from_slice(spot.alloc, args)?,
            instance: *instance,
        }),
        BoundExpr::VariantOf {
            ty,
            variant,
            fields,
        } => Ok(BoundExpr::VariantOf {
            ty: *ty,
            variant: *variant,
            fields: uses_with_moves(statement, spot, fields)?,
        }),
        BoundExpr::StructOf { ty, fields } => Ok(BoundExpr::StructOf {
            ty: *ty,
            fields: uses_with_moves(statement, spot, fields)?,
        }),
        BoundExpr::SomeOf { value } => Ok(BoundExpr::SomeOf {
            value: use_with_moves(statement, spot, value, &[], &[]),
        }),
    }
}

fn without(
    alloc: Global,
    inside: &[BindingId],
    site: BindingId,
) -> Result<Vec<BindingId>, AllocError>
    ensures { IfOk result (λ v. v.items ≡ Moved.without site inside.now) }
{
    let mut out = Vec::new(alloc);
    for bound in inside {
        if *bound != site {
            out.push(*bound)?;
        }
    }
    Ok(out)
}

// Those of these variables that may be moved once a place was looked into: names for what is within it are in scope.
fn unlooked(
    alloc: Global,
    inside: &[BindingId],
    place: &ReadPlace,
) -> Result<Vec<BindingId>, AllocError>
    ensures { IfOk result (λ v. v.items ≡ Moved.unlooked inside.now (place_view place.now)) }
{
    match place {
        ReadPlace::Variable { site } => Ok(without(alloc, inside, *site)?),
        ReadPlace::PartOf { tuple, .. } => Ok(without(alloc, inside, *tuple)?),
        ReadPlace::Parameter { .. } => Ok(Vec::from_slice(alloc, inside)?),
        ReadPlace::IntWritten { .. } => Ok(Vec::from_slice(alloc, inside)?),
        ReadPlace::NameWritten { .. } => Ok(Vec::from_slice(alloc, inside)?),
        ReadPlace::VariantWritten { .. } => Ok(Vec::from_slice(alloc, inside)?),
        ReadPlace::StructWritten { .. } => Ok(Vec::from_slice(alloc, inside)?),
    }
}

fn add_fields(inside: &mut Vec<BindingId>, fields: &[Option<BindingId>]) -> Result<(), AllocError>
    ensures { OnOk result (inside.new.items ≡ inside.old.items ++ field_sites fields.now) }
{
    for field in fields {
        if let Some(site) = field {
            inside.push(*site)?;
        }
    }
    Ok(())
}

// The variables that may be moved behind a statement of their block.
fn movable_behind(
    alloc: Global,
    inside: Vec<BindingId>,
    statement: &Statement,
) -> Result<Vec<BindingId>, AllocError>
    ensures { IfOk result (λ v. (movable : List ℕ) → HasSame inside.items movable → HasSame v.items (movable_after movable (statement_view statement.now))) }
{
    match statement {
        Statement::Bind { site, .. } => Ok(with_site(inside, *site)?),
        Statement::BindSome { site, value } => {
            let kept = unlooked(alloc, &inside, &value.place)?;
            Ok(with_site(kept, *site)?)
        }
        Statement::UnlessLet { value, fields, .. } => {
            let mut kept = unlooked(alloc, &inside, &value.place)?;
            add_fields(&mut kept, fields)?;
            Ok(kept)
        }
        Statement::NoWay => Ok(inside),
        Statement::MatchOn { .. } => Ok(inside),
        Statement::IfEqual { .. } => Ok(inside),
        Statement::ForEachOf { .. } => Ok(inside),
        Statement::Give { .. } => Ok(inside),
        Statement::Labelled { .. } => Ok(inside),
        Statement::UnlessEqual { .. } => Ok(inside),
    }
}

fn with_site(inside: Vec<BindingId>, site: BindingId) -> Result<Vec<BindingId>, AllocError>
    ensures { IfOk result (λ v. v.items ≡ inside.items ++ site ∷ []) }
{
    let mut out = inside;
    out.push(site)?;
    Ok(out)
}

// What is left of the blocks around the body of a statement.
fn left_around<'a>(spot: &Spot<'a>) -> Result<Vec<Left<'a>>, AllocError>
    ensures { IfOk result (λ v. (q : Code.Place) → left_reads v.items q
        ≡ (block_reads q (before spot.now.rest.now no_statement) || left_reads spot.now.after.now q)) }
{
    let mut out = Vec::new(spot.alloc);
    out.push(Left {
        statements: spot.rest,
    })?;
    out.extend_from_slice(spot.after)?;
    Ok(out)
}

/// The same code with moves in place of clones, wherever a move may stand: of a value that was bound in the same turn of the loop
/// around, isn't behind a reference, and is read no more, while no name for what is within it is in scope.
///
/// # Errors
///
/// Where memory is refused.
pub fn with_moves(alloc: Global, held: &[Held], code: &CodeBlock) -> Result<CodeBlock, AllocError>
    ensures { IfOk result (λ b. (types : Types) → SaysModes held.now types → block_view b ≡ Saving.with_moves types (block_view code.now)) }
{
    let around = Around {
        alloc,
        held: &*held,
        after: &[],
    };
    Ok(block_with_moves(&code.statements, &around, Vec::new(alloc))?)
}

// A block, where these variables may be moved.
#[cycle(moves)]
fn block_with_moves<'a>(
    statements: &'a [Statement],
    around: &Around<'a>,
    movable: Vec<BindingId>,
) -> Result<CodeBlock, AllocError>
    ensures { IfOk result (λ b. OfSpots around.now.held.now movable.items (λ types inside.
        block_view b ≡ saved types inside (left_reads around.now.after.now) (before statements.now no_statement))) }
{
    let mut out = Vec::new(around.alloc);
    let mut inside = movable;
    let mut number = 0;
    for statement in statements {
        number += 1;
        let spot = Spot {
            alloc: around.alloc,
            held: around.held,
            after: around.after,
            inside: &inside,
            rest: &statements[number..],
        };
        let made = statement_with_moves(statement, &spot)?;
        out.push(made)?;
        inside = movable_behind(around.alloc, inside, statement)?;
    }
    Ok(CodeBlock { statements: out })
}

#[cycle(moves)]
fn statement_with_moves(statement: &Statement, spot: &Spot<'_>) -> Result<Statement, AllocError>
    ensures { IfOk result (λ s. OfSpots spot.now.held.now spot.now.inside.now (λ types movable.
        statement_view s ≡ saved_at types movable (later_at statement.now spot.now) (statement_view statement.now))) }
{
    match statement {
        Statement::Bind { site, expr } => Ok(Statement::Bind {
            site: *site,
            expr: expr_with_moves(statement, spot, expr)?,
        }),
        Statement::BindSome { site, value } => Ok(Statement::BindSome {
            site: *site,
            value: *value,
        }),
        Statement::NoWay => Ok(Statement::NoWay),
        Statement::MatchOn { value, arms } => {
            let after = left_around(spot)?;
            let around = Around {
                alloc: spot.alloc,
                held: spot.held,
                after: &after,
            };
            let inside = unlooked(spot.alloc, spot.inside, &value.place)?;
            let made = arms_with_moves(arms, &around, &inside)?;
            Ok(Statement::MatchOn {
                value: *value,
                arms: made,
            })
        }
        Statement::IfEqual { a, b, body } => {
            let made = body_with_moves(body, spot)?;
            Ok(Statement::IfEqual {
                a: *a,
                b: *b,
                body: made,
            })
        }
        Statement::ForEachOf { site, from, body } => {
            let made = turn_with_moves(body, spot, *site)?;
            Ok(Statement::ForEachOf {
                site: *site,
                from: *from,
                body: made,
            })
        }
        Statement::Give { pos, value } => Ok(Statement::Give {
            pos: *pos,
            value: use_with_moves(statement, spot, value, &[], &[]),
        }),
        Statement::Labelled { body } => {
            let made = body_with_moves(body, spot)?;
            Ok(Statement::Labelled { body: made })
        }
        Statement::UnlessLet {
            value,
            pattern,
            fields,
        } => Ok(Statement::UnlessLet {
            value: *value,
            pattern: *pattern,
            fields: Vec::from_slice(spot.alloc, fields)?,
        }),
        Statement::UnlessEqual { a, b } => Ok(Statement::UnlessEqual { a: *a, b: *b }),
    }
}

// The body of a comparison or of a label.
#[cycle(moves)]
fn body_with_moves(body: &CodeBlock, spot: &Spot<'_>) -> Result<CodeBlock, AllocError>
    ensures { IfOk result (λ b. OfSpots spot.now.held.now spot.now.inside.now (λ types movable.
        block_view b ≡ saved types movable (λ q. block_reads q (before spot.now.rest.now no_statement) || left_reads spot.now.after.now q) (block_view body.now))) }
{
    let after = left_around(spot)?;
    let around = Around {
        alloc: spot.alloc,
        held: spot.held,
        after: &after,
    };
    let inside = Vec::from_slice(spot.alloc, spot.inside)?;
    Ok(block_with_moves(&body.statements, &around, inside)?)
}

// The body of a loop. What was bound outside of it is read again in the next turn.
#[cycle(moves)]
fn turn_with_moves(
    body: &CodeBlock,
    spot: &Spot<'_>,
    site: BindingId,
) -> Result<CodeBlock, AllocError>
    ensures { IfOk result (λ b. (types : Types) → SaysModes spot.now.held.now types
        → block_view b ≡ saved types (site ∷ []) Moved.read_no_more (block_view body.now)) }
{
    let around = Around {
        alloc: spot.alloc,
        held: spot.held,
        after: &[],
    };
    let inside = with_site(Vec::new(spot.alloc), site)?;
    Ok(block_with_moves(&body.statements, &around, inside)?)
}

// Arms, where these variables may be moved.
#[cycle(moves)]
fn arms_with_moves<'a>(
    arms: &'a [CodeArm],
    around: &Around<'a>,
    inside: &[BindingId],
) -> Result<Vec<CodeArm>, AllocError>
    ensures { IfOk result (λ v. OfSpots around.now.held.now inside.now (λ types movable.
        arms_before v.items no_code_arm ≡ saved_arms types movable (left_reads around.now.after.now) (arms_before arms.now no_code_arm))) }
{
    let mut out = Vec::new(around.alloc);
    for arm in arms {
        let made = arm_with_moves(arm, around, inside)?;
        out.push(made)?;
    }
    Ok(out)
}

#[cycle(moves)]
fn arm_with_moves<'a>(
    arm: &'a CodeArm,
    around: &Around<'a>,
    inside: &[BindingId],
) -> Result<CodeArm, AllocError>
    ensures { IfOk result (λ a. OfSpots around.now.held.now inside.now (λ types movable.
        (rest : Code.CodeArms) → arm_view a (saved_arms types movable (left_reads around.now.after.now) rest)
        ≡ saved_arms types movable (left_reads around.now.after.now) (arm_view arm.now rest))) }
{
    let mut bound = Vec::from_slice(around.alloc, inside)?;
    add_fields(&mut bound, &arm.fields)?;
    let body = block_with_moves(&arm.body.statements, around, bound)?;
    Ok(CodeArm {
        pattern: arm.pattern,
        fields: Vec::from_slice(around.alloc, &arm.fields)?,
        body,
    })
}
