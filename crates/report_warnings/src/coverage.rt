//! Which values constraints leave over.

use cranelift_isle::sema::{BuiltinType, Fields, IntType, Type, TypeEnv, TypeId, Variant};
use cranelift_isle::serialize::{Block, ControlFlow, MatchArm};
use cranelift_isle::trie_again::{Constraint, TupleIndex};
use std::alloc::{AllocError, Global};

/// Whether no run gets to the end of a block: a step returns, or its arms are for all values and no run gets to the end of one.
#[cycle(ends)]
pub(crate) fn ends(alloc: Global, tyenv: &TypeEnv, block: &Block) -> Result<bool, AllocError> {
    for step in &block.steps {
        if check_ends(alloc, tyenv, &step.check)? {
            return Ok(true);
        }
    }
    Ok(false)
}

// The same of a step.
#[cycle(ends)]
fn check_ends(alloc: Global, tyenv: &TypeEnv, check: &ControlFlow) -> Result<bool, AllocError> {
    match check {
        ControlFlow::Return { .. } => Ok(true),
        ControlFlow::Match { arms, .. } => arms_end(alloc, tyenv, arms),
        ControlFlow::Equal { .. } | ControlFlow::Loop { .. } => Ok(false),
    }
}

#[cycle(ends)]
fn arms_end(alloc: Global, tyenv: &TypeEnv, arms: &[MatchArm]) -> Result<bool, AllocError> {
    if !are_total(alloc, tyenv, arms)? {
        return Ok(false);
    }
    for arm in arms {
        if !ends(alloc, tyenv, &arm.body)? {
            return Ok(false);
        }
    }
    Ok(true)
}

// Whether each value has an arm.
fn are_total(alloc: Global, tyenv: &TypeEnv, arms: &[MatchArm]) -> Result<bool, AllocError> {
    let constraints = constraints_of(alloc, arms)?;
    cover(alloc, tyenv, &constraints)
}

/// The constraints of arms.
pub(crate) fn constraints_of(
    alloc: Global,
    arms: &[MatchArm],
) -> Result<Vec<Constraint>, AllocError> {
    let mut constraints = Vec::new(alloc);
    for arm in arms {
        constraints.push(arm.constraint)?;
    }
    Ok(constraints)
}

/// Whether each value meets one of these constraints, which are all of one type. Of a named constant no value is known.
pub(crate) fn cover(
    alloc: Global,
    tyenv: &TypeEnv,
    constraints: &[Constraint],
) -> Result<bool, AllocError> {
    let asked = Asked::by(alloc, constraints)?;
    Ok(match known(constraints) {
        Some(Constraint::Struct { .. }) => true,
        Some(Constraint::Variant { ty, .. }) => asked.free_variant(tyenv, ty).is_none(),
        Some(Constraint::ConstBool { .. }) => asked.free_bool().is_none(),
        Some(Constraint::ConstInt { ty, .. }) => match int_type(tyenv, ty) {
            Some(int) => asked.free_int(int).is_none(),
            None => false,
        },
        Some(Constraint::ConstPrim { .. } | Constraint::Some) | None => false,
    })
}

/// A constraint that a value meets that meets none of these, if one is known.
pub(crate) fn left_over(
    alloc: Global,
    tyenv: &TypeEnv,
    constraints: &[Constraint],
) -> Result<Option<Constraint>, AllocError> {
    let asked = Asked::by(alloc, constraints)?;
    Ok(match known(constraints) {
        Some(Constraint::Variant { ty, .. }) => match asked.free_variant(tyenv, ty) {
            Some(variant) => constraint_of(ty, variant),
            None => None,
        },
        Some(Constraint::ConstInt { ty, .. }) => match int_type(tyenv, ty) {
            Some(int) => asked
                .free_int(int)
                .map(|val| Constraint::ConstInt { val, ty }),
            None => None,
        },
        Some(Constraint::ConstBool { ty, .. }) => asked
            .free_bool()
            .map(|val| Constraint::ConstBool { val, ty }),
        Some(Constraint::Struct { .. } | Constraint::ConstPrim { .. } | Constraint::Some) | None =>
            None,
    })
}

/// The constraint that each value meets that meets none of these, if one is known.
pub(crate) fn only_left(
    alloc: Global,
    tyenv: &TypeEnv,
    constraints: &[Constraint],
) -> Result<Option<Constraint>, AllocError> {
    let asked = Asked::by(alloc, constraints)?;
    Ok(match known(constraints) {
        Some(Constraint::Variant { ty, .. }) => match asked.only_variant(tyenv, ty) {
            Some(variant) => constraint_of(ty, variant),
            None => None,
        },
        Some(Constraint::ConstBool { ty, .. }) => asked
            .free_bool()
            .map(|val| Constraint::ConstBool { val, ty }),
        Some(
            Constraint::ConstInt { .. }
            | Constraint::Struct { .. }
            | Constraint::ConstPrim { .. }
            | Constraint::Some,
        )
        | None => None,
    })
}

// The first of these constraints that isn't a named constant.
fn known(constraints: &[Constraint]) -> Option<Constraint> {
    for constraint in constraints {
        if !matches!(constraint, Constraint::ConstPrim { .. }) {
            return Some(*constraint);
        }
    }
    None
}

/// The built-in integer type of an id, if it is that of one.
pub(crate) fn int_type(tyenv: &TypeEnv, ty: TypeId) -> Option<IntType> {
    match tyenv.types.get(ty.index())? {
        Type::Builtin(BuiltinType::Int(int)) => Some(*int),
        _ => None,
    }
}

fn constraint_of(ty: TypeId, variant: &Variant) -> Option<Constraint> {
    let count = match &variant.fields {
        Fields::Unit => 0,
        Fields::Struct(fields) => fields.fields.len(),
        Fields::Tuple(fields) => fields.fields.len(),
    };
    let fields = TupleIndex::try_from(count).ok()?;
    Some(Constraint::Variant {
        ty,
        variant: variant.id,
        fields,
    })
}

// What constraints of one type ask for, sorted: integers, the numbers of variants, 0 for false and 1 for true.
struct Asked {
    numbers: Vec<i128>,
}

impl Drop for Asked {
    fn drop(self) {
        let Asked { numbers: _ } = self;
    }
}

impl Asked {
    fn by(alloc: Global, constraints: &[Constraint]) -> Result<Asked, AllocError> {
        let mut numbers = Vec::new(alloc);
        for constraint in constraints {
            match constraint {
                Constraint::Variant { variant, .. } => numbers.push(variant.index() as i128)?,
                Constraint::ConstBool { val, .. } => numbers.push(if *val { 1 } else { 0 })?,
                Constraint::ConstInt { val, .. } => numbers.push(*val)?,
                Constraint::Struct { .. } | Constraint::ConstPrim { .. } | Constraint::Some => {}
            }
        }
        numbers.sort()?;
        Ok(Asked { numbers })
    }

    fn has(&self, number: i128) -> bool {
        self.numbers.binary_search(&number).is_ok()
    }

    // The first variant of an enum that isn't asked for.
    fn free_variant<'a>(&self, tyenv: &'a TypeEnv, ty: TypeId) -> Option<&'a Variant> {
        let Some(Type::Enum { variants, .. }) = tyenv.types.get(ty.index()) else {
            return None;
        };
        for variant in variants {
            if !self.has(variant.id.index() as i128) {
                return Some(variant);
            }
        }
        None
    }

    // The variant of an enum that isn't asked for, if there is just one.
    fn only_variant<'a>(&self, tyenv: &'a TypeEnv, ty: TypeId) -> Option<&'a Variant> {
        let Some(Type::Enum { variants, .. }) = tyenv.types.get(ty.index()) else {
            return None;
        };
        let mut only = None;
        for variant in variants {
            if !self.has(variant.id.index() as i128) {
                if only.is_some() {
                    return None;
                }
                only = Some(variant);
            }
        }
        only
    }

    // The first truth value that isn't asked for.
    fn free_bool(&self) -> Option<bool> {
        if !self.has(1) {
            return Some(true);
        }
        if !self.has(0) {
            return Some(false);
        }
        None
    }

    // A number of the type that isn't asked for: the one nearest to 0.
    fn free_int(&self, int: IntType) -> Option<i128> {
        let mut number = 0i128;
        for _ in 0..self.numbers.len().saturating_add(1) {
            if self.is_free(int, number) {
                return Some(number);
            }
            let below = 0i128.saturating_sub(number);
            if self.is_free(int, below) {
                return Some(below);
            }
            number = number.saturating_add(1);
        }
        None
    }

    // Whether a number is of the type and isn't asked for.
    fn is_free(&self, int: IntType, number: i128) -> bool {
        int.reduce(number) == number && !self.has(number)
    }
}
