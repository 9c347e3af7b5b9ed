//! What the values of types stand for.

use crate::faults::{SpecFault, wrong};
use cranelift_isle::sema::{BuiltinType, IntType, Type, TypeEnv, TypeId};
use report_queries::names::type_name;
use std::alloc::{AllocError, Global};
use text_reader::syntax::ModelType;

/// What the values of a type stand for.
#[derive(Clone, Copy, PartialEq, Eq)]
pub enum ValueModel {
    /// Truth values.
    Truth,
    /// Integers.
    Integer,
    /// Words of this width.
    Word(usize),
    /// Words, each of a width of its own.
    AnyWord,
    /// Nothing that differs.
    Unit,
    /// Themselves: variants with fields, or structs.
    Own,
    /// What nobody says.
    Unknown,
}

/// The models of types where no spec says another one, by the types' ids: truth values, words of the bits of built-in integers,
/// and enums and structs as they are.
pub fn own_models(alloc: Global, types: &[Type]) -> Result<Vec<ValueModel>, AllocError> {
    let mut models = Vec::new(alloc);
    for ty in types {
        models.push(own_model(ty))?;
    }
    Ok(models)
}

/// The model of a type where no spec says another one.
pub(crate) fn own_model(ty: &Type) -> ValueModel {
    match ty {
        Type::Builtin(BuiltinType::Bool) => ValueModel::Truth,
        Type::Builtin(BuiltinType::Int(int)) => ValueModel::Word(bits_of(*int)),
        Type::Primitive(..) => ValueModel::Unknown,
        Type::Enum { .. } | Type::Struct { .. } => ValueModel::Own,
    }
}

// The bits of a built-in integer.
fn bits_of(int: IntType) -> usize {
    int.bits() as usize
}

/// The model that a spec says.
pub fn said_model(
    alloc: Global,
    tyenv: &TypeEnv,
    models: &[ValueModel],
    said: &ModelType,
) -> Result<ValueModel, SpecFault> {
    match said {
        ModelType::Int(_) => Ok(ValueModel::Integer),
        ModelType::Bool(_) => Ok(ValueModel::Truth),
        ModelType::Unit(_) => Ok(ValueModel::Unit),
        ModelType::BitVec(None, _) => Ok(ValueModel::AnyWord),
        ModelType::BitVec(Some(0), pos) => {
            Err(wrong(*pos, String::from_str(alloc, "a word of no bits")))
        }
        ModelType::BitVec(Some(width), _) => Ok(ValueModel::Word(*width)),
        ModelType::Named(name, _) => match tyenv.get_type_by_name(name) {
            Some(ty) => Ok(model_at(models, ty)),
            None => Err(wrong(name.1, format!(in alloc; "no type is called `{}`", name.0))),
        },
    }
}

// The widest words.
const WIDEST: usize = 4096;

/// Whether values of a model can be of the sort that a signature says.
pub(crate) fn fits_model(said: &ModelType, model: ValueModel) -> bool {
    match (said, model) {
        (ModelType::BitVec(Some(width), _), ValueModel::Word(known)) => *width == known,
        (ModelType::BitVec(Some(width), _), ValueModel::AnyWord) => 0 < *width && *width <= WIDEST,
        (ModelType::BitVec(None, _), ValueModel::Word(_) | ValueModel::AnyWord)
        | (ModelType::Bool(_), ValueModel::Truth)
        | (ModelType::Int(_), ValueModel::Integer)
        | (ModelType::Unit(_), ValueModel::Unit)
        | (ModelType::Named(..), _)
        | (_, ValueModel::Own | ValueModel::Unknown) => true,
        _ => false,
    }
}

/// The model of a type.
pub fn model_at(models: &[ValueModel], ty: TypeId) -> ValueModel {
    match models.get(ty.index()) {
        Some(model) => *model,
        None => ValueModel::Unknown,
    }
}

/// That a type has no model.
pub fn without_model(alloc: Global, tyenv: &TypeEnv, ty: TypeId) -> Result<String, AllocError> {
    let name = type_name(tyenv, ty).unwrap_or("_");
    format!(in alloc; "the type `{name}` has no model")
}
