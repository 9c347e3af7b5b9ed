//! What values of types stand for, and unknown functions.

use crate::translation::{Above, Translation};
use cranelift_isle::sema::{BuiltinType, Term, TermKind, Type, TypeId};
use spec_cases::faults::Fault;
use spec_cases::sorts::{FunctionSort, Sort, TypeSort};
use spec_tables::models::ValueModel;
use spec_tables::specs::Specs;
use std::alloc::{AllocError, Global};

// The sort that a model of a built-in or a primitive type says. None where it says none.
fn sort_of(alloc: Global, model: ValueModel, widths: &[u32]) -> Result<Option<Sort>, AllocError> {
    Ok(match model {
        ValueModel::Truth => Some(Sort::Truths),
        ValueModel::Integer | ValueModel::Unit => Some(Sort::Integers),
        ValueModel::Word(width) => match u32::try_from(width) {
            Ok(width) => Some(Sort::Words(width)),
            Err(_) => None,
        },
        ValueModel::AnyWord => Some(Sort::WordsAmong(Vec::from_slice(alloc, widths)?)),
        ValueModel::Own | ValueModel::Unknown => None,
    })
}

// Whether values of a model can be what an unknown function takes or gives.
fn is_plain(model: ValueModel) -> bool {
    match model {
        ValueModel::Truth | ValueModel::Integer => true,
        ValueModel::Word(width) => u32::try_from(width).is_ok(),
        ValueModel::AnyWord | ValueModel::Unit | ValueModel::Own | ValueModel::Unknown => false,
    }
}

/// The widths at which words are asked about that may have any.
pub(crate) fn listed_widths(alloc: Global, specs: &Specs<'_>) -> Result<Vec<u32>, AllocError> {
    let mut widths = Vec::new(alloc);
    for width in &specs.widths {
        add_width(*width, &mut widths)?;
    }
    Ok(widths)
}

/// The widths that words may have: those that are listed, and those of models that specs say.
pub(crate) fn all_widths(
    alloc: Global,
    types: &[Type],
    specs: &Specs<'_>,
) -> Result<Vec<u32>, AllocError> {
    let mut widths = listed_widths(alloc, specs)?;
    for (ty, model) in types.iter().zip(&specs.models) {
        match (ty, *model) {
            (Type::Builtin(_), _) => {}
            (_, ValueModel::Word(width)) => add_width(width, &mut widths)?,
            _ => {}
        }
    }
    Ok(widths)
}

// Adds a width that isn't there yet.
fn add_width(width: usize, widths: &mut Vec<u32>) -> Result<(), AllocError> {
    if let Ok(width) = u32::try_from(width) {
        if !widths.iter().any(|known| *known == width) {
            widths.push(width)?;
        }
    }
    Ok(())
}

impl<'c, 's> Translation<'c, 's> {
    /// The number of a term as an unknown function. None where it can't be one.
    pub(crate) fn function_of(&self, term: &Term) -> Option<u32> {
        if !self.is_function(term) {
            return None;
        }
        match u32::try_from(term.id.index()) {
            Ok(number) => Some(number),
            Err(_) => None,
        }
    }

    // Whether a term may be an unknown function: it is pure, always answers once, no spec says what, and it takes built-in values alone,
    // since other values may differ and stand for one thing.
    fn is_function(&self, term: &Term) -> bool {
        let TermKind::Decl { flags, .. } = &term.kind else {
            return false;
        };
        if !flags.pure || flags.multi || flags.partial || self.specs.spec(term.id).is_some() {
            return false;
        }
        for ty in &term.arg_tys {
            if !self.is_builtin(*ty) || !is_plain(self.specs.model(*ty)) {
                return false;
            }
        }
        is_plain(self.specs.model(term.ret_ty))
    }

    fn is_builtin(&self, ty: TypeId) -> bool {
        match self.lowered.tyenv.types.get(ty.index()) {
            Some(Type::Builtin(BuiltinType::Bool | BuiltinType::Int(_))) => true,
            _ => false,
        }
    }

    /// What values of types stand for. Of an enum with a model there are no values but its variants.
    pub(crate) fn type_sorts(&self, listed: &[u32]) -> Result<Vec<TypeSort>, Fault> {
        let mut sorts = Vec::new(self.alloc);
        for index in 0..self.lowered.tyenv.types.len() {
            let ty = TypeId(index);
            let model = self.specs.model(ty);
            if model == ValueModel::Own && !self.specs.variant_values(ty).is_empty() {
                let sort = Sort::WordsAmong(Vec::new(self.alloc));
                sorts.push(TypeSort { ty, sort })?;
            } else if let Some(sort) = sort_of(self.alloc, model, listed)? {
                sorts.push(TypeSort { ty, sort })?;
            }
        }
        Ok(sorts)
    }

    /// What unknown functions take and give.
    pub(crate) fn function_sorts(&self) -> Result<Vec<FunctionSort>, Fault> {
        let mut functions = Vec::new(self.alloc);
        for term in &self.lowered.termenv.terms {
            if let Some(function) = self.function_of(term) {
                self.add_function(function, term, &mut functions)?;
            }
        }
        for above in &self.above {
            self.add_above(*above, &mut functions)?;
        }
        Ok(functions)
    }

    // Adds what a term takes and gives as an unknown function.
    fn add_function(
        &self,
        function: u32,
        term: &Term,
        functions: &mut Vec<FunctionSort>,
    ) -> Result<(), Fault> {
        let mut takes = Vec::new(self.alloc);
        for ty in &term.arg_tys {
            if let Some(sort) = sort_of(self.alloc, self.specs.model(*ty), &[])? {
                takes.push(sort)?;
            }
        }
        if let Some(gives) = sort_of(self.alloc, self.specs.model(term.ret_ty), &[])? {
            functions.push(FunctionSort {
                function,
                takes,
                gives,
            })?;
        }
        Ok(())
    }

    // Adds the function for the bits above a word that becomes wider.
    fn add_above(&self, above: Above, functions: &mut Vec<FunctionSort>) -> Result<(), Fault> {
        let mut takes = Vec::new(self.alloc);
        takes.push(Sort::Words(above.from))?;
        functions.push(FunctionSort {
            function: above.function,
            takes,
            gives: Sort::Words(above.to.saturating_sub(above.from)),
        })?;
        Ok(())
    }
}
