//! What values of types stand for, and what unknown functions take and give.
ghost use Rattle.std.specs.Prelude.{◌≡◌, ◌++◌, IfOk, OnOk, Some};
ghost use Rattle.std.specs.Bool.{◌==◌};
ghost use Rattle.model.specs.rules.Meaning.{look};
ghost use Rattle.laws_specs.specs.Specs as L;
ghost use Rattle.std.specs.List.{flat_map};
ghost use Rattle.model_questions.specs.Evaluated as E;
ghost use Rattle.spec_cases.specs.Sorts.{sort_view, type_sorts};

use crate::faults::Fault;
use core_types::TypeId;
use std::alloc::Global;

/// What values of a type stand for.
#[derive(Drop)]
pub enum Sort {
    /// Truths.
    Truths,
    /// Integers.
    Integers,
    /// Words of a width.
    Words(u32),
    /// Words of any of these widths.
    WordsAmong(Vec<u32>),
}

/// What values of this type stand for.
#[derive(Drop)]
pub struct TypeSort {
    /// The type.
    pub ty: TypeId,
    /// What its values stand for.
    pub sort: Sort,
}

/// What an unknown function takes and gives.
#[derive(Drop)]
pub struct FunctionSort {
    /// Its number.
    pub function: u32,
    /// What it takes.
    pub takes: Vec<Sort>,
    /// What it gives.
    pub gives: Sort,
}

// Adds the widths that a sort lists.
fn add_sort(sort: &Sort, out: &mut Vec<u32>) -> Result<(), Fault>
    ensures { OnOk result (out.new.items ≡ out.old.items ++ E.widths_in_sort (sort_view sort.now)) }
{
    match sort {
        Sort::WordsAmong(widths) => {
            out.extend_from_slice(widths)?;
            Ok(())
        }
        Sort::Truths | Sort::Integers | Sort::Words(_) => Ok(()),
    }
}

// Adds the widths that sorts list.
#[tactic(auto, using(crate::proofs::SortSteps::sort_steps))]
fn add_sorts(sorts: &[TypeSort], out: &mut Vec<u32>) -> Result<(), Fault>
    ensures { OnOk result (out.new.items ≡ out.old.items ++ flat_map (λ k. E.widths_in_sort k.1) (type_sorts sorts.now)) }
{
    match sorts {
        [] => Ok(()),
        [first, rest @ ..] => {
            add_sort(&first.sort, out)?;
            Ok(add_sorts(rest, out)?)
        }
    }
}

// Whether there are no widths.
fn has_no_width(widths: &[u32]) -> bool
    ensures { result ≡ L.is_closed (Some (L.words_among widths.now)) }
{
    match widths {
        [] => true,
        [_, ..] => false,
    }
}

// Whether a sort has no words.
fn is_closed(sort: &Sort) -> bool
    ensures { result ≡ L.is_closed (Some (sort_view sort.now)) }
{
    match sort {
        Sort::WordsAmong(widths) => has_no_width(widths),
        Sort::Truths | Sort::Integers | Sort::Words(_) => false,
    }
}

/// Whether the sort of a type has no words.
pub fn is_type_closed(sorts: &[TypeSort], ty: TypeId) -> bool
    ensures { result ≡ L.is_closed (look (λ k. k == ty.0) (type_sorts sorts.now)) }
{
    match sorts {
        [] => false,
        [first, rest @ ..] => {
            if first.ty.0 == ty.0 {
                is_closed(&first.sort)
            } else {
                is_type_closed(rest, ty)
            }
        }
    }
}

/// The widths that sorts list.
///
/// # Errors
///
/// `Memory` where memory is refused.
pub fn widths_of(alloc: Global, sorts: &[TypeSort]) -> Result<Vec<u32>, Fault>
    ensures { IfOk result (λ ws. ws.items ≡ flat_map (λ k. E.widths_in_sort k.1) (type_sorts sorts.now)) }
{
    let mut out = Vec::new(alloc);
    add_sorts(sorts, &mut out)?;
    Ok(out)
}
