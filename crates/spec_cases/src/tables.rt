//! What evaluation looks things up in.
use crate::known::Known;
use crate::sorts::{FunctionSort, TypeSort};
use core_types::Type;

/// What evaluation looks things up in.
#[derive(Clone, Copy)]
pub struct Tables<'t> {
    /// The types, by their numbers.
    pub types: &'t [Type],
    /// What values of types stand for.
    pub sorts: &'t [TypeSort],
    /// What unknown functions take and give.
    pub functions: &'t [FunctionSort],
    /// What is told of places.
    pub known: &'t Known,
}
