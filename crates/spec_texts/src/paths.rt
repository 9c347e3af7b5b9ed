//! Paths: what constants are, as people are told.

use crate::declared::Constant;
use crate::faults::Fault;
use spec_cases::arena::Formulas;
use spec_cases::formulas::{Place, PlaceId};
use std::alloc::AllocError;

// What a place is a field of, if it is one.
fn above(layer: Place) -> Option<PlaceId> {
    match layer {
        Place::Argument { .. } | Place::Site { .. } | Place::Output { .. } => None,
        Place::VariantField { of, .. } | Place::StructField { of, .. } => Some(of),
    }
}

// Adds what a place is, behind what it is a field of.
fn push_layer(out: &mut String, layer: Place) -> Result<(), AllocError> {
    match layer {
        Place::Argument { index } => write!(out, "arg{index}"),
        Place::Site { site } => write!(out, "site{site}"),
        Place::Output { site, index } => write!(out, "site{site}.out{index}"),
        Place::VariantField { variant, index, .. } => {
            let number = variant.0;
            write!(out, ".v{number}.{index}")
        }
        Place::StructField { index, .. } => write!(out, ".{index}"),
    }
}

// Adds the path of a place.
fn push_place(formulas: &Formulas, out: &mut String, place: PlaceId) -> Result<(), Fault> {
    let layer = formulas.layer_at(place)?;
    if let Some(whole) = above(layer) {
        if whole.number() >= place.number() {
            return Err(Fault::Foreign);
        }
        push_place(formulas, out, whole)?;
    }
    push_layer(out, layer)?;
    Ok(())
}

/// The path of a constant: that of its place, and behind it `.width` where it is how wide the word there is, `.tag` where it is the
/// variant there, counted from 1. Arguments are `argK`, values of sites `siteN`, outputs of a call `siteN.outK`; below these are fields of
/// the variant V, `.vV.K`, and of structs, `.K`. All these numbers begin with 0.
///
/// # Errors
///
/// `Foreign` where its place isn't there, `Memory` where memory is refused.
pub fn path_of(formulas: &Formulas, constant: Constant) -> Result<String, Fault> {
    let mut path = String::new(formulas.alloc());
    push_place(formulas, &mut path, constant.place())?;
    match constant {
        Constant::Word(_, _) | Constant::Integer(_) | Constant::Truth(_) => {}
        Constant::Width(_) => path.push_str(".width")?,
        Constant::Variant(_) => path.push_str(".tag")?,
    }
    Ok(path)
}
