//! What is told of places.
use crate::formulas::PlaceId;

/// What is told of a place.
#[derive(Clone, Copy)]
pub struct Told<X> {
    /// The place.
    pub place: PlaceId,
    /// What is told.
    pub is: X,
}

/// What is told of places, the last first.
#[derive(Drop)]
pub struct Known {
    /// How wide words are.
    pub widths: Vec<Told<u32>>,
    /// Which integers stand there.
    pub integers: Vec<Told<i128>>,
    /// Which variants stand there.
    pub kinds: Vec<Told<usize>>,
}
