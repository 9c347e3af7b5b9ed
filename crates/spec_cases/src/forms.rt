//! What a value may be, by formulas.
use crate::formulas::{Fact, Integer, PlaceId, Word};
use core_types::{TypeId, VariantId};

/// The number of a list of fields. It means nothing outside its arena.
#[derive(Clone, Copy)]
pub struct FieldsId(pub u32);

/// What a value may be.
#[derive(Clone, Copy)]
pub enum Form {
    /// A truth.
    Fact(Fact),
    /// An integer.
    Integer(Integer),
    /// A word of a width.
    Word(u32, Word),
    /// A variant.
    Variant {
        /// Its enum.
        ty: TypeId,
        /// Which one.
        variant: VariantId,
        /// Its fields.
        fields: FieldsId,
    },
    /// A struct.
    Struct {
        /// Its type.
        ty: TypeId,
        /// Its fields.
        fields: FieldsId,
    },
    /// What stands at a place, of which the type is known.
    AnyOf {
        /// The type.
        ty: TypeId,
        /// The place.
        place: PlaceId,
    },
    /// What stands at a place, of which nothing is known.
    SomeAt {
        /// The place.
        place: PlaceId,
    },
}
