//! Variants of enums and fields, by their names.

use crate::translation::Translation;
use core_syntax::syntax::Ident;
use cranelift_isle::sema::{Fields, Type, TypeEnv, TypeId, Variant};

/// How many fields there are.
pub(crate) fn field_count(fields: &Fields) -> usize {
    match fields {
        Fields::Unit => 0,
        Fields::Struct(named) => named.fields.len(),
        Fields::Tuple(plain) => plain.fields.len(),
    }
}

/// The type of a field.
pub(crate) fn field_type(fields: &Fields, place: usize) -> Option<TypeId> {
    match fields {
        Fields::Unit => None,
        Fields::Struct(named) => Some(named.fields.get(place)?.ty),
        Fields::Tuple(plain) => Some(plain.fields.get(place)?.ty),
    }
}

/// The place of the field of a name.
pub(crate) fn field_place(tyenv: &TypeEnv, fields: &Fields, name: &str) -> Option<usize> {
    match fields {
        Fields::Struct(named) => {
            for (place, field) in named.fields.iter().enumerate() {
                if tyenv.text_of(field.name) == name {
                    return Some(place);
                }
            }
            None
        }
        Fields::Unit | Fields::Tuple(_) => None,
    }
}

impl<'c, 's> Translation<'c, 's> {
    /// The variants of a type, where it is known and an enum.
    pub(crate) fn variants_of(&self, ty: Option<TypeId>) -> Option<&'c [Variant]> {
        let lowered = self.lowered;
        match lowered.tyenv.types.get(ty?.index()) {
            Some(Type::Enum { variants, .. }) => Some(variants.as_slice()),
            _ => None,
        }
    }

    /// The fields of a type, where it is known and a struct.
    pub(crate) fn fields_of(&self, ty: Option<TypeId>) -> Option<&'c Fields> {
        let lowered = self.lowered;
        match lowered.tyenv.types.get(ty?.index()) {
            Some(Type::Struct { fields, .. }) => Some(fields),
            _ => None,
        }
    }

    /// The variant of this name, of the enum that a type is; with the enum's name or without.
    pub(crate) fn variant_called(&self, ty: Option<TypeId>, name: &Ident) -> Option<&'c Variant> {
        let lowered = self.lowered;
        let variants = self.variants_of(ty)?;
        let sym = lowered.tyenv.intern(name)?;
        for variant in variants {
            if variant.name == sym || variant.fullname == sym {
                return Some(variant);
            }
        }
        None
    }
}
