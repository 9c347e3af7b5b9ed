//! The types that a type table holds, with their variants and fields.

ghost use Rattle.std.specs.Prelude.{◌≡◌, IfOk, IsSome, Some, map, option_map};
ghost use Rattle.core_syntax.specs.SyntaxViews.{position};
ghost use Rattle.core_types.specs.Envs.{names_of};
ghost use Rattle.core_types.specs.Types.{type_text, entry_field_types, type_id_of, type_pos_of, is_primitive_type, is_int_type};
ghost use Rattle.core_types.specs.TypeViews.{fields_view, type_view};

use crate::builtin::BuiltinType;
use crate::ids::{FieldId, Sym, TypeId, VariantId};
use crate::type_env::TypeEnv;
use core_syntax::syntax::Pos;
use std::alloc::{AllocError, Global};

/// A type. Upstream's `Type`.
#[derive(Clone, Debug, PartialEq, Eq)]
pub enum Type {
    /// A built-in type, which no definition makes: it has no place, and its id and its name are fixed.
    Builtin(BuiltinType),
    /// A type that is declared outside, of which only literals and named constants are known: these pass
    /// through as they are written. Its id, its name and where it is defined.
    Primitive(TypeId, Sym, Pos),
    /// A type with variants, one of which a value has.
    Enum {
        /// The name of the type.
        name: Sym,
        /// The id of the type: its place in `TypeEnv::types`.
        id: TypeId,
        /// Whether the type is declared outside: what is generated then uses it and doesn't declare it.
        is_extern: bool,
        /// Whether what is generated declares the type without `Debug`. Never so beside `is_extern`, where
        /// nothing is declared.
        is_nodebug: bool,
        /// The variants: the place of each is its id.
        variants: Vec<Variant>,
        /// Where the type is defined.
        pos: Pos,
    },
    /// A type with fields: as an enum with a single variant, but there is nothing to tell apart, so a
    /// pattern of it takes the fields without a test.
    Struct {
        /// The name of the type.
        name: Sym,
        /// The id of the type: its place in `TypeEnv::types`.
        id: TypeId,
        /// Whether the type is declared outside: what is generated then uses it and doesn't declare it.
        is_extern: bool,
        /// Whether what is generated declares the type without `Debug`. Never so beside `is_extern`, where
        /// nothing is declared.
        is_nodebug: bool,
        /// The fields of the type.
        fields: Fields,
        /// Where the type is defined.
        pos: Pos,
    },
}

/// A variant of an enum. Upstream's `Variant`.
#[derive(Clone, Debug, PartialEq, Eq)]
pub struct Variant {
    /// The name of the variant.
    pub name: Sym,
    /// The name of the enum, a point, and the name of the variant: what the term of the variant is called,
    /// so that variants of one name in two enums are two terms.
    pub fullname: Sym,
    /// The id of the variant: its place in its enum.
    pub id: VariantId,
    /// The fields of the variant.
    pub fields: Fields,
    /// Where the variant is defined.
    pub pos: Pos,
}

/// The fields of a struct or of a variant. Upstream's `Fields`.
#[derive(Clone, Debug, PartialEq, Eq)]
pub enum Fields {
    /// No fields.
    Unit,
    /// Fields with names.
    Struct(StructFields),
    /// Fields without names.
    Tuple(TupleFields),
}

/// Fields with names.
#[derive(Clone, Debug, PartialEq, Eq)]
pub struct StructFields {
    /// The fields: the place of each is its id.
    pub fields: Vec<StructField>,
}

/// A field with a name.
#[derive(Clone, Debug, PartialEq, Eq)]
pub struct StructField {
    /// The name of the field.
    pub name: Sym,
    /// The id of the field: its place, which a pattern's parts and a term's arguments are matched with.
    pub id: FieldId,
    /// The type of the field.
    pub ty: TypeId,
}

/// Fields without names.
#[derive(Clone, Debug, PartialEq, Eq)]
pub struct TupleFields {
    /// The fields: the place of each is its id.
    pub fields: Vec<TupleField>,
}

/// A field without a name.
#[derive(Clone, Debug, PartialEq, Eq)]
pub struct TupleField {
    /// The id of the field: its place, which a pattern's parts and a term's arguments are matched with.
    pub id: FieldId,
    /// The type of the field.
    pub ty: TypeId,
}

impl Type {
    /// The id of the type: its place in `TypeEnv::types`.
    pub fn id(&self) -> TypeId
        ensures { result.0 ≡ type_id_of (type_view self.now) }
    {
        match self {
            Type::Builtin(builtin) => TypeId::builtin(*builtin),
            Type::Primitive(id, _, _) | Type::Enum { id, .. } | Type::Struct { id, .. } => *id,
        }
    }

    /// The name of the type. Condition: the table has a name of that id, where the type isn't a
    /// built-in one.
    pub fn name<'a>(&self, tyenv: &'a TypeEnv) -> &'a str
        requires { IsSome (type_text (names_of tyenv.now) (type_view self.now)) }
        ensures { Some result.now ≡ type_text (names_of tyenv.now) (type_view self.now) }
    {
        match self {
            Type::Builtin(builtin) => builtin.name(),
            Type::Primitive(_, name, _) | Type::Enum { name, .. } | Type::Struct { name, .. } => {
                tyenv.syms[name.index()].as_str()
            }
        }
    }

    /// Where the type is defined, or None for a built-in type.
    pub fn pos(&self) -> Option<Pos>
        ensures { option_map position result ≡ type_pos_of (type_view self.now) }
    {
        match self {
            Type::Builtin(_) => None,
            Type::Primitive(_, _, pos) | Type::Enum { pos, .. } | Type::Struct { pos, .. } => {
                Some(*pos)
            }
        }
    }

    /// Whether only constants of the type are known.
    pub fn is_prim(&self) -> bool
        ensures { result ≡ is_primitive_type (type_view self.now) }
    {
        matches!(self, Type::Primitive(..))
    }

    /// Whether the type is a built-in integer.
    pub fn is_int(&self) -> bool
        ensures { result ≡ is_int_type (type_view self.now) }
    {
        matches!(self, Type::Builtin(BuiltinType::Int(_)))
    }
}

impl Fields {
    /// The types of the fields, in order. An error where memory is refused.
    #[tactic(auto, using(crate::proofs::FieldTypes::types_of_struct, crate::proofs::FieldTypes::types_of_tuple))]
    pub fn types(&self, alloc: Global) -> Result<Vec<TypeId>, AllocError>
        ensures { IfOk result (λ v. map (λ ty. ty.0) v.items ≡ entry_field_types (fields_view self.now)) }
    {
        match self {
            Fields::Unit => Ok(Vec::new(alloc)),
            Fields::Struct(fields) => struct_field_types(alloc, &fields.fields),
            Fields::Tuple(fields) => tuple_field_types(alloc, &fields.fields),
        }
    }
}

// The types of fields with names.
fn struct_field_types(alloc: Global, fields: &[StructField]) -> Result<Vec<TypeId>, AllocError>
    ensures { IfOk result (λ v. v.items ≡ map (λ f. f.ty) fields.now) }
{
    let mut types = Vec::new(alloc);
    for field in fields {
        types.push(field.ty)?;
    }
    Ok(types)
}

// The types of fields without names.
fn tuple_field_types(alloc: Global, fields: &[TupleField]) -> Result<Vec<TypeId>, AllocError>
    ensures { IfOk result (λ v. v.items ≡ map (λ f. f.ty) fields.now) }
{
    let mut types = Vec::new(alloc);
    for part in fields {
        types.push(part.ty)?;
    }
    Ok(types)
}

// Written out, and so proved here once: a derived `Drop` is proved again in each crate that drops the
// type.
impl Drop for Type {
    fn drop(self) {
        match self {
            Type::Builtin(_) => {}
            Type::Primitive(_, _, _) => {}
            Type::Enum {
                name: _,
                id: _,
                is_extern: _,
                is_nodebug: _,
                variants: _,
                pos: _,
            } => {}
            Type::Struct {
                name: _,
                id: _,
                is_extern: _,
                is_nodebug: _,
                fields: _,
                pos: _,
            } => {}
        }
    }
}

impl Drop for Variant {
    fn drop(self) {
        let Variant {
            name: _,
            fullname: _,
            id: _,
            fields: _,
            pos: _,
        } = self;
    }
}

impl Drop for Fields {
    fn drop(self) {
        match self {
            Fields::Unit => {}
            Fields::Struct(_) => {}
            Fields::Tuple(_) => {}
        }
    }
}

impl Drop for StructFields {
    fn drop(self) {
        let StructFields { fields: _ } = self;
    }
}

impl Drop for StructField {
    fn drop(self) {
        let StructField {
            name: _,
            id: _,
            ty: _,
        } = self;
    }
}

impl Drop for TupleFields {
    fn drop(self) {
        let TupleFields { fields: _ } = self;
    }
}

impl Drop for TupleField {
    fn drop(self) {
        let TupleField { id: _, ty: _ } = self;
    }
}
