//! The built-in types: `bool` and the integers of fixed width.

ghost use Rattle.std.specs.Prelude.{◌≡◌, ◌<◌, ◌≤◌, ◌^◌, ◌∷◌, [], Some, map, pos};
ghost use Rattle.model.specs.lists.Ranges.{unsigned, signed, reduce, reduced};
ghost use Rattle.model.specs.lists.TypeTable.{builtin_names};
ghost use Rattle.core_types.specs.Builtin.{int_name, int_signed, builtin_name, builtin_place, builtin_id};
ghost use Rattle.core_types.specs.IntRanges.{int_type, HasBits};

use crate::ids::TypeId;
use std::fmt;

/// A built-in type: always there, and defined by no list.
#[derive(Clone, Copy, PartialEq, Eq, Debug)]
pub enum BuiltinType {
    /// The type of `true` and `false`.
    Bool,
    /// An integer of fixed width.
    Int(IntType),
}

/// An integer type of fixed width.
#[derive(Clone, Copy, PartialEq, Eq, Debug)]
pub enum IntType {
    /// Unsigned, 8 bits.
    U8,
    /// Unsigned, 16 bits.
    U16,
    /// Unsigned, 32 bits.
    U32,
    /// Unsigned, 64 bits.
    U64,
    /// Unsigned, 128 bits.
    U128,
    /// Unsigned, as wide as a pointer.
    USize,
    /// Signed, 8 bits.
    I8,
    /// Signed, 16 bits.
    I16,
    /// Signed, 32 bits.
    I32,
    /// Signed, 64 bits.
    I64,
    /// Signed, 128 bits.
    I128,
    /// Signed, as wide as a pointer.
    ISize,
}

impl IntType {
    /// The name of the type, as a program writes it.
    pub fn name(&self) -> &'static str
        ensures { result.now ≡ int_name self.now }
    {
        match self {
            IntType::U8 => "u8",
            IntType::U16 => "u16",
            IntType::U32 => "u32",
            IntType::U64 => "u64",
            IntType::U128 => "u128",
            IntType::USize => "usize",
            IntType::I8 => "i8",
            IntType::I16 => "i16",
            IntType::I32 => "i32",
            IntType::I64 => "i64",
            IntType::I128 => "i128",
            IntType::ISize => "isize",
        }
    }

    /// Whether the type has negative numbers.
    pub fn is_signed(&self) -> bool
        ensures { result ≡ int_signed self.now }
    {
        match self {
            IntType::U8
            | IntType::U16
            | IntType::U32
            | IntType::U64
            | IntType::U128
            | IntType::USize => false,
            IntType::I8
            | IntType::I16
            | IntType::I32
            | IntType::I64
            | IntType::I128
            | IntType::ISize => true,
        }
    }

    /// How many bits the type has: 64 where it is as wide as a pointer.
    pub fn bits(&self) -> u32
        ensures { HasBits self.now result }
    {
        match self {
            IntType::U8 | IntType::I8 => 8,
            IntType::U16 | IntType::I16 => 16,
            IntType::U32 | IntType::I32 => 32,
            IntType::U64 | IntType::USize | IntType::I64 | IntType::ISize => 64,
            IntType::U128 | IntType::I128 => 128,
        }
    }

    /// The number of the type's range that an integer literal stands for: the one that differs from it by a
    /// multiple of 2 to the number of bits.
    ///
    /// | Types | Range |
    /// |---|---|
    /// | `u8`, `u16`, `u32` | 0 to 255, to 65535, to 4294967295 |
    /// | `u64`, `usize` | 0 to 18446744073709551615 |
    /// | `i8`, `i16`, `i32` | -128 to 127, -32768 to 32767, -2147483648 to 2147483647 |
    /// | `i64`, `isize` | -9223372036854775808 to 9223372036854775807 |
    /// | `u128`, `i128` | every `i128`; for `u128` it stands for the number with the same 128 bits |
    pub fn reduce(&self, val: i128) -> i128
        ensures { result ≡ reduced (Some (int_type self.now)) val }
    {
        let bits = self.bits();
        if bits == 128 {
            return val;
        }
        if self.is_signed() {
            reduce_signed(val, bits)
        } else {
            reduce_unsigned(val, bits)
        }
    }
}

// The number of so many bits, without a sign, that a number stands for.
fn reduce_unsigned(val: i128, bits: u32) -> i128
    requires { bits ≤ 64 }
    ensures { result ≡ reduce (unsigned bits) val }
{
    val.rem_euclid(words_of(bits))
}

// The number of so many bits, one of them the sign, that a number stands for.
fn reduce_signed(val: i128, bits: u32) -> i128
    requires some { 0 < bits }
    requires few { bits ≤ 64 }
    ensures { result ≡ reduce (signed bits) val }
{
    let rest = reduce_unsigned(val, bits);
    if rest < words_of(bits - 1) {
        rest
    } else {
        rest - words_of(bits)
    }
}

// How many words of so many bits there are.
fn words_of(bits: u32) -> i128
    requires { bits ≤ 64 }
    ensures { result ≡ pos (2 ^ bits) }
{
    1 << bits
}

impl fmt::Display for IntType {
    ghost use Rattle.std.specs.Prelude.{Some};
    ghost use Rattle.core_types.specs.Builtin.{int_name};

    ghost output = { λ ty. Some (int_name ty) };

    fn fmt<W: fmt::Write>(&self, f: &mut fmt::Formatter<W>) -> fmt::Result {
        write!(f, "{}", self.name())
    }
}

impl BuiltinType {
    /// All built-in types, in the order of their ids: the place of each is its `TypeId`, and the `Sym` of its
    /// name too.
    pub const ALL: [BuiltinType; 13] = [
        BuiltinType::Bool,
        BuiltinType::Int(IntType::U8),
        BuiltinType::Int(IntType::U16),
        BuiltinType::Int(IntType::U32),
        BuiltinType::Int(IntType::U64),
        BuiltinType::Int(IntType::U128),
        BuiltinType::Int(IntType::USize),
        BuiltinType::Int(IntType::I8),
        BuiltinType::Int(IntType::I16),
        BuiltinType::Int(IntType::I32),
        BuiltinType::Int(IntType::I64),
        BuiltinType::Int(IntType::I128),
        BuiltinType::Int(IntType::ISize),
    ];

    /// The name of the type, as a program writes it.
    pub fn name(&self) -> &'static str
        ensures { result.now ≡ builtin_name self.now }
    {
        match self {
            BuiltinType::Bool => "bool",
            BuiltinType::Int(ty) => ty.name(),
        }
    }

    /// The place of the type in `ALL`, from 0 to 12.
    pub fn to_usize(&self) -> usize
        ensures { result ≡ builtin_place self.now }
    {
        match self {
            BuiltinType::Bool => 0,
            BuiltinType::Int(ty) => *ty as usize + 1,
        }
    }
}

impl TypeId {
    /// The id of `bool`.
    pub const BOOL: TypeId = TypeId(0);
    /// The id of `u8`.
    pub const U8: TypeId = TypeId(1);
    /// The id of `u16`.
    pub const U16: TypeId = TypeId(2);
    /// The id of `u32`.
    pub const U32: TypeId = TypeId(3);
    /// The id of `u64`.
    pub const U64: TypeId = TypeId(4);
    /// The id of `u128`.
    pub const U128: TypeId = TypeId(5);
    /// The id of `usize`.
    pub const USIZE: TypeId = TypeId(6);
    /// The id of `i8`.
    pub const I8: TypeId = TypeId(7);
    /// The id of `i16`.
    pub const I16: TypeId = TypeId(8);
    /// The id of `i32`.
    pub const I32: TypeId = TypeId(9);
    /// The id of `i64`.
    pub const I64: TypeId = TypeId(10);
    /// The id of `i128`.
    pub const I128: TypeId = TypeId(11);
    /// The id of `isize`.
    pub const ISIZE: TypeId = TypeId(12);

    /// The id of a built-in type: its place in `BuiltinType::ALL`.
    pub fn builtin(builtin: BuiltinType) -> TypeId
        ensures { result ≡ builtin_id builtin }
    {
        TypeId(builtin.to_usize())
    }
}

/// The constants of `TypeId` are the ids of the built-in types, in the order of
/// `BuiltinType::ALL`.
pub fn builtin_ids_in_order()
    ensures { map builtin_id BuiltinType.ALL
        ≡ TypeId.BOOL ∷ TypeId.U8 ∷ TypeId.U16 ∷ TypeId.U32 ∷ TypeId.U64 ∷ TypeId.U128 ∷ TypeId.USIZE
        ∷ TypeId.I8 ∷ TypeId.I16 ∷ TypeId.I32 ∷ TypeId.I64 ∷ TypeId.I128 ∷ TypeId.ISIZE ∷ [] }
{}

/// The names of the built-in types stand in the order of `BuiltinType::ALL`.
pub fn builtin_names_in_order()
    ensures { map builtin_name BuiltinType.ALL ≡ builtin_names }
{}
