//! The ids that names, types, variants, fields, terms, rules and variables are known by. An id is a place in
//! a list, and each list has a type of ids of its own, so that a place in one isn't taken for one in another.

ghost use Rattle.std.specs.Prelude.{◌≡◌};

/// The id of a name: its place in `TypeEnv::syms`. Names are compared by their ids, never by their texts.
#[derive(Clone, Copy, PartialEq, Eq, Hash, PartialOrd, Ord, Debug, Default)]
pub struct Sym(pub usize);

/// The id of a type: its place in `TypeEnv::types`.
#[derive(Clone, Copy, PartialEq, Eq, Hash, PartialOrd, Ord, Debug, Default)]
pub struct TypeId(pub usize);

/// The id of a variant: its place among the variants of its enum, so that it says something only beside
/// the enum's `TypeId`.
#[derive(Clone, Copy, PartialEq, Eq, Hash, PartialOrd, Ord, Debug, Default)]
pub struct VariantId(pub usize);

/// The id of a field: its place among the fields of its struct or variant.
#[derive(Clone, Copy, PartialEq, Eq, Hash, PartialOrd, Ord, Debug, Default)]
pub struct FieldId(pub usize);

/// The id of a term: its place in `TermEnv::terms`.
#[derive(Clone, Copy, PartialEq, Eq, Hash, PartialOrd, Ord, Debug, Default)]
pub struct TermId(pub usize);

/// The id of a rule: its place in `TermEnv::rules`.
#[derive(Clone, Copy, PartialEq, Eq, Hash, PartialOrd, Ord, Debug, Default)]
pub struct RuleId(pub usize);

/// The id of a variable: its place in `Rule::vars`. Two variables of one name have two ids.
#[derive(Clone, Copy, PartialEq, Eq, Hash, PartialOrd, Ord, Debug, Default)]
pub struct VarId(pub usize);

impl Sym {
    /// The place.
    pub fn index(self) -> usize
        ensures { result ≡ self.0 }
    {
        let Sym(number) = self;
        number
    }
}

impl TypeId {
    /// The place.
    pub fn index(self) -> usize
        ensures { result ≡ self.0 }
    {
        let TypeId(number) = self;
        number
    }
}

impl VariantId {
    /// The place.
    pub fn index(self) -> usize
        ensures { result ≡ self.0 }
    {
        let VariantId(number) = self;
        number
    }
}

impl FieldId {
    /// The place.
    pub fn index(self) -> usize
        ensures { result ≡ self.0 }
    {
        let FieldId(number) = self;
        number
    }
}

impl TermId {
    /// The place.
    pub fn index(self) -> usize
        ensures { result ≡ self.0 }
    {
        let TermId(number) = self;
        number
    }
}

impl RuleId {
    /// The place.
    pub fn index(self) -> usize
        ensures { result ≡ self.0 }
    {
        let RuleId(number) = self;
        number
    }
}

impl VarId {
    /// The place.
    pub fn index(self) -> usize
        ensures { result ≡ self.0 }
    {
        let VarId(number) = self;
        number
    }
}
