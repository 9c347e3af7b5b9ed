//! The trees of what is said for a verifier.

use core_syntax::syntax::{Ident, Pos};

/// A form for a verifier.
#[derive(Drop)]
pub enum VerificationForm {
    Spec(Spec),
    Model(Model),
    Form(Form),
    Instantiation(Instantiation),
    Attr(Attr),
    State(State),
    Macro(Macro),
    /// A note of any content, of which only the place is kept.
    Pragma(Pos),
}

/// What a term does.
#[derive(Drop)]
pub struct Spec {
    pub term: Ident,
    /// Names for the term's arguments.
    pub args: Vec<Ident>,
    /// What holds of arguments and result, if the spec has such a list.
    pub provides: Option<Vec<SpecExpr>>,
    /// What must hold of arguments, if the spec has such a list.
    pub required: Option<Vec<SpecExpr>>,
    /// When the term answers, if the spec has such a list.
    pub matches: Option<Vec<SpecExpr>>,
    /// Which states the term changes.
    pub modifies: Vec<Modifies>,
    pub pos: Pos,
}

/// A state that a term changes, and the name of the truth value that says when, if it has one.
#[derive(Drop)]
pub struct Modifies {
    pub state: Ident,
    pub cond: Option<Ident>,
    pub pos: Pos,
}

/// What the values of a type stand for.
#[derive(Drop)]
pub struct Model {
    pub name: Ident,
    pub value: ModelValue,
    pub pos: Pos,
}

/// What values stand for: those of a type, those of variants one by one, or a constant.
#[derive(Drop)]
pub enum ModelValue {
    Type(ModelType),
    Enum(Vec<VariantValue>),
    Const(SpecExpr),
}

/// A variant, and what it stands for, if that is said.
#[derive(Drop)]
pub struct VariantValue {
    pub name: Ident,
    pub value: Option<SpecExpr>,
    pub pos: Pos,
}

/// A type of a solver.
#[derive(Drop)]
pub enum ModelType {
    Int(Pos),
    Bool(Pos),
    Unit(Pos),
    /// Bit vectors of a width, or of any.
    BitVec(Option<usize>, Pos),
    /// The model of the type with this name.
    Named(Ident, Pos),
}

/// A list of signatures with a name.
#[derive(Drop)]
pub struct Form {
    pub name: Ident,
    pub signatures: Vec<Signature>,
    pub pos: Pos,
}

/// The signatures of a term: those of a form, or its own.
#[derive(Drop)]
pub struct Instantiation {
    pub term: Ident,
    pub form: Option<Ident>,
    pub signatures: Vec<Signature>,
    pub pos: Pos,
}

/// Types of a term's arguments and result.
#[derive(Drop)]
pub struct Signature {
    pub args: Vec<ModelType>,
    pub ret: ModelType,
    /// The type that names the signature.
    pub canonical: ModelType,
    pub pos: Pos,
}

/// Attributes of a term or a rule.
#[derive(Drop)]
pub struct Attr {
    /// Whether the name is that of a rule.
    pub is_rule: bool,
    pub name: Ident,
    pub kinds: Vec<AttrKind>,
    pub pos: Pos,
}

/// An attribute.
#[derive(Drop)]
pub enum AttrKind {
    Tag(Ident, Pos),
    /// The term is looked through.
    Chain(Pos),
    /// The rule's priority counts.
    Priority(Pos),
}

/// A state that terms read and change.
#[derive(Drop)]
pub struct State {
    pub name: Ident,
    pub ty: ModelType,
    /// What holds where no term changes it.
    pub default: SpecExpr,
    pub pos: Pos,
}

/// An expression with a name and parameters.
#[derive(Drop)]
pub struct Macro {
    /// Whether it is written `spec_macro`.
    pub is_spec: bool,
    pub name: Ident,
    pub params: Vec<Ident>,
    pub body: SpecExpr,
    pub pos: Pos,
}

/// An expression of a solver.
#[derive(Drop)]
pub enum SpecExpr {
    ConstInt {
        val: i128,
        pos: Pos,
    },
    /// A number of so many bits.
    ConstBitVec {
        val: u128,
        width: usize,
        pos: Pos,
    },
    ConstBool {
        val: bool,
        pos: Pos,
    },
    ConstUnit {
        pos: Pos,
    },
    Var {
        var: Ident,
        pos: Pos,
    },
    /// An operator, a macro or a variant on its arguments. What the name means isn't looked up.
    Op {
        op: Ident,
        args: Vec<SpecExpr>,
        pos: Pos,
    },
    /// `switch` or `match` on a value, with pairs of what it may be and what is then.
    Cases {
        op: Ident,
        value: Box<SpecExpr>,
        cases: Vec<SpecExpr>,
        pos: Pos,
    },
    /// An expression under definitions, which are pairs of a name and its value.
    Let {
        defs: Vec<SpecExpr>,
        body: Box<SpecExpr>,
        pos: Pos,
    },
    /// An expression under names of any value.
    With {
        names: Vec<Ident>,
        body: Box<SpecExpr>,
        pos: Pos,
    },
    /// An expression of this type.
    As {
        value: Box<SpecExpr>,
        ty: ModelType,
        pos: Pos,
    },
    /// A pair among the cases of a switch, or the definitions of a let.
    Pair {
        left: Box<SpecExpr>,
        right: Box<SpecExpr>,
        pos: Pos,
    },
}
