//! Generated code as data: the statements of a function that does what a term's tree says. A statement says how each value is
//! handed on, which rustc asks for. Names, types and the layout are the printer's.

use core_rule_sets::trie_again::{BindingId, Constraint, TupleIndex};
use core_syntax::syntax::Pos;
use core_types::{Sym, TermId, TypeId, VariantId};

/// What is read.
#[derive(Clone, Copy)]
pub enum ReadPlace {
    /// The variable that a site is bound to.
    Variable {
        /// The site.
        site: BindingId,
    },
    /// A parameter of the function.
    Parameter {
        /// Its place.
        index: TupleIndex,
    },
    /// A part of a variable that holds a tuple.
    PartOf {
        /// The tuple's site.
        tuple: BindingId,
        /// The part's place.
        field: TupleIndex,
    },
    /// An integer that is written out.
    IntWritten {
        /// The integer.
        val: i128,
        /// Its type.
        ty: TypeId,
    },
    /// A named constant.
    NameWritten {
        /// Its name.
        name: Sym,
    },
    /// A variant without fields.
    VariantWritten {
        /// The enum.
        ty: TypeId,
        /// The variant.
        variant: VariantId,
    },
    /// A struct without fields.
    StructWritten {
        /// The struct.
        ty: TypeId,
    },
}

/// How a place is handed on.
#[derive(Clone, Copy)]
pub enum Pass {
    /// `v`: a move, a copy, or a reference that is there.
    AsItIs,
    /// `&v`.
    Lent,
    /// `v.clone()`.
    Cloned,
    /// `*v`.
    SeenThrough,
}

/// A place, and how it is handed on.
#[derive(Clone, Copy)]
pub struct Use {
    /// The place.
    pub place: ReadPlace,
    /// How it is handed on.
    pub pass: Pass,
}

/// What a variable is bound to.
pub enum BoundExpr {
    /// A truth value.
    TruthWritten {
        /// The value.
        val: bool,
        /// Its type.
        ty: TypeId,
    },
    /// A call of a term's extractor.
    Extraction {
        /// The term.
        term: TermId,
        /// The value that is handed to it.
        value: Use,
    },
    /// A call of a term's constructor.
    Call {
        /// The term.
        term: TermId,
        /// The values that are handed to it.
        args: Vec<Use>,
        /// The number of an impure call among those of its rule; 0 for a pure call.
        instance: u32,
    },
    /// A variant of an enum.
    VariantOf {
        /// The enum.
        ty: TypeId,
        /// The variant.
        variant: VariantId,
        /// Its fields.
        fields: Vec<Use>,
    },
    /// A struct.
    StructOf {
        /// The struct.
        ty: TypeId,
        /// Its fields.
        fields: Vec<Use>,
    },
    /// `Some(v)`.
    SomeOf {
        /// What is in it.
        value: Use,
    },
}

impl Drop for BoundExpr {
    fn drop(self) {
        match self {
            BoundExpr::TruthWritten { val: _, ty: _ } => {}
            BoundExpr::Extraction { term: _, value: _ } => {}
            BoundExpr::Call {
                term: _,
                args: _,
                instance: _,
            } => {}
            BoundExpr::VariantOf {
                ty: _,
                variant: _,
                fields: _,
            } => {}
            BoundExpr::StructOf { ty: _, fields: _ } => {}
            BoundExpr::SomeOf { value: _ } => {}
        }
    }
}

/// Statements, one after another.
#[cycle(code)]
pub struct CodeBlock {
    /// The statements.
    pub statements: Vec<Statement>,
}

impl Drop for CodeBlock {
    #[cycle(drop)]
    fn drop(self) {
        let Self { statements: _ } = self;
    }
}

/// A statement.
#[cycle(code)]
pub enum Statement {
    /// `let v = e;`
    Bind {
        /// The site whose variable is bound.
        site: BindingId,
        /// What it is bound to.
        expr: BoundExpr,
    },
    /// `let Some(v) = u else { the term fails };`
    BindSome {
        /// The site whose variable is bound.
        site: BindingId,
        /// What is looked into.
        value: Use,
    },
    /// `unreachable!();`
    NoWay,
    /// `if let P = u { .. }`, or `match u { P => { .. } .. _ => {} }`
    MatchOn {
        /// What is matched.
        value: Use,
        /// The arms, with distinct patterns.
        arms: Vec<CodeArm>,
    },
    /// `if a == b { .. }`
    IfEqual {
        /// One value.
        a: Use,
        /// The other.
        b: Use,
        /// What follows.
        body: CodeBlock,
    },
    /// `let mut from = from.into_context_iter(); while let Some(v) = from.next(ctx) { .. }`
    ForEachOf {
        /// The site whose variable is bound in each turn.
        site: BindingId,
        /// The site of the call whose answers are gone over.
        from: BindingId,
        /// What is done in each turn.
        body: CodeBlock,
    },
    /// `return u;`, or `returns.extend(Some(u));` and a return where the list of results is full.
    Give {
        /// Where the rule was defined.
        pos: Pos,
        /// The result.
        value: Use,
    },
    /// `'a: { .. }`
    Labelled {
        /// The block that has the label.
        body: CodeBlock,
    },
    /// `let P = u else { break 'a };`, where `'a` is the label next around. What it binds lasts to the end of its block.
    UnlessLet {
        /// What is matched.
        value: Use,
        /// The pattern.
        pattern: Constraint,
        /// The site of each field; `None` where nothing reads it.
        fields: Vec<Option<BindingId>>,
    },
    /// `if a != b { break 'a }`
    UnlessEqual {
        /// One value.
        a: Use,
        /// The other.
        b: Use,
    },
}

impl Drop for Statement {
    #[cycle(drop)]
    fn drop(self) {
        match self {
            Statement::Bind { site: _, expr: _ } => {}
            Statement::BindSome { site: _, value: _ } => {}
            Statement::NoWay => {}
            Statement::MatchOn { value: _, arms: _ } => {}
            Statement::IfEqual {
                a: _,
                b: _,
                body: _,
            } => {}
            Statement::ForEachOf {
                site: _,
                from: _,
                body: _,
            } => {}
            Statement::Give { pos: _, value: _ } => {}
            Statement::Labelled { body: _ } => {}
            Statement::UnlessLet {
                value: _,
                pattern: _,
                fields: _,
            } => {}
            Statement::UnlessEqual { a: _, b: _ } => {}
        }
    }
}

/// An arm of a match.
#[cycle(code)]
pub struct CodeArm {
    /// The pattern.
    pub pattern: Constraint,
    /// The site of each field; `None` where nothing reads it.
    pub fields: Vec<Option<BindingId>>,
    /// What follows where the pattern is met.
    pub body: CodeBlock,
}

impl Drop for CodeArm {
    #[cycle(drop)]
    fn drop(self) {
        let Self {
            pattern: _,
            fields: _,
            body: _,
        } = self;
    }
}
