//! Types, terms and typed rules: what definitions mean.

pub use core_rules::TermEnv;
pub use core_terms::{
    ConstructorKind, ExternalSig, ExtractorKind, ReturnKind, Term, TermFlags, TermKind, TermTable,
};
pub use core_typed::{
    Body, BoundIds, BoundVar, Expr, ExprVisitor, IfLet, Pattern, PatternVisitor, Rule, RuleVisitor,
    VisitFault, VisitedExpr,
};
pub use core_types::{
    BuiltinType, FieldId, Fields, IntType, RuleId, StructField, StructFields, Sym, TermId,
    TupleField, TupleFields, Type, TypeEnv, TypeId, VarId, Variant, VariantId,
};
