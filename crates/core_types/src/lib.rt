//! Types: their ids, the built-in ones, those that definitions make, and the table of them all.
#![tactic(auto)]

mod builtin;
mod ids;
mod reading;
mod type_env;
mod types;
mod variant_terms;

pub use builtin::{BuiltinType, IntType, builtin_ids_in_order, builtin_names_in_order};
pub use ids::{FieldId, RuleId, Sym, TermId, TypeId, VarId, VariantId};
pub use reading::{report, report_name};
pub use type_env::TypeEnv;
pub use types::{Fields, StructField, StructFields, TupleField, TupleFields, Type, Variant};
pub use variant_terms::VariantTerms;
