//! What written names are like.
//!
//! A function here has no code: its clause is a law.

ghost use Rattle.rust_items.specs.NameLaws.{FunctionsApartArePureAlike, IdentifiersStayApart, NamesAreIdentifiers, VariablesAreFree, VariablesArePlain};

/// Whatever a name is, it is written as an identifier.
#[tactic(auto, using(crate::proofs::Spellings::names_are_identifiers_lem))]
pub fn names_are_identifiers()
    ensures { NamesAreIdentifiers }
{}

/// Identifiers that differ are written differently, but for those that can't stand as they are.
#[tactic(auto, using(crate::proofs::Spellings::identifiers_stay_apart_lem))]
pub fn identifiers_stay_apart()
    ensures { IdentifiersStayApart }
{}

/// Variables and parameters are identifiers and no keywords, the test tells them, and they are never the functions of terms.
#[tactic(auto, using(crate::proofs::Variables::variables_are_plain_lem))]
pub fn variables_are_plain()
    ensures { VariablesArePlain }
{}

/// Where functions of `Context` are told apart, what is one of them is pure for each of its terms, or for none.
#[tactic(auto, using(crate::proofs::PureFunctions::functions_apart_are_pure_alike_lem))]
pub fn functions_apart_are_pure_alike()
    ensures { FunctionsApartArePureAlike }
{}

/// Where names are told apart, no type, no constant and no term of the definitions is written as a variable or a parameter.
pub fn variables_are_free()
    ensures { VariablesAreFree }
{
    variables_are_plain();
}
