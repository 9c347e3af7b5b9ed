//! What errors say: upstream's words.

use crate::reasons::{FieldName, Typed, Why, Wrong};
use std::fmt;

// Where the name stands in a text of what has one.
const NAME: &str = "{}";

// As its text, so that the parts need none.
impl fmt::Debug for Why {
    fn fmt<W: fmt::Write>(&self, f: &mut fmt::Formatter<W>) -> fmt::Result {
        write!(f, "{self}")
    }
}

impl fmt::Display for Why {
    fn fmt<W: fmt::Write>(&self, f: &mut fmt::Formatter<W>) -> fmt::Result {
        match self {
            Why::Named(name, wrong) => write_named(f, name, wrong.text()),
            Why::FieldTwice { name, variant } => {
                write!(f, "Duplicate field name '{name}'")?;
                write_variant(f, variant, " of type")
            }
            Why::FieldType { ty, field, variant } => {
                write!(f, "Unknown type '{ty}' for {field}")?;
                write_variant(f, variant, "")
            }
            Why::ConverterTwice { inner, outer } => {
                write!(
                    f,
                    "Converter already exists for this type pair: '{inner}', '{outer}'"
                )
            }
            Why::TemplateTerm { term, unknown } => {
                write!(
                    f,
                    "`{term}` extractor definition references unknown term `{unknown}`"
                )
            }
            Why::TemplateArgument {
                greatest,
                count,
                ..
            } => {
                write!(
                    f,
                    "extractor template uses argument {greatest} but the term has {count}"
                )
            }
            Why::Recursion(way) => write_way(f, way),
            Why::MacroArgument(_) => {
                f.write_str("macro argument outside of an extractor template")
            }
            Why::NoRoot => f.write_str("Rule does not have a term at the LHS root"),
            Why::LetType { ty, variable } => {
                write!(f, "Unknown type {ty} for variable '{variable}'")
            }
            Why::Mismatch {
                what,
                name,
                want,
                has,
            } => write_mismatch(f, *what, name, want, has),
            Why::NoInteger { ty, val } => {
                write!(
                    f,
                    "expected non-integer type {ty}, but found integer literal '{val}'"
                )
            }
            Why::NoTruth { ty, val } => {
                write!(
                    f,
                    "Boolean literal '{val}' has type bool but we need {ty} in context"
                )
            }
            Why::UntypedInteger => {
                f.write_str("integer literal in a context that needs an explicit type")
            }
            Why::ArgumentCount { term, got, expect } => {
                write!(
                    f,
                    "Incorrect argument count for term '{term}': got {got}, expect {expect}"
                )
            }
        }
    }
}

impl fmt::Display for FieldName {
    fn fmt<W: fmt::Write>(&self, f: &mut fmt::Formatter<W>) -> fmt::Result {
        match self {
            FieldName::Text(name) => write!(f, "field '{name}'"),
            FieldName::Number(number) => write!(f, "tuple field '{number}'"),
        }
    }
}

// Writes a text with a name in it, where it has a place for one.
fn write_named<W: fmt::Write>(f: &mut fmt::Formatter<W>, name: &str, text: &str) -> fmt::Result {
    match text.split_once(NAME) {
        Some((before, behind)) => write!(f, "{before}{name}{behind}"),
        None => f.write_str(text),
    }
}

// Writes in which variant a field is, where it is in one.
fn write_variant<W: fmt::Write>(
    f: &mut fmt::Formatter<W>,
    variant: &Option<String>,
    behind: &str,
) -> fmt::Result {
    match variant {
        Some(variant) => write!(f, " in variant '{variant}'{behind}"),
        None => Ok(()),
    }
}

// Writes the way along which templates name one another.
fn write_way<W: fmt::Write>(f: &mut fmt::Formatter<W>, way: &str) -> fmt::Result {
    let mut names = way.split(' ');
    let first = names.next().unwrap_or("");
    write!(f, "`{first}` extractor definition is recursive: {first}")?;
    for name in names {
        write!(f, " -> {name}")?;
    }
    Ok(())
}

// Writes that what has a name has another type than is wanted. Upstream says it in its own way at each.
fn write_mismatch<W: fmt::Write>(
    f: &mut fmt::Formatter<W>,
    what: Typed,
    name: &str,
    want: &str,
    has: &str,
) -> fmt::Result {
    match what {
        Typed::Bound => {
            write!(
                f,
                "Mismatched types: pattern expects type '{want}' but already-bound var '{name}' has type '{has}'"
            )
        }
        Typed::Extractor => {
            write!(
                f,
                "Mismatched types: pattern expects type '{want}' but term has return type '{has}'"
            )
        }
        Typed::MatchedConstant => f.write_str("Type mismatch for constant"),
        Typed::Variable => {
            write!(
                f,
                "Variable '{name}' has type {has} but we need {want} in context"
            )
        }
        Typed::Constructor => {
            write!(
                f,
                "Mismatched types: expression expects type '{want}' but term has return type '{has}'"
            )
        }
        Typed::Constant => {
            write!(
                f,
                "Constant '{name}' has wrong type: expected {want}, but is actually {has}"
            )
        }
    }
}

impl Wrong {
    // What is said, with `{}` in the place of the name. Some texts have none.
    fn text(self) -> &'static str {
        match self {
            Wrong::TypeTwice => "Type with name '{}' defined more than once",
            Wrong::TypeBuiltin => "Type with name '{}' is a built-in type",
            Wrong::ExternPrimitive => "primitive types cannot be marked `extern`",
            Wrong::NodebugPrimitive => "primitive types cannot be marked `nodebug`",
            Wrong::NodebugExtern => "external types cannot be marked `nodebug`",
            Wrong::VariantTwice => "Duplicate variant name in type: '{}'",
            Wrong::TermTwice => "Duplicate decl for '{}'",
            Wrong::VariantTermTwice => "Duplicate enum variant constructor: '{}'",
            Wrong::StructTermTwice => "Duplicate struct constructor: '{}'",
            Wrong::MultiPartial => "Term '{}' can't be both multi and partial",
            Wrong::UnknownArgument => "Unknown arg type: '{}'",
            Wrong::UnknownResult => "Unknown return type: '{}'",
            Wrong::UnknownInner => "Unknown inner type for converter: '{}'",
            Wrong::UnknownOuter => "Unknown outer type for converter: '{}'",
            Wrong::UnknownConstantType => "Unknown type for constant",
            Wrong::UnknownConverter => "Unknown term for converter: '{}'",
            Wrong::UndeclaredConstructor => "Constructor declared on undefined term '{}'",
            Wrong::UndeclaredExtractor => "Extractor declared on undefined term '{}'",
            Wrong::UndeclaredTemplate => "Extractor macro body definition on a non-existent term",
            Wrong::UndeclaredRoot => "Rule LHS root term is not defined",
            Wrong::ConstructorOfVariant => {
                "External constructor cannot be defined on enum variant: {}"
            }
            Wrong::ConstructorOfStruct => "External constructor cannot be defined on a struct: {}",
            Wrong::ConstructorOfRules => {
                "External constructor declared on term that already has rules: {}"
            }
            Wrong::ConstructorTwice => "Duplicate external constructor definition",
            Wrong::ExtractorOfVariant => "Cannot define extractor for enum variant '{}'",
            Wrong::ExtractorOfStruct => "Cannot define extractor for struct '{}'",
            Wrong::ExtractorTwice => "Duplicate external extractor definition",
            Wrong::FirstExtractor => "External extractor already defined",
            Wrong::ExtractorOfTemplate => {
                "Cannot define external extractor for term that already has an internal extractor macro body defined"
            }
            Wrong::FirstTemplateOfExtractor => "Internal extractor macro body already defined",
            Wrong::TemplateTwice => "Duplicate extractor definition",
            Wrong::FirstTemplate => "Extractor was already defined here",
            Wrong::TemplateOfVariant => {
                "Extractor macro body defined on term of incorrect kind; cannot be an enum variant"
            }
            Wrong::TemplateOfStruct => {
                "Extractor macro body defined on term of incorrect kind; cannot be a struct"
            }
            Wrong::TemplateOfMulti => {
                "A term declared with `multi` cannot have an internal extractor."
            }
            Wrong::RootOfVariant => {
                "Rule LHS root term is incorrect kind; cannot be enum variant"
            }
            Wrong::RootOfStruct => "Rule LHS root term is incorrect kind; cannot be struct",
            Wrong::UnknownExtractor => "Unknown term in pattern: '{}'",
            Wrong::UnknownConstructor => "Unknown term in expression: '{}'",
            Wrong::CalledVariable => {
                "Unknown term in expression: '{}'. Variable binding under this name exists; try removing the parens?"
            }
            Wrong::UnknownVariable => "Unknown variable '{}'",
            Wrong::UnknownConstant => "Unknown constant",
            Wrong::Rebound => "Re-bound variable name in LHS pattern: '{}'",
            Wrong::NoExtractor => {
                "Cannot use term '{}' that does not have a defined extractor in a left-hand side pattern"
            }
            Wrong::NoConstructor => {
                "term `{}` cannot be used in an expression because it does not have a constructor"
            }
            Wrong::Impure => "Used non-pure constructor '{}' in pure expression context",
            Wrong::MultiConstructor => {
                "Used multi-constructor '{}' but this rule is not in a multi-term"
            }
            Wrong::MultiExtractor => {
                "Used multi-extractor '{}' but this rule is not in a multi-term"
            }
            Wrong::Partial => {
                "Rule can't use partial constructor '{}' on RHS; try moving it to if-let or make this rule's term partial too"
            }
            Wrong::PartialInMulti => {
                "Rule can't use partial constructor '{}' on RHS; try moving it to if-let"
            }
            Wrong::PriorityInMulti => "Cannot set rule priorities in multi-terms",
            Wrong::RuleTwice => "Duplicate rule name: '{}'",
            Wrong::Undefined => {
                "no rules, extractor, or external definition for declaration '{}'"
            }
        }
    }
}
