//! What is asked of errors: their codes, and the names that they speak of.

use crate::reasons::{Why, Wrong};

/// What a name would stand for.
#[derive(Clone, Copy, PartialEq, Eq)]
pub enum NameKind {
    Type,
    /// A term, declared or made by a type.
    Term,
    /// A term that is declared.
    Declared,
    Constant,
    Variable,
}

impl Why {
    /// The word by which programs tell errors apart.
    pub fn code(&self) -> &'static str {
        match self {
            Why::Named(_, wrong) => wrong.code(),
            Why::FieldTwice { .. } => "field-twice",
            Why::FieldType { .. } | Why::LetType { .. } => "unknown-type",
            Why::ConverterTwice { .. } => "converter-twice",
            Why::TemplateTerm { .. } => "unknown-term",
            Why::TemplateArgument { .. } => "template-arguments",
            Why::Recursion(_) => "recursive-template",
            Why::MacroArgument(_) => "macro-argument",
            Why::NoRoot => "no-root",
            Why::Mismatch { .. } => "mismatched-types",
            Why::NoInteger { .. } | Why::NoTruth { .. } => "literal-type",
            Why::UntypedInteger => "untyped-integer",
            Why::ArgumentCount { .. } => "argument-count",
        }
    }

    /// What has a name, and how it isn't right.
    pub fn named(&self) -> Option<(&str, Wrong)> {
        match self {
            Why::Named(name, wrong) => Some((name.as_str(), *wrong)),
            _ => None,
        }
    }

    /// The name that isn't known, and what it would stand for.
    pub fn unknown(&self) -> Option<(&str, NameKind)> {
        match self {
            Why::Named(name, wrong) => Some((name.as_str(), wrong.unknown()?)),
            Why::FieldType { ty, .. } | Why::LetType { ty, .. } => {
                Some((ty.as_str(), NameKind::Type))
            }
            Why::TemplateTerm { unknown, .. } => Some((unknown.as_str(), NameKind::Term)),
            _ => None,
        }
    }

    /// The term whose definition tells why.
    pub fn term(&self) -> Option<&str> {
        match self {
            Why::Named(term, wrong) if wrong.is_of_term() => Some(term.as_str()),
            Why::TemplateArgument { term, .. } | Why::ArgumentCount { term, .. } => {
                Some(term.as_str())
            }
            _ => None,
        }
    }

    /// Whether a rule uses a multi term, and its own term isn't multi.
    pub fn is_of_multi(&self) -> bool {
        matches!(
            self,
            Why::Named(_, Wrong::MultiConstructor | Wrong::MultiExtractor)
        )
    }
}

impl Wrong {
    fn code(self) -> &'static str {
        match self {
            Wrong::TypeTwice | Wrong::TypeBuiltin => "type-twice",
            Wrong::ExternPrimitive | Wrong::NodebugPrimitive | Wrong::NodebugExtern => "type-marks",
            Wrong::VariantTwice => "variant-twice",
            Wrong::TermTwice | Wrong::VariantTermTwice | Wrong::StructTermTwice => "term-twice",
            Wrong::MultiPartial => "multi-partial",
            Wrong::UnknownArgument | Wrong::UnknownResult => "unknown-type",
            Wrong::UnknownInner | Wrong::UnknownOuter => "unknown-type",
            Wrong::UnknownConstantType => "unknown-type",
            Wrong::UnknownConverter | Wrong::UnknownExtractor => "unknown-term",
            Wrong::UnknownConstructor | Wrong::CalledVariable => "unknown-term",
            Wrong::UndeclaredConstructor | Wrong::UndeclaredExtractor => "undeclared-term",
            Wrong::UndeclaredTemplate | Wrong::UndeclaredRoot => "undeclared-term",
            Wrong::ConstructorOfVariant | Wrong::ConstructorOfStruct => "made-by-type",
            Wrong::ExtractorOfVariant | Wrong::ExtractorOfStruct => "made-by-type",
            Wrong::TemplateOfVariant | Wrong::TemplateOfStruct => "made-by-type",
            Wrong::RootOfVariant | Wrong::RootOfStruct => "made-by-type",
            Wrong::ConstructorOfRules => "constructor-of-rules",
            Wrong::ConstructorTwice => "constructor-twice",
            Wrong::ExtractorTwice | Wrong::FirstExtractor => "extractor-twice",
            Wrong::ExtractorOfTemplate | Wrong::FirstTemplateOfExtractor => "extractor-twice",
            Wrong::TemplateTwice | Wrong::FirstTemplate => "extractor-twice",
            Wrong::TemplateOfMulti => "template-of-multi",
            Wrong::UnknownVariable => "unknown-variable",
            Wrong::UnknownConstant => "unknown-constant",
            Wrong::Rebound => "rebound-variable",
            Wrong::NoExtractor => "no-extractor",
            Wrong::NoConstructor => "no-constructor",
            Wrong::Impure | Wrong::MultiConstructor | Wrong::MultiExtractor => "forbidden-term",
            Wrong::Partial | Wrong::PartialInMulti => "forbidden-term",
            Wrong::PriorityInMulti => "priority-in-multi",
            Wrong::RuleTwice => "rule-twice",
            Wrong::Undefined => "undefined-term",
        }
    }

    // What a name that isn't known would stand for.
    fn unknown(self) -> Option<NameKind> {
        match self {
            Wrong::UnknownArgument | Wrong::UnknownResult => Some(NameKind::Type),
            Wrong::UnknownInner | Wrong::UnknownOuter => Some(NameKind::Type),
            Wrong::UnknownConstantType => Some(NameKind::Type),
            Wrong::UnknownConverter | Wrong::UnknownExtractor => Some(NameKind::Term),
            Wrong::UnknownConstructor | Wrong::CalledVariable => Some(NameKind::Term),
            Wrong::UndeclaredConstructor | Wrong::UndeclaredExtractor => Some(NameKind::Declared),
            Wrong::UndeclaredTemplate | Wrong::UndeclaredRoot => Some(NameKind::Declared),
            Wrong::UnknownConstant => Some(NameKind::Constant),
            Wrong::UnknownVariable => Some(NameKind::Variable),
            _ => None,
        }
    }

    // Whether the definition of the term that has the name tells why.
    fn is_of_term(self) -> bool {
        match self {
            Wrong::ConstructorOfVariant | Wrong::ConstructorOfStruct => true,
            Wrong::ExtractorOfVariant | Wrong::ExtractorOfStruct => true,
            Wrong::TemplateOfVariant | Wrong::TemplateOfStruct | Wrong::TemplateOfMulti => true,
            Wrong::RootOfVariant | Wrong::RootOfStruct => true,
            Wrong::NoExtractor | Wrong::NoConstructor | Wrong::Impure => true,
            Wrong::MultiConstructor | Wrong::MultiExtractor => true,
            Wrong::Partial | Wrong::PartialInMulti | Wrong::PriorityInMulti => true,
            _ => false,
        }
    }
}
