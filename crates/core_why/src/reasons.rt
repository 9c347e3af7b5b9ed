//! What isn't right with definitions. Names are owned texts, since an error outlives the tables that have them.

/// What isn't right with a definition, or with what it says.
#[derive(Drop)]
pub enum Why {
    /// What has this name isn't right, in this way.
    Named(String, Wrong),
    /// A field has an earlier one's name, in a struct or in this variant.
    FieldTwice {
        name: String,
        variant: Option<String>,
    },
    /// The type of a field isn't known, in a struct or in this variant.
    FieldType {
        ty: String,
        field: FieldName,
        variant: Option<String>,
    },
    /// There is a converter of these types already.
    ConverterTwice {
        inner: String,
        outer: String,
    },
    /// The template of a term names one that isn't known.
    TemplateTerm {
        term: String,
        unknown: String,
    },
    /// The template of a term uses an argument that the term, which has so many, hasn't got.
    TemplateArgument {
        term: String,
        greatest: usize,
        count: usize,
    },
    /// Templates name one another, along this way: from the term at which the error stands to one that is on it before. A way may be
    /// long, so it is one text: the names, which have no blanks, with a blank between two.
    Recursion(String),
    /// The macro argument of this number stands outside of a template.
    MacroArgument(usize),
    /// The pattern of a rule has no term at its root.
    NoRoot,
    /// The type of a variable that a let defines isn't known.
    LetType {
        ty: String,
        variable: String,
    },
    /// What has this name has another type than is wanted.
    Mismatch {
        what: Typed,
        name: String,
        want: String,
        has: String,
    },
    /// An integer stands for no value of the type.
    NoInteger {
        ty: String,
        val: i128,
    },
    /// A truth value stands for no value of the type.
    NoTruth {
        ty: String,
        val: bool,
    },
    /// An integer stands where any type may.
    UntypedInteger,
    /// A term has so many arguments, and is used with another number of them.
    ArgumentCount {
        term: String,
        got: usize,
        expect: usize,
    },
}

/// A field, as errors call it.
#[derive(Drop)]
pub enum FieldName {
    Text(String),
    Number(usize),
}

/// What has a type.
#[derive(Clone, Copy)]
pub enum Typed {
    /// A variable in a pattern, which is bound already.
    Bound,
    /// A term in a pattern.
    Extractor,
    /// A constant in a pattern.
    MatchedConstant,
    /// A variable in an expression.
    Variable,
    /// A term in an expression.
    Constructor,
    /// A constant in an expression.
    Constant,
}

/// What isn't right with what has a name: each is what its text says.
#[derive(Clone, Copy)]
pub enum Wrong {
    // A type, or a variant.
    TypeTwice,
    /// Comes after `TypeTwice`.
    TypeBuiltin,
    ExternPrimitive,
    NodebugPrimitive,
    NodebugExtern,
    VariantTwice,
    // A declaration, or the term that a type makes.
    /// Is told at both declarations.
    TermTwice,
    VariantTermTwice,
    StructTermTwice,
    MultiPartial,
    // A type that isn't known.
    UnknownArgument,
    UnknownResult,
    UnknownInner,
    UnknownOuter,
    UnknownConstantType,
    // The term of a converter, of an external function, of a template or of a rule.
    UnknownConverter,
    UndeclaredConstructor,
    UndeclaredExtractor,
    UndeclaredTemplate,
    UndeclaredRoot,
    ConstructorOfVariant,
    ConstructorOfStruct,
    ConstructorOfRules,
    ConstructorTwice,
    ExtractorOfVariant,
    ExtractorOfStruct,
    ExtractorTwice,
    /// Comes after `ExtractorTwice`, at the first of the two; so do the two below after what is above each.
    FirstExtractor,
    ExtractorOfTemplate,
    FirstTemplateOfExtractor,
    TemplateTwice,
    FirstTemplate,
    TemplateOfVariant,
    TemplateOfStruct,
    TemplateOfMulti,
    RootOfVariant,
    RootOfStruct,
    // What a rule names.
    UnknownExtractor,
    UnknownConstructor,
    /// A variable has the name of the term that isn't known.
    CalledVariable,
    UnknownVariable,
    UnknownConstant,
    Rebound,
    NoExtractor,
    NoConstructor,
    // A term that may not stand in a rule of its kind.
    Impure,
    MultiConstructor,
    MultiExtractor,
    Partial,
    PartialInMulti,
    // The term of a rule, a rule, or a term that is declared.
    PriorityInMulti,
    RuleTwice,
    Undefined,
}
