//! Syntax trees of definitions, patterns and expressions, the places that they stand at, and what can be
//! wrong with them.
#![tactic(auto, using(crate::proofs::PatternViews::pattern_steps, crate::proofs::ExprViews::expr_steps))]

ghost use Rattle.std.specs.Prelude.{◌≡◌, ◌++◌, ◌<◌, alloc_error, map, length, IfOk, OnErr, OnOk, option_map, string_bytes};
ghost use Rattle.std.specs.List.{position_from};
ghost use Rattle.std.specs.Str.{bytes_eq};
ghost use Rattle.core_syntax.specs.declared.syntax.Fault.TheVariants.{Memory};
ghost use Rattle.core_syntax.specs.Expressions.{expr_position, terms_of_expr, terms_of_exprs, terms_of_lets};
ghost use Rattle.model.specs.lists.TermTable.{terms_of, terms_of_all};
ghost use Rattle.core_syntax.specs.Patterns.{pattern_position};
ghost use Rattle.model.specs.lists.TermTable.{root_name, template, templates};
ghost use Rattle.model.specs.lists.Expansions.{substituted, all_substituted};
ghost use Rattle.core_syntax.specs.Places.{full_name_of, line_of, printed_line, single_end, term_view, HoldsBeginning};
ghost use Rattle.core_syntax.specs.SyntaxViews.{definition_place, definition_view, position, name_view, pattern_view, pattern_views, expr_view, expr_views, let_views};

use core_why::{Unreachable, Why};
use std::alloc::{AllocError, AllocFailed, Global};

/// A place in a file. Ordered by file, then offset, so that errors can be told in the order of the text.
#[derive(Clone, Copy, Debug, Default, PartialEq, Eq, PartialOrd, Ord)]
pub struct Pos {
    /// The file's number in `Files`.
    pub file: usize,
    /// The offset in the file's bytes.
    pub offset: usize,
}

/// A piece of a file, which an error speaks of.
#[derive(Clone, Copy, Debug, PartialEq)]
pub struct Span {
    /// Where it begins.
    pub from: Pos,
    /// Where it ends.
    pub to: Pos,
}

/// The files that were read: two lists of equal length. A place has only a file's number, and these say its name, and by the
/// text which line an offset is in.
pub struct Files {
    /// The files' names.
    pub names: Vec<String>,
    /// The files' texts.
    pub texts: Vec<String>,
}

/// A name, and where it stands: what is wrong with a name is told at that place.
#[derive(Debug, PartialEq, Eq)]
pub struct Ident(pub String, pub Pos);

/// What is bounded, so that definitions from anyone cost no more than a known amount, and ids fit their types.
#[derive(Clone, Copy, Debug)]
pub enum Limit {
    /// The fields that a constraint matches.
    Fields,
    /// The outputs of an extractor.
    Outputs,
    /// The arguments of a rule.
    Arguments,
    /// The binding sites of a term.
    Sites,
    /// How deep expansions nest.
    Nesting,
    /// The expansions in one rule.
    Expansions,
}

impl Limit {
    /// What the definitions have that passes the limit, as the text of an error.
    pub fn text(self) -> &'static str {
        match self {
            Limit::Fields => "more than 255 fields are matched",
            Limit::Outputs => "more than 255 extractor outputs",
            Limit::Arguments => "more than 256 arguments",
            Limit::Sites => "more than 65536 binding sites",
            Limit::Nesting => "expansions nest deeper than 256",
            Limit::Expansions => "more than 65536 expansions in one rule",
        }
    }

    /// The limit by its number, from `limit L1` for the fields to `limit L6` for the expansions.
    pub fn number(self) -> &'static str {
        match self {
            Limit::Fields => "limit L1",
            Limit::Outputs => "limit L2",
            Limit::Arguments => "limit L3",
            Limit::Sites => "limit L4",
            Limit::Nesting => "limit L5",
            Limit::Expansions => "limit L6",
        }
    }
}

/// What is wrong with the definitions.
#[derive(Debug)]
pub enum Error {
    /// A definition, or what it says, isn't right.
    TypeError {
        /// What isn't right.
        msg: Why,
        /// Where.
        span: Span,
    },
    /// A rule can never match.
    UnreachableError {
        /// Why it can't.
        msg: Unreachable,
        /// The rule.
        span: Span,
    },
    /// Rules of one priority match the same values, and nothing says which of them to take.
    OverlapError {
        /// That they overlap.
        msg: String,
        /// The first overlaps each of the others.
        rules: Vec<Span>,
    },
    /// Rules that another one comes before wherever they match, so that they are never taken.
    ShadowedError {
        /// The rules that are never taken.
        shadowed: Vec<Span>,
        /// The rule that comes before them.
        mask: Span,
    },
    /// More of something than there may be.
    LimitError {
        /// What there is more of.
        limit: Limit,
        /// How many there may be.
        msg: String,
        /// The rule that has more.
        span: Span,
    },
}

/// Why there is no answer: memory, or the definitions. Kept apart, since the first says nothing of the definitions and the
/// same call may succeed another time.
#[derive(Debug, Drop)]
pub enum Fault {
    /// The allocator refused.
    Memory(AllocError),
    /// What is wrong with the definitions: at least one error.
    Errors(Vec<Error>),
}

impl From<AllocError> for Fault {
    ghost from_gives = { λ a e. e ≡ Memory a };

    fn from(e: AllocError) -> Fault {
        Fault::Memory(e)
    }
}

impl<T: Drop> From<AllocFailed<T>> for Fault {
    ghost from_gives = { λ _ e. e ≡ Memory alloc_error };

    fn from(e: AllocFailed<T>) -> Fault {
        Fault::Memory(AllocError::from(e))
    }
}

/// A definition. What is wrong with it is told at its `pos`.
#[derive(Clone, PartialEq, Eq)]
pub enum Def {
    TypeDef(Type),
    Decl(Decl),
    Extractor(Extractor),
    Converter(Converter),
    Rule(Rule),
    Extern(Extern),
    /// Any other definition. It changes nothing, and keeps its place in the list, by which rules and errors are in order.
    Other,
}

/// A type's definition.
#[derive(Clone, PartialEq, Eq)]
pub struct Type {
    pub name: Ident,
    /// Whether it is declared outside, so that generated code has no declaration of it.
    pub is_extern: bool,
    /// Whether generated code can't print its values. Only a type that is declared here can be so marked.
    pub is_nodebug: bool,
    pub ty: TypeValue,
    pub pos: Pos,
}

/// What a type is, each with its place.
#[derive(Clone, PartialEq, Eq)]
pub enum TypeValue {
    /// A type of the generated code's language, by its name there.
    Primitive(Ident, Pos),
    Enum(Vec<Variant>, Pos),
    Struct(Fields, Pos),
}

/// A variant of an enum type. It is a term too, named by `full_name`.
#[derive(Clone, PartialEq, Eq)]
pub struct Variant {
    pub name: Ident,
    pub fields: Fields,
    pub pos: Pos,
}

/// The fields of a variant or of a struct type.
#[derive(Clone, PartialEq, Eq)]
pub enum Fields {
    Unit,
    Struct(StructFields),
    Tuple(TupleFields),
}

/// Fields with names.
#[derive(Clone, PartialEq, Eq)]
pub struct StructFields {
    /// The fields, in the order in which a term's arguments stand for them.
    pub fields: Vec<StructField>,
}

/// A field with a name.
#[derive(Clone, PartialEq, Eq)]
pub struct StructField {
    pub name: Ident,
    /// The name of its type.
    pub ty: Ident,
    pub pos: Pos,
}

/// Fields without names.
#[derive(Clone, PartialEq, Eq)]
pub struct TupleFields {
    /// The fields, in the order in which a term's arguments stand for them.
    pub fields: Vec<TupleField>,
}

/// A field without a name.
#[derive(Clone, PartialEq, Eq)]
pub struct TupleField {
    /// What an error calls the field, since it has no name.
    pub index: usize,
    /// The name of its type.
    pub ty: Ident,
    pub pos: Pos,
}

/// A term's declaration.
#[derive(Clone, PartialEq, Eq)]
pub struct Decl {
    pub term: Ident,
    /// The names of its arguments' types.
    pub arg_tys: Vec<Ident>,
    /// The name of its result's type.
    pub ret_ty: Ident,
    /// Whether its constructor changes nothing, so that an if-let may call it before a rule is chosen.
    pub pure: bool,
    /// Whether a call gives several results. Its rules then have no order, and so no priorities.
    pub multi: bool,
    /// Whether its constructor may give no result.
    pub partial: bool,
    /// Whether its rules may call it again, through other terms too.
    pub rec: bool,
    pub pos: Pos,
}

/// A term's extractor, as a pattern that stands for it: a use of the term in a pattern is that template, with the use's
/// arguments in the places of its own.
#[derive(Clone, PartialEq, Eq)]
pub struct Extractor {
    pub term: Ident,
    /// The names that the template gives the term's arguments.
    pub args: Vec<Ident>,
    pub template: Pattern,
    pub pos: Pos,
}

/// A term that converts one type into another: where a form of the one stands and the other is wanted, a use of the term is put
/// round it.
#[derive(Clone, PartialEq, Eq)]
pub struct Converter {
    pub term: Ident,
    /// The name of the type that the form has.
    pub inner_ty: Ident,
    /// The name of the type that is wanted.
    pub outer_ty: Ident,
    pub pos: Pos,
}

/// A rule: where the pattern and all conditions match, the term is what the expression makes.
#[derive(Clone, PartialEq, Eq)]
pub struct Rule {
    /// The term that the rule is of, with a pattern for each argument.
    pub pattern: Pattern,
    /// Further conditions, each of which may use what those before it bind.
    pub iflets: Vec<IfLet>,
    pub expr: Expr,
    pub pos: Pos,
    /// Of the rules that match, one of the greatest is taken; none is 0.
    pub prio: Option<i64>,
    /// What the rule is called, in place of its position.
    pub name: Option<Ident>,
}

/// A further condition of a rule: an expression's value matches a pattern.
#[derive(Clone, PartialEq, Eq)]
pub struct IfLet {
    pub pattern: Pattern,
    pub expr: Expr,
    pub pos: Pos,
}

/// What is defined outside, by functions and constants of the generated code's language.
#[derive(Clone, PartialEq, Eq)]
pub enum Extern {
    /// The function that makes a term's value from its arguments.
    Constructor {
        term: Ident,
        func: Ident,
        pos: Pos,
    },
    /// The function that takes a term's value apart into its arguments.
    Extractor {
        term: Ident,
        func: Ident,
        pos: Pos,
        /// Whether it always answers, so that it tests nothing.
        infallible: bool,
    },
    /// A constant, with the name of its type.
    Const {
        name: Ident,
        ty: Ident,
        pos: Pos,
    },
}

/// What a rule matches.
#[derive(Debug, PartialEq, Eq)]
pub enum Pattern {
    /// The first use of a name binds it to the value; a later one matches a value that is equal to it.
    Var {
        var: Ident,
        pos: Pos,
    },
    /// Binds a name to the value that the inner pattern matches.
    BindPattern {
        var: Ident,
        subpat: Box<Pattern>,
        pos: Pos,
    },
    ConstBool {
        val: bool,
        pos: Pos,
    },
    ConstInt {
        val: i128,
        pos: Pos,
    },
    /// A constant that is defined outside.
    ConstPrim {
        val: Ident,
        pos: Pos,
    },
    /// A variant, a struct, or what an extractor takes apart, with a pattern for each part.
    Term {
        sym: Ident,
        args: Vec<Pattern>,
        pos: Pos,
    },
    Wildcard {
        pos: Pos,
    },
    /// All of these match the value.
    And {
        subpats: Vec<Pattern>,
        pos: Pos,
    },
    /// Of a template alone: the argument of this place, counted from 0. A use's pattern takes its place.
    MacroArg {
        index: usize,
        pos: Pos,
    },
}

/// What a rule makes.
#[cycle(expr)]
#[derive(PartialEq, Eq)]
pub enum Expr {
    /// A call of a term's constructor.
    Term {
        sym: Ident,
        args: Vec<Expr>,
        pos: Pos,
    },
    /// What the name is bound to.
    Var {
        name: Ident,
        pos: Pos,
    },
    ConstBool {
        val: bool,
        pos: Pos,
    },
    ConstInt {
        val: i128,
        pos: Pos,
    },
    /// A constant that is defined outside.
    ConstPrim {
        val: Ident,
        pos: Pos,
    },
    /// Binds names, each of which the later ones and the body may use.
    Let {
        defs: Vec<LetDef>,
        body: Box<Expr>,
        pos: Pos,
    },
}

/// One name of a let.
#[cycle(expr)]
#[derive(PartialEq, Eq)]
pub struct LetDef {
    pub var: Ident,
    /// The name of its type, which isn't guessed from the value.
    pub ty: Ident,
    pub val: Box<Expr>,
    pub pos: Pos,
}

impl Pos {
    /// The place as text: the file's name, ` line `, and the line's number, which is 1 plus the number of line
    /// feeds before the offset. The file must be one of these.
    pub fn pretty_print_line(&self, alloc: Global, files: &Files) -> Result<String, AllocError>
        requires name { self.now.file < length files.now.names.items }
        requires text { self.now.file < length files.now.texts.items }
        ensures { IfOk result (λ s. string_bytes s
            ≡ printed_line (map string_bytes files.now.names.items) (map string_bytes files.now.texts.items) (position self.now)) }
    {
        let name = &files.names[self.file];
        let line = line_at(&files.texts[self.file], self.offset);
        format!(in alloc; "{name} line {line}")
    }
}

// The number of the line that the offset stands in.
fn line_at(text: &str, offset: usize) -> usize
    ensures { result ≡ line_of text.now offset }
{
    let bytes = text.as_bytes();
    let end = offset.min(bytes.len());
    let mut line = 1;
    for b in &bytes[..end] {
        if *b == b'\n' {
            line += 1;
        }
    }
    line
}

impl Def {
    /// Where a definition stands. Any other one has no place.
    pub fn place(&self) -> Option<Pos>
        ensures { option_map position result ≡ definition_place (definition_view self.now) }
    {
        match self {
            Def::TypeDef(ty) => Some(ty.pos),
            Def::Decl(decl) => Some(decl.pos),
            Def::Extractor(extractor) => Some(extractor.pos),
            Def::Converter(converter) => Some(converter.pos),
            Def::Rule(rule) => Some(rule.pos),
            Def::Extern(
                Extern::Constructor { pos, .. }
                | Extern::Extractor { pos, .. }
                | Extern::Const { pos, .. },
            ) => Some(*pos),
            Def::Other => None,
        }
    }
}

impl Span {
    /// The piece that begins at the place and ends at the next offset of the same file, or where it begins if
    /// there is no greater offset.
    pub fn new_single(pos: Pos) -> Span
        ensures from { result.from ≡ pos }
        ensures to { result.to ≡ single_end pos }
    {
        Span {
            from: pos,
            to: Pos {
                file: pos.file,
                offset: pos.offset.saturating_add(1),
            },
        }
    }
}

impl Variant {
    /// The name of a variant with that of its type before it, joined with a point; it stands where the
    /// variant's name does.
    pub fn full_name(enum_name: &Ident, variant_name: &Ident) -> Result<Ident, AllocError>
        ensures { IfOk result (λ i. name_view i ≡ full_name_of (name_view enum_name.now) (name_view variant_name.now)) }
    {
        let alloc = *variant_name.0.allocator();
        let type_text = &enum_name.0;
        let variant_text = &variant_name.0;
        let text = format!(in alloc; "{type_text}.{variant_text}")?;
        Ok(Ident(text, variant_name.1))
    }
}

impl Pattern {
    /// The position of the form.
    pub fn pos(&self) -> Pos
        ensures { position result ≡ pattern_position (pattern_view self.now) }
    {
        match self {
            Pattern::Var { pos, .. }
            | Pattern::BindPattern { pos, .. }
            | Pattern::ConstBool { pos, .. }
            | Pattern::ConstInt { pos, .. }
            | Pattern::ConstPrim { pos, .. }
            | Pattern::Term { pos, .. }
            | Pattern::Wildcard { pos }
            | Pattern::And { pos, .. }
            | Pattern::MacroArg { pos, .. } => *pos,
        }
    }

    /// The symbol of a term, and `None` of any other form.
    pub fn root_term(&self) -> Option<&Ident>
        ensures { option_map (λ s. name_view s.now) result ≡ root_name (pattern_view self.now) }
    {
        match self {
            Pattern::Term { sym, .. } => Some(sym),
            _ => None,
        }
    }

    /// Adds the position and the symbol of each term to the list, an outer term before its parts, left to
    /// right. A refusal leaves a beginning of them there, after what the list held. Upstream calls a closure with each, in
    /// this order.
    pub fn terms<'a>(&'a self, out: &mut Vec<(Pos, &'a Ident)>) -> Result<(), AllocError>
        ensures all { OnOk result (map (λ t. term_view t.0 t.1.now) out.new.items
            ≡ map (λ t. term_view t.0 t.1.now) out.old.items ++ terms_of (pattern_view self.now)) }
        ensures beginning { OnErr result (HoldsBeginning (map (λ t. term_view t.0 t.1.now) out.old.items) (terms_of (pattern_view self.now)) (map (λ t. term_view t.0 t.1.now) out.new.items)) }
    {
        match self {
            Pattern::BindPattern { subpat, .. } => subpat.terms(out),
            Pattern::Term { sym, args, pos } => {
                out.push((*pos, sym))?;
                for arg in args {
                    arg.terms(out)?;
                }
                Ok(())
            }
            Pattern::And { subpats, .. } => {
                for subpat in subpats {
                    subpat.terms(out)?;
                }
                Ok(())
            }
            _ => Ok(()),
        }
    }

    /// The template that the pattern is for arguments of these names: a variable named as an argument, or a
    /// binding of that name over a wildcard, becomes the argument of the first place with that name. All else
    /// is kept, and its parts are treated alike.
    #[cycle(template)]
    pub fn make_macro_template(&self, alloc: Global, args: &[Ident]) -> Result<Pattern, AllocError>
        ensures { IfOk result (λ q. pattern_view q
            ≡ template (map (λ a. string_bytes a.0) args.now) (pattern_view self.now)) }
    {
        match self {
            Pattern::Var { var, pos } => {
                if let Some(index) = place_of(args, var) {
                    return Ok(Pattern::MacroArg { index, pos: *pos });
                }
                self.clone()
            }
            Pattern::BindPattern { var, subpat, pos } => {
                if let Pattern::Wildcard { .. } = &**subpat {
                    if let Some(index) = place_of(args, var) {
                        return Ok(Pattern::MacroArg { index, pos: *pos });
                    }
                }
                Ok(Pattern::BindPattern {
                    var: var.clone()?,
                    subpat: Box::new(alloc, subpat.make_macro_template(alloc, args)?)?,
                    pos: *pos,
                })
            }
            Pattern::Term {
                sym,
                args: parts,
                pos,
            } => Ok(Pattern::Term {
                sym: sym.clone()?,
                args: templates(alloc, parts, args)?,
                pos: *pos,
            }),
            Pattern::And { subpats, pos } => Ok(Pattern::And {
                subpats: templates(alloc, subpats, args)?,
                pos: *pos,
            }),
            _ => self.clone(),
        }
    }

    /// The pattern with the i-th of these in the place of each argument i, and `None` where an argument has no
    /// pattern.
    #[cycle(subst)]
    pub fn subst_macro_args(
        &self,
        alloc: Global,
        macro_args: &[Pattern],
    ) -> Result<Option<Pattern>, AllocError>
        ensures { IfOk result (λ o. option_map pattern_view o
            ≡ substituted (map pattern_view macro_args.now) (pattern_view self.now)) }
    {
        match self {
            Pattern::MacroArg { index, .. } => match macro_args.get(*index) {
                Some(p) => Ok(Some(p.clone()?)),
                None => Ok(None),
            },
            Pattern::BindPattern { var, subpat, pos } => {
                let Some(q) = subpat.subst_macro_args(alloc, macro_args)? else {
                    return Ok(None);
                };
                Ok(Some(Pattern::BindPattern {
                    var: var.clone()?,
                    subpat: Box::new(alloc, q)?,
                    pos: *pos,
                }))
            }
            Pattern::Term { sym, args, pos } => {
                let Some(args) = subst_each(alloc, args, macro_args)? else {
                    return Ok(None);
                };
                Ok(Some(Pattern::Term {
                    sym: sym.clone()?,
                    args,
                    pos: *pos,
                }))
            }
            Pattern::And { subpats, pos } => {
                let Some(subpats) = subst_each(alloc, subpats, macro_args)? else {
                    return Ok(None);
                };
                Ok(Some(Pattern::And { subpats, pos: *pos }))
            }
            _ => Ok(Some(self.clone()?)),
        }
    }
}

impl Expr {
    /// The position of the form.
    pub fn pos(&self) -> Pos
        ensures { position result ≡ expr_position (expr_view self.now) }
    {
        match self {
            Expr::Term { pos, .. }
            | Expr::Var { pos, .. }
            | Expr::ConstBool { pos, .. }
            | Expr::ConstInt { pos, .. }
            | Expr::ConstPrim { pos, .. }
            | Expr::Let { pos, .. } => *pos,
        }
    }

    /// Adds the position and the symbol of each term to the list, an outer term before its parts, left to
    /// right, a let's definitions before its body. A refusal leaves a beginning of them there, after what the list
    /// held. Upstream calls a closure with each, in this order.
    pub fn terms<'a>(&'a self, out: &mut Vec<(Pos, &'a Ident)>) -> Result<(), AllocError>
        ensures all { OnOk result (map (λ t. term_view t.0 t.1.now) out.new.items
            ≡ map (λ t. term_view t.0 t.1.now) out.old.items ++ terms_of_expr (expr_view self.now)) }
        ensures beginning { OnErr result (HoldsBeginning (map (λ t. term_view t.0 t.1.now) out.old.items) (terms_of_expr (expr_view self.now)) (map (λ t. term_view t.0 t.1.now) out.new.items)) }
    {
        match self {
            Expr::Term { sym, args, pos } => {
                out.push((*pos, sym))?;
                for arg in args {
                    arg.terms(out)?;
                }
                Ok(())
            }
            Expr::Let { defs, body, .. } => {
                for def in defs {
                    def.val.terms(out)?;
                }
                body.terms(out)
            }
            _ => Ok(()),
        }
    }
}

// The place of the first of the names that has this one's text.
fn place_of(args: &[Ident], name: &Ident) -> Option<usize>
    ensures { result ≡ position_from (bytes_eq (string_bytes name.now.0)) 0 (map (λ a. string_bytes a.0) args.now) }
{
    for i in 0..args.len() {
        if name.0 == args[i].0 {
            return Some(i);
        }
    }
    None
}

#[cycle(template)]
fn templates(alloc: Global, parts: &[Pattern], args: &[Ident]) -> Result<Vec<Pattern>, AllocError>
    ensures { IfOk result (λ v. pattern_views v.items
        ≡ templates (map (λ a. string_bytes a.0) args.now) (pattern_views parts.now)) }
{
    let mut out = Vec::new(alloc);
    for part in parts {
        out.push(part.make_macro_template(alloc, args)?)?;
    }
    Ok(out)
}

// Several patterns with these in the places of their arguments.
#[cycle(subst)]
fn subst_each(
    alloc: Global,
    parts: &[Pattern],
    macro_args: &[Pattern],
) -> Result<Option<Vec<Pattern>>, AllocError>
    ensures { IfOk result (λ o. option_map (λ v. pattern_views v.items) o
        ≡ all_substituted (map pattern_view macro_args.now) (pattern_views parts.now)) }
{
    let mut out = Vec::new(alloc);
    for part in parts {
        let Some(q) = part.subst_macro_args(alloc, macro_args)? else {
            return Ok(None);
        };
        out.push(q)?;
    }
    Ok(Some(out))
}

impl Clone for Ident {
    ghost use Rattle.core_syntax.specs.SyntaxViews.{name_view};

    ghost is_clone = { λ i j. name_view j ≡ name_view i };

    fn clone(&self) -> Result<Ident, AllocError> {
        Ok(Ident(self.0.clone()?, self.1))
    }
}

impl Clone for Pattern {
    ghost use Rattle.core_syntax.specs.SyntaxViews.{pattern_view};

    ghost is_clone = { λ p q. pattern_view q ≡ pattern_view p };

    #[cycle(pattern_clone)]
    fn clone(&self) -> Result<Pattern, AllocError> {
        match self {
            Pattern::Var { var, pos } => Ok(Pattern::Var {
                var: var.clone()?,
                pos: *pos,
            }),
            Pattern::BindPattern { var, subpat, pos } => {
                let alloc = *Box::allocator(subpat);
                Ok(Pattern::BindPattern {
                    var: var.clone()?,
                    subpat: Box::new(alloc, (**subpat).clone()?)?,
                    pos: *pos,
                })
            }
            Pattern::ConstBool { val, pos } => Ok(Pattern::ConstBool {
                val: *val,
                pos: *pos,
            }),
            Pattern::ConstInt { val, pos } => Ok(Pattern::ConstInt {
                val: *val,
                pos: *pos,
            }),
            Pattern::ConstPrim { val, pos } => Ok(Pattern::ConstPrim {
                val: val.clone()?,
                pos: *pos,
            }),
            Pattern::Term { sym, args, pos } => Ok(Pattern::Term {
                sym: sym.clone()?,
                args: pattern_clones(*args.allocator(), args)?,
                pos: *pos,
            }),
            Pattern::Wildcard { pos } => Ok(Pattern::Wildcard { pos: *pos }),
            Pattern::And { subpats, pos } => Ok(Pattern::And {
                subpats: pattern_clones(*subpats.allocator(), subpats)?,
                pos: *pos,
            }),
            Pattern::MacroArg { index, pos } => Ok(Pattern::MacroArg {
                index: *index,
                pos: *pos,
            }),
        }
    }
}

#[cycle(pattern_clone)]
fn pattern_clones(alloc: Global, parts: &[Pattern]) -> Result<Vec<Pattern>, AllocError>
    ensures { IfOk result (λ v. pattern_views v.items ≡ pattern_views parts.now) }
{
    let mut out = Vec::new(alloc);
    for part in parts {
        out.push(part.clone()?)?;
    }
    Ok(out)
}

impl Clone for Expr {
    ghost use Rattle.core_syntax.specs.SyntaxViews.{expr_view};

    ghost is_clone = { λ e f. expr_view f ≡ expr_view e };

    #[cycle(expr_clone)]
    fn clone(&self) -> Result<Expr, AllocError> {
        match self {
            Expr::Term { sym, args, pos } => Ok(Expr::Term {
                sym: sym.clone()?,
                args: expr_clones(*args.allocator(), args)?,
                pos: *pos,
            }),
            Expr::Var { name, pos } => Ok(Expr::Var {
                name: name.clone()?,
                pos: *pos,
            }),
            Expr::ConstBool { val, pos } => Ok(Expr::ConstBool {
                val: *val,
                pos: *pos,
            }),
            Expr::ConstInt { val, pos } => Ok(Expr::ConstInt {
                val: *val,
                pos: *pos,
            }),
            Expr::ConstPrim { val, pos } => Ok(Expr::ConstPrim {
                val: val.clone()?,
                pos: *pos,
            }),
            Expr::Let { defs, body, pos } => {
                let alloc = *Box::allocator(body);
                Ok(Expr::Let {
                    defs: let_clones(*defs.allocator(), defs)?,
                    body: Box::new(alloc, (**body).clone()?)?,
                    pos: *pos,
                })
            }
        }
    }
}

impl Clone for LetDef {
    ghost use Rattle.std.specs.Prelude.{◌∷◌, []};
    ghost use Rattle.core_syntax.specs.SyntaxViews.{let_views};

    ghost is_clone = { λ d e. let_views (e ∷ []) ≡ let_views (d ∷ []) };

    #[cycle(expr_clone)]
    fn clone(&self) -> Result<LetDef, AllocError> {
        let alloc = *Box::allocator(&self.val);
        Ok(LetDef {
            var: self.var.clone()?,
            ty: self.ty.clone()?,
            val: Box::new(alloc, (*self.val).clone()?)?,
            pos: self.pos,
        })
    }
}

#[cycle(expr_clone)]
fn expr_clones(alloc: Global, parts: &[Expr]) -> Result<Vec<Expr>, AllocError>
    ensures { IfOk result (λ v. expr_views v.items ≡ expr_views parts.now) }
{
    let mut out = Vec::new(alloc);
    for part in parts {
        out.push(part.clone()?)?;
    }
    Ok(out)
}

#[cycle(expr_clone)]
fn let_clones(alloc: Global, parts: &[LetDef]) -> Result<Vec<LetDef>, AllocError>
    ensures { IfOk result (λ v. let_views v.items ≡ let_views parts.now) }
{
    let mut out = Vec::new(alloc);
    for part in parts {
        out.push(part.clone()?)?;
    }
    Ok(out)
}

// How the parts of each type are let go. Written out, since a derived `Drop` is proved again in each crate that drops the
// type, and a written one here alone.

impl Drop for Files {
    fn drop(self) {
        let Files { names: _, texts: _ } = self;
    }
}

impl Drop for Ident {
    fn drop(self) {
        let Ident(_, _) = self;
    }
}

impl Drop for Error {
    fn drop(self) {
        match self {
            Error::TypeError { msg: _, span: _ } => {}
            Error::UnreachableError { msg: _, span: _ } => {}
            Error::OverlapError { msg: _, rules: _ } => {}
            Error::ShadowedError {
                shadowed: _,
                mask: _,
            } => {}
            Error::LimitError {
                limit: _,
                msg: _,
                span: _,
            } => {}
        }
    }
}

impl Drop for Def {
    fn drop(self) {
        match self {
            Def::TypeDef(_) => {}
            Def::Decl(_) => {}
            Def::Extractor(_) => {}
            Def::Converter(_) => {}
            Def::Rule(_) => {}
            Def::Extern(_) => {}
            Def::Other => {}
        }
    }
}

impl Drop for Type {
    fn drop(self) {
        let Type {
            name: _,
            is_extern: _,
            is_nodebug: _,
            ty: _,
            pos: _,
        } = self;
    }
}

impl Drop for TypeValue {
    fn drop(self) {
        match self {
            TypeValue::Primitive(_, _) => {}
            TypeValue::Enum(_, _) => {}
            TypeValue::Struct(_, _) => {}
        }
    }
}

impl Drop for Variant {
    fn drop(self) {
        let Variant {
            name: _,
            fields: _,
            pos: _,
        } = self;
    }
}

impl Drop for Fields {
    fn drop(self) {
        match self {
            Fields::Unit => {}
            Fields::Struct(_) => {}
            Fields::Tuple(_) => {}
        }
    }
}

impl Drop for StructFields {
    fn drop(self) {
        let StructFields { fields: _ } = self;
    }
}

impl Drop for StructField {
    fn drop(self) {
        let StructField {
            name: _,
            ty: _,
            pos: _,
        } = self;
    }
}

impl Drop for TupleFields {
    fn drop(self) {
        let TupleFields { fields: _ } = self;
    }
}

impl Drop for TupleField {
    fn drop(self) {
        let TupleField {
            index: _,
            ty: _,
            pos: _,
        } = self;
    }
}

impl Drop for Decl {
    fn drop(self) {
        let Decl {
            term: _,
            arg_tys: _,
            ret_ty: _,
            pure: _,
            multi: _,
            partial: _,
            rec: _,
            pos: _,
        } = self;
    }
}

impl Drop for Extractor {
    fn drop(self) {
        let Extractor {
            term: _,
            args: _,
            template: _,
            pos: _,
        } = self;
    }
}

impl Drop for Converter {
    fn drop(self) {
        let Converter {
            term: _,
            inner_ty: _,
            outer_ty: _,
            pos: _,
        } = self;
    }
}

impl Drop for Rule {
    fn drop(self) {
        let Rule {
            pattern: _,
            iflets: _,
            expr: _,
            pos: _,
            prio: _,
            name: _,
        } = self;
    }
}

impl Drop for IfLet {
    fn drop(self) {
        let IfLet {
            pattern: _,
            expr: _,
            pos: _,
        } = self;
    }
}

impl Drop for Extern {
    fn drop(self) {
        match self {
            Extern::Constructor {
                term: _,
                func: _,
                pos: _,
            } => {}
            Extern::Extractor {
                term: _,
                func: _,
                pos: _,
                infallible: _,
            } => {}
            Extern::Const {
                name: _,
                ty: _,
                pos: _,
            } => {}
        }
    }
}

impl Drop for Pattern {
    fn drop(self) {
        match self {
            Pattern::Var { var: _, pos: _ } => {}
            Pattern::BindPattern {
                var: _,
                subpat: _,
                pos: _,
            } => {}
            Pattern::ConstBool { val: _, pos: _ } => {}
            Pattern::ConstInt { val: _, pos: _ } => {}
            Pattern::ConstPrim { val: _, pos: _ } => {}
            Pattern::Term {
                sym: _,
                args: _,
                pos: _,
            } => {}
            Pattern::Wildcard { pos: _ } => {}
            Pattern::And { subpats: _, pos: _ } => {}
            Pattern::MacroArg { index: _, pos: _ } => {}
        }
    }
}

impl Drop for Expr {
    #[cycle(expr_drop)]
    fn drop(self) {
        match self {
            Expr::Term {
                sym: _,
                args: _,
                pos: _,
            } => {}
            Expr::Var { name: _, pos: _ } => {}
            Expr::ConstBool { val: _, pos: _ } => {}
            Expr::ConstInt { val: _, pos: _ } => {}
            Expr::ConstPrim { val: _, pos: _ } => {}
            Expr::Let {
                defs: _,
                body: _,
                pos: _,
            } => {}
        }
    }
}

impl Drop for LetDef {
    #[cycle(expr_drop)]
    fn drop(self) {
        let LetDef {
            var: _,
            ty: _,
            val: _,
            pos: _,
        } = self;
    }
}
