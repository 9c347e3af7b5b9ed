//! Pieces of text.

use cranelift_isle::sema::{Sym, TermId, TypeId, VariantId};
use cranelift_isle::syntax::Pos;
use cranelift_isle::trie_again::{BindingId, TupleIndex};

/// Keywords, punctuation, and names that are the same in all code.
#[derive(Clone, Copy)]
pub enum Word {
    /// `let`
    Let,
    /// `mut`
    Mut,
    /// `ref`
    Ref,
    /// `if`
    If,
    /// `else`
    Else,
    /// `match`
    Match,
    /// `while`
    While,
    /// `return`
    Return,
    /// `break`
    Break,
    /// `Some`
    Some,
    /// `None`
    None,
    /// `true`
    True,
    /// `false`
    False,
    /// `ctx`: the context that functions are handed.
    Ctx,
    /// `returns`: the list that results are put into.
    Returns,
    /// `extend`
    Extend,
    /// `len`
    Len,
    /// `MAX_ISLE_RETURNS`: how many results are wanted.
    Most,
    /// `clone`
    Clone,
    /// `into_context_iter`
    Iter,
    /// `next`
    Next,
    /// `unreachable!`
    Unreachable,
    /// `(`
    Opening,
    /// `)`
    Closing,
    /// `{`
    OpeningBrace,
    /// `}`
    ClosingBrace,
    /// `,`
    Comma,
    /// `:`
    Colon,
    /// `;`
    Semicolon,
    /// `.`
    Dot,
    /// `..`
    TwoDots,
    /// `_`
    Underscore,
    /// `=>`
    Arrow,
    /// `=`
    Equals,
    /// `==`
    EqualTo,
    /// `!=`
    Unlike,
    /// `>=`
    AtLeast,
    /// `&`
    Ampersand,
    /// `*`
    Star,
}

/// What has fields.
#[derive(Clone, Copy)]
pub enum Owner {
    /// A variant of an enum.
    Variant {
        /// The enum.
        ty: TypeId,
        /// The variant.
        variant: VariantId,
    },
    /// A struct.
    Struct {
        /// The struct.
        ty: TypeId,
    },
}

/// A function of a term.
#[derive(Clone, Copy)]
pub enum Callee {
    /// What takes the term's values apart.
    Extractor(TermId),
    /// What makes them.
    Constructor(TermId),
}

/// What rustc reads as one word or mark, or as one name or call of a macro.
#[derive(Clone, Copy)]
pub enum RustToken {
    /// A word that is the same in all code.
    Word(Word),
    /// The variable that a site is bound to.
    Variable(BindingId),
    /// A parameter of the function.
    Parameter(TupleIndex),
    /// A part of a tuple, behind it: `.1`.
    Part(TupleIndex),
    /// An integer that is written out.
    Int {
        /// The integer.
        val: i128,
        /// Its type.
        ty: TypeId,
    },
    /// A named constant.
    Constant(Sym),
    /// A variant after its enum, or a struct.
    Owner(Owner),
    /// A field with a name.
    Field {
        /// What has it.
        owner: Owner,
        /// Its place there.
        index: usize,
    },
    /// A function.
    Function(Callee),
    /// What the answers of a function with many are put into, before there is one.
    List(Callee),
    /// A label: `'at12`.
    Label(usize),
    /// The panic of a term that isn't partial, where no rule matched.
    NoMatch,
}

/// A piece of a function's text.
#[derive(Clone, Copy)]
pub enum Piece {
    /// A token.
    Token(RustToken),
    /// A space.
    Space,
    /// The white space before a line that is set in so many times.
    SetIn(usize),
    /// The end of a line.
    LineEnd,
    /// A comment with the place of a rule.
    RuleComment(Pos),
    /// What tells the log the place of a rule.
    LogLine(Pos),
}
