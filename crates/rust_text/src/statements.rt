//! Statements without bodies, and the lines that bodies stand between.

ghost use Rattle.std.specs.Prelude.{◌∷◌, true, false, [], OnOk};
ghost use Rattle.model_code.specs.Tokens.{ampersand, closing, closing_brace, comma, ctx_word, dot, else_word, equals, if_word, iter_word, let_word, mut_word, next_word, opening, opening_brace, return_word, semicolon, some_word, unreachable_word, variable_name};
ghost use Rattle.model_code.specs.Notation.{gives_many};
ghost use Rattle.model_code.specs.Pieces as Pieces;
ghost use Rattle.model_code.specs.Pieces.{arm_head, bind_lines, bind_some_line, call_lines, equal_head, failure_before, give_lines, given_end, line_end, log_lines, loop_head, many_lines, match_end, match_head, one_line, put, put_all, put_between, put_first, result_lines, set_in, space, token, unless_equal_line, unless_line, use_before};
ghost use Rattle.core_syntax.specs.SyntaxViews.{position};
ghost use Rattle.rust_code.specs.CodeViews.{expr_view, use_view, use_views};
ghost use Rattle.core_rule_sets.specs.SiteViews.{constraint_view};
ghost use Rattle.rust_text.specs.TokenViews.{callee_view, word_view};
ghost use Rattle.rust_text.specs.Adding.{Adds, AddsBy};
ghost use Rattle.rust_text.specs.Margins.{margin_view};
ghost use Rattle.rust_text.specs.Writers.{gives_view};

use crate::added::{add, add_between, add_first, add_token, add_word, add_words, end_line};
use crate::conditions::is_constant;
use crate::expressions::add_call;
use crate::layout::{Margin, add_break, add_margin, begin_line, close_body, open_body};
use crate::notation::Writer;
use crate::places::add_use;
use crate::tokens::{Callee, Piece, RustToken, Word};
use cranelift_isle::sema::ReturnKind;
use cranelift_isle::syntax::Pos;
use cranelift_isle::trie_again::{BindingId, Constraint};
use rust_code::code::{BoundExpr, Use};
use std::alloc::AllocError;
use std::slice;

// Adds the end of a result that is put into the list, and a return where the list is full.
fn add_given_end(out: &mut Vec<Piece>, at: Margin) -> Result<(), AllocError>
    ensures { OnOk result (Adds out.old.items out.new.items (λ p rest. given_end (margin_view at) rest)) }
{
    add_words(out, &[Word::Closing, Word::Closing])?;
    end_line(out)?;
    begin_line(out, at, Word::If)?;
    add_words(
        out,
        &[
            Word::Returns,
            Word::Dot,
            Word::Len,
            Word::Opening,
            Word::Closing,
        ],
    )?;
    add_between(out, Word::AtLeast)?;
    add_word(out, Word::Most)?;
    add_full_return(out)
}

// Adds the return where the list of results is full.
fn add_full_return(out: &mut Vec<Piece>) -> Result<(), AllocError>
    ensures { OnOk result (Adds out.old.items out.new.items (λ p rest.
        put_between opening_brace (put return_word (put_first semicolon (put closing_brace (line_end ∷ rest)))))) }
{
    add_between(out, Word::OpeningBrace)?;
    add_word(out, Word::Return)?;
    add_first(out, Word::Semicolon)?;
    add_word(out, Word::ClosingBrace)?;
    add(out, Piece::LineEnd)
}

// Adds the beginning of a line that binds a variable that is written to.
fn begin_mutable(out: &mut Vec<Piece>, at: Margin, site: BindingId) -> Result<(), AllocError>
    ensures { OnOk result (Adds out.old.items out.new.items (λ p rest.
        set_in at.depth ∷ put_first let_word (put_first mut_word (token (variable_name site) ∷ put_between equals rest)))) }
{
    begin_line(out, at, Word::Let)?;
    add_first(out, Word::Mut)?;
    add_token(out, RustToken::Variable(site))?;
    add_between(out, Word::Equals)
}

// Adds a variable as what is within an answer.
fn add_some_variable(out: &mut Vec<Piece>, site: BindingId) -> Result<(), AllocError>
    ensures { OnOk result (Adds out.old.items out.new.items (λ p rest.
        put_all (some_word ∷ opening ∷ []) (token (variable_name site) ∷ put closing (put_between equals rest)))) }
{
    add_words(out, &[Word::Some, Word::Opening])?;
    add_token(out, RustToken::Variable(site))?;
    add_word(out, Word::Closing)?;
    add_between(out, Word::Equals)
}

// Adds that a variable is an argument which answers are put into.
fn add_filled(out: &mut Vec<Piece>, site: BindingId) -> Result<(), AllocError>
    ensures { OnOk result (Adds out.old.items out.new.items (λ p rest.
        put_first comma (put ampersand (put_first mut_word (token (variable_name site) ∷ put closing (Pieces.end_line rest)))))) }
{
    add_first(out, Word::Comma)?;
    add_word(out, Word::Ampersand)?;
    add_first(out, Word::Mut)?;
    add_token(out, RustToken::Variable(site))?;
    add_word(out, Word::Closing)?;
    end_line(out)
}

// Adds the lines of a call with many answers, which are put into what is there before.
fn add_many(
    out: &mut Vec<Piece>,
    at: Margin,
    site: BindingId,
    callee: Callee,
    args: &[Use],
) -> Result<(), AllocError>
    ensures { OnOk result (Adds out.old.items out.new.items (λ p rest.
        many_lines p (margin_view at) site (callee_view callee) (use_views args.now) rest)) }
{
    begin_mutable(out, at, site)?;
    add_token(out, RustToken::List(callee))?;
    end_line(out)?;
    add_margin(out, at)?;
    add_call(out, callee, args)?;
    add_filled(out, site)
}

/// Adds the lines that a loop begins with: the answers of a call become an iterator, and each is bound in turn.
pub(crate) fn begin_loop(
    out: &mut Vec<Piece>,
    at: Margin,
    site: BindingId,
    from: BindingId,
) -> Result<(), AllocError>
    ensures { OnOk result (Adds out.old.items out.new.items (λ p rest. loop_head (margin_view at) site from rest)) }
{
    add_iterator(out, at, from)?;
    begin_line(out, at, Word::While)?;
    add_first(out, Word::Let)?;
    add_some_variable(out, site)?;
    add_next(out, from)
}

// Adds the line that makes the answers of a call an iterator.
fn add_iterator(out: &mut Vec<Piece>, at: Margin, from: BindingId) -> Result<(), AllocError>
    ensures { OnOk result (Adds out.old.items out.new.items (λ p rest.
        set_in at.depth ∷ put_first let_word (put_first mut_word (token (variable_name from) ∷ put_between equals
        (token (variable_name from) ∷ put_all (dot ∷ iter_word ∷ opening ∷ closing ∷ []) (Pieces.end_line rest)))))) }
{
    begin_mutable(out, at, from)?;
    add_token(out, RustToken::Variable(from))?;
    add_words(out, &[Word::Dot, Word::Iter, Word::Opening, Word::Closing])?;
    end_line(out)
}

// Adds the next answer of an iterator, and the brace that a loop's body begins with.
fn add_next(out: &mut Vec<Piece>, from: BindingId) -> Result<(), AllocError>
    ensures { OnOk result (Adds out.old.items out.new.items (λ p rest.
        token (variable_name from) ∷ put_all (dot ∷ next_word ∷ opening ∷ ctx_word ∷ closing ∷ []) (Pieces.open_body rest))) }
{
    add_token(out, RustToken::Variable(from))?;
    add_words(
        out,
        &[
            Word::Dot,
            Word::Next,
            Word::Opening,
            Word::Ctx,
            Word::Closing,
        ],
    )?;
    open_body(out)
}

/// Adds the line of a place that no run comes to.
pub(crate) fn add_no_way(out: &mut Vec<Piece>, at: Margin) -> Result<(), AllocError>
    ensures { OnOk result (Adds out.old.items out.new.items (λ p rest.
        set_in at.depth ∷ put_all (unreachable_word ∷ opening ∷ closing ∷ []) (Pieces.end_line rest))) }
{
    add_margin(out, at)?;
    add_words(out, &[Word::Unreachable, Word::Opening, Word::Closing])?;
    end_line(out)
}

/// Adds that two values compare so.
pub(crate) fn add_compared(
    out: &mut Vec<Piece>,
    at: Margin,
    a: Use,
    sign: Word,
    b: Use,
) -> Result<(), AllocError>
    ensures { OnOk result (Adds out.old.items out.new.items (λ p rest.
        set_in at.depth ∷ put_first if_word (use_before p (use_view a) (put_between (word_view sign) (use_before p (use_view b) rest))))) }
{
    begin_line(out, at, Word::If)?;
    add_use(out, a)?;
    add_between(out, sign)?;
    add_use(out, b)
}

/// Adds the line that a body begins with where two values are equal.
pub(crate) fn begin_equal(
    out: &mut Vec<Piece>,
    at: Margin,
    a: Use,
    b: Use,
) -> Result<(), AllocError>
    ensures { OnOk result (Adds out.old.items out.new.items (λ p rest. equal_head p (margin_view at) (use_view a) (use_view b) rest)) }
{
    add_compared(out, at, a, Word::EqualTo, b)?;
    open_body(out)
}

/// Adds a test that two values are equal, which leaves the label where they aren't.
pub(crate) fn add_unless_equal(
    out: &mut Vec<Piece>,
    at: Margin,
    a: Use,
    b: Use,
) -> Result<(), AllocError>
    ensures { OnOk result (Adds out.old.items out.new.items (λ p rest. unless_equal_line p (margin_view at) (use_view a) (use_view b) rest)) }
{
    add_compared(out, at, a, Word::Unlike, b)?;
    add_break(out, at)?;
    add(out, Piece::LineEnd)
}

/// Adds the line that a match of several arms begins with.
pub(crate) fn begin_match(
    out: &mut Vec<Piece>,
    at: Margin,
    is_alone: bool,
    value: Use,
) -> Result<(), AllocError>
    ensures { OnOk result (Adds out.old.items out.new.items (λ p rest. match_head is_alone p (margin_view at) (use_view value) rest)) }
{
    if is_alone {
        return Ok(());
    }
    begin_line(out, at, Word::Match)?;
    add_use(out, value)?;
    open_body(out)
}

/// Adds the lines that a match of several arms ends with.
pub(crate) fn end_match(out: &mut Vec<Piece>, at: Margin, is_alone: bool) -> Result<(), AllocError>
    ensures { OnOk result (Adds out.old.items out.new.items (λ p rest. match_end is_alone (margin_view at) rest)) }
{
    if is_alone {
        return Ok(());
    }
    begin_line(out, at.inside()?, Word::Underscore)?;
    add_first(out, Word::Arrow)?;
    add_words(out, &[Word::OpeningBrace, Word::ClosingBrace])?;
    add(out, Piece::LineEnd)?;
    close_body(out, at)
}

// Adds what tells the log which rule is taken.
fn add_log(out: &mut Vec<Piece>, at: Margin, is_logged: bool, pos: Pos) -> Result<(), AllocError>
    ensures { OnOk result (Adds out.old.items out.new.items (λ p rest. log_lines is_logged (margin_view at) (position pos) rest)) }
{
    if !is_logged {
        return Ok(());
    }
    add_margin(out, at)?;
    add(out, Piece::LogLine(pos))?;
    add(out, Piece::LineEnd)
}

impl Writer<'_> {
    // Adds the line that binds a variable to one value.
    fn add_one(
        &self,
        out: &mut Vec<Piece>,
        at: Margin,
        site: BindingId,
        expr: &BoundExpr,
    ) -> Result<(), AllocError>
        ensures { OnOk result (AddsBy self.now out.old.items out.new.items (λ p rest. one_line p (margin_view at) site (expr_view expr.now) rest)) }
    {
        begin_line(out, at, Word::Let)?;
        add_token(out, RustToken::Variable(site))?;
        add_between(out, Word::Equals)?;
        self.add_expr(out, expr)?;
        end_line(out)
    }

    // Adds the lines that bind a variable to what a call answers.
    fn add_called(
        &self,
        out: &mut Vec<Piece>,
        at: Margin,
        site: BindingId,
        callee: Callee,
        args: &[Use],
        expr: &BoundExpr,
    ) -> Result<(), AllocError>
        ensures { OnOk result (AddsBy self.now out.old.items out.new.items (λ p rest.
            call_lines (p.has_many (callee_view callee)) p (margin_view at) site (callee_view callee) (use_views args.now) (expr_view expr.now) rest)) }
    {
        self.add_call_lines(out, at, self.has_many(callee), site, callee, args, expr)
    }

    // The same where it is known whether there are many answers.
    fn add_call_lines(
        &self,
        out: &mut Vec<Piece>,
        at: Margin,
        has_many: bool,
        site: BindingId,
        callee: Callee,
        args: &[Use],
        expr: &BoundExpr,
    ) -> Result<(), AllocError>
        ensures { OnOk result (AddsBy self.now out.old.items out.new.items (λ p rest.
            call_lines has_many p (margin_view at) site (callee_view callee) (use_views args.now) (expr_view expr.now) rest)) }
    {
        if has_many {
            add_many(out, at, site, callee, args)
        } else {
            self.add_one(out, at, site, expr)
        }
    }

    /// Adds the lines that bind a variable.
    pub(crate) fn add_bind(
        &self,
        out: &mut Vec<Piece>,
        at: Margin,
        site: BindingId,
        expr: &BoundExpr,
    ) -> Result<(), AllocError>
        ensures { OnOk result (AddsBy self.now out.old.items out.new.items (λ p rest. bind_lines p (margin_view at) site (expr_view expr.now) rest)) }
    {
        match expr {
            BoundExpr::Extraction { term, value } => {
                let callee = Callee::Extractor(*term);
                self.add_called(out, at, site, callee, slice::from_ref(value), expr)
            }
            BoundExpr::Call { term, args, .. } => {
                self.add_called(out, at, site, Callee::Constructor(*term), args, expr)
            }
            BoundExpr::TruthWritten { .. } => self.add_one(out, at, site, expr),
            BoundExpr::VariantOf { .. } => self.add_one(out, at, site, expr),
            BoundExpr::StructOf { .. } => self.add_one(out, at, site, expr),
            BoundExpr::SomeOf { .. } => self.add_one(out, at, site, expr),
        }
    }

    // Adds what the function does where a call on a right side gives nothing.
    fn add_failure(&self, out: &mut Vec<Piece>) -> Result<(), AllocError>
        ensures { OnOk result (AddsBy self.now out.old.items out.new.items (λ p rest. failure_before p.kind rest)) }
    {
        Ok(add_failure_of(out, self.gives())?)
    }

    // Adds the part of a line behind a value that may be nothing.
    fn add_else(&self, out: &mut Vec<Piece>) -> Result<(), AllocError>
        ensures { OnOk result (AddsBy self.now out.old.items out.new.items (λ p rest.
            put_between else_word (put_first opening_brace (failure_before p.kind (space ∷ put closing_brace (Pieces.end_line rest)))))) }
    {
        add_between(out, Word::Else)?;
        add_first(out, Word::OpeningBrace)?;
        self.add_failure(out)?;
        add(out, Piece::Space)?;
        add_word(out, Word::ClosingBrace)?;
        end_line(out)
    }

    /// Adds the line that binds what is in an answer.
    pub(crate) fn add_bind_some(
        &self,
        out: &mut Vec<Piece>,
        at: Margin,
        site: BindingId,
        value: Use,
    ) -> Result<(), AllocError>
        ensures { OnOk result (AddsBy self.now out.old.items out.new.items (λ p rest. bind_some_line p (margin_view at) site (use_view value) rest)) }
    {
        begin_line(out, at, Word::Let)?;
        add_some_variable(out, site)?;
        add_use(out, value)?;
        self.add_else(out)
    }

    // Adds a result behind the white space of its line.
    fn add_given(&self, out: &mut Vec<Piece>, at: Margin, value: Use) -> Result<(), AllocError>
        ensures { OnOk result (AddsBy self.now out.old.items out.new.items (λ p rest. give_lines p.kind p (margin_view at) (use_view value) rest)) }
    {
        Ok(add_given_of(out, at, self.gives(), value)?)
    }

    /// Adds the lines of a result.
    pub(crate) fn add_give(
        &self,
        out: &mut Vec<Piece>,
        at: Margin,
        pos: Pos,
        value: Use,
    ) -> Result<(), AllocError>
        ensures { OnOk result (AddsBy self.now out.old.items out.new.items (λ p rest. result_lines p (margin_view at) (position pos) (use_view value) rest)) }
    {
        add_margin(out, at)?;
        add(out, Piece::RuleComment(pos))?;
        add(out, Piece::LineEnd)?;
        add_log(out, at, self.is_logged(), pos)?;
        add_margin(out, at)?;
        self.add_given(out, at, value)
    }

    // Adds a test of a constant that leaves the label where it isn't met.
    fn add_unless_constant(
        &self,
        out: &mut Vec<Piece>,
        at: Margin,
        value: Use,
        constant: &Constraint,
    ) -> Result<(), AllocError>
        ensures { OnOk result (AddsBy self.now out.old.items out.new.items (λ p rest.
            unless_line true p (margin_view at) (use_view value) (constraint_view constant.now) [] rest)) }
    {
        begin_line(out, at, Word::If)?;
        self.add_comparison(out, value, Word::Unlike, constant)?;
        add_break(out, at)?;
        add(out, Piece::LineEnd)
    }

    // Adds a test of another pattern that leaves the label where it isn't met.
    fn add_let_else(
        &self,
        out: &mut Vec<Piece>,
        at: Margin,
        value: Use,
        pattern: &Constraint,
        fields: &[Option<BindingId>],
    ) -> Result<(), AllocError>
        ensures { OnOk result (AddsBy self.now out.old.items out.new.items (λ p rest.
            unless_line false p (margin_view at) (use_view value) (constraint_view pattern.now) fields.now rest)) }
    {
        add_margin(out, at)?;
        self.add_let(out, value, pattern, fields)?;
        add(out, Piece::Space)?;
        add_word(out, Word::Else)?;
        add_break(out, at)?;
        end_line(out)
    }

    /// Adds a test of a pattern that leaves the label where it isn't met.
    pub(crate) fn add_unless(
        &self,
        out: &mut Vec<Piece>,
        at: Margin,
        value: Use,
        pattern: &Constraint,
        fields: &[Option<BindingId>],
    ) -> Result<(), AllocError>
        ensures { OnOk result (AddsBy self.now out.old.items out.new.items (λ p rest.
            unless_line (Pieces.is_constant (constraint_view pattern.now)) p (margin_view at) (use_view value) (constraint_view pattern.now) fields.now rest)) }
    {
        if is_constant(pattern) {
            self.add_unless_constant(out, at, value, pattern)
        } else {
            self.add_let_else(out, at, value, pattern, fields)
        }
    }

    // Adds the line that the body of an arm begins with that stands alone: a test.
    fn begin_only_arm(
        &self,
        out: &mut Vec<Piece>,
        at: Margin,
        value: Use,
        pattern: &Constraint,
        fields: &[Option<BindingId>],
    ) -> Result<(), AllocError>
        ensures { OnOk result (AddsBy self.now out.old.items out.new.items (λ p rest.
            arm_head true p (margin_view at) (use_view value) (constraint_view pattern.now) fields.now rest)) }
    {
        begin_line(out, at, Word::If)?;
        self.add_condition(out, value, pattern, fields)?;
        open_body(out)
    }

    // Adds the line that the body of an arm beside others begins with.
    fn begin_arm_of_many(
        &self,
        out: &mut Vec<Piece>,
        at: Margin,
        value: Use,
        pattern: &Constraint,
        fields: &[Option<BindingId>],
    ) -> Result<(), AllocError>
        ensures { OnOk result (AddsBy self.now out.old.items out.new.items (λ p rest.
            arm_head false p (margin_view at) (use_view value) (constraint_view pattern.now) fields.now rest)) }
    {
        add_margin(out, at)?;
        self.add_arm_pattern(out, value, pattern, fields)?;
        add(out, Piece::Space)?;
        add_word(out, Word::Arrow)?;
        open_body(out)
    }

    /// Adds the line that the body of an arm begins with.
    pub(crate) fn begin_arm(
        &self,
        out: &mut Vec<Piece>,
        at: Margin,
        is_alone: bool,
        value: Use,
        pattern: &Constraint,
        fields: &[Option<BindingId>],
    ) -> Result<(), AllocError>
        ensures { OnOk result (AddsBy self.now out.old.items out.new.items (λ p rest.
            arm_head is_alone p (margin_view at) (use_view value) (constraint_view pattern.now) fields.now rest)) }
    {
        if is_alone {
            self.begin_only_arm(out, at, value, pattern, fields)
        } else {
            self.begin_arm_of_many(out, at, value, pattern, fields)
        }
    }
}

fn add_return(out: &mut Vec<Piece>, value: Use) -> Result<(), AllocError>
    ensures { OnOk result (Adds out.old.items out.new.items (λ p rest. put_first return_word (use_before p (use_view value) (Pieces.end_line rest)))) }
{
    add_first(out, Word::Return)?;
    add_use(out, value)?;
    end_line(out)
}

// Adds that a result is put into the list.
fn add_extend(out: &mut Vec<Piece>, at: Margin, value: Use) -> Result<(), AllocError>
    ensures { OnOk result (Adds out.old.items out.new.items (λ p rest. give_lines gives_many p (margin_view at) (use_view value) rest)) }
{
    add_words(
        out,
        &[
            Word::Returns,
            Word::Dot,
            Word::Extend,
            Word::Opening,
            Word::Some,
            Word::Opening,
        ],
    )?;
    add_use(out, value)?;
    add_given_end(out, at)
}

// Adds what a function does where a call on a right side gives nothing: a partial term gives nothing, and no other asks such an
// answer.
fn add_failure_of(out: &mut Vec<Piece>, gives: ReturnKind) -> Result<(), AllocError>
    ensures { OnOk result (Adds out.old.items out.new.items (λ p rest. failure_before (gives_view gives) rest)) }
{
    match gives {
        ReturnKind::Plain => add_words(out, &[Word::Unreachable, Word::Opening, Word::Closing]),
        ReturnKind::Option => {
            add_first(out, Word::Return)?;
            add_word(out, Word::None)
        }
        ReturnKind::Iterator => add_word(out, Word::Return),
    }
}

// The same where it is known how many values the function gives.
fn add_given_of(
    out: &mut Vec<Piece>,
    at: Margin,
    gives: ReturnKind,
    value: Use,
) -> Result<(), AllocError>
    ensures { OnOk result (Adds out.old.items out.new.items (λ p rest. give_lines (gives_view gives) p (margin_view at) (use_view value) rest)) }
{
    match gives {
        ReturnKind::Plain => add_return(out, value),
        ReturnKind::Option => add_return(out, value),
        ReturnKind::Iterator => add_extend(out, at, value),
    }
}
