//! Tokens to forms: words, numbers, constants, bindings, and lists in parentheses.
#![tactic(auto, using(crate::proofs::Rows::form_parts))]

ghost use Rattle.std.specs.Prelude.{◌≡◌, ℕ, Err, Ok, MatchResult, OnOk, ⊤};
ghost use Rattle.core_syntax.specs.SyntaxViews.{name_view, position};
ghost use Rattle.text_reader.specs.Faults.{FaultIsWithin};
ghost use Rattle.text_reader.specs.Forms.{FormIsWithin, FormsAreWithin, IdentIsWithin, OpensAreWithin, OpenIsWithin, PosIsWithin};
ghost use Rattle.text_reader.specs.FormTrees.{FormTrees};
ghost use Rattle.text_reader.specs.Grammar.{place_of};
ghost use Rattle.text_reader.specs.Lexemes.{unclosed};
ghost use Rattle.text_reader.specs.PassedOver.{begins_passed_over};
ghost use Rattle.text_reader.specs.Forming.{dashed, ended, formed, forms_of, passes, put, started, whole};
ghost use Rattle.text_reader.specs.FormViews.{all_view, begun_views, form_view, open_view, outermost_passes};
ghost use Rattle.text_reader.specs.Views.{Fails, Gives, token_view, token_views};
ghost use Rattle.text_reader.specs.Tokens.{TokenIsWithin, TokensAreWithin};

use crate::errors::{Mistake, Problem, ReadFault, TextError, fault};
use crate::heads::is_passed_over;
use crate::source::Source;
use crate::tokens::{DEEPEST, Token};
use core_syntax::syntax::{Ident, Pos};

/// A form, as the parentheses of a text make it.
#[derive(Drop)]
pub enum TextForm {
    Word(Ident),
    Number(i128, Pos),
    /// A name with `$` before it, and where the sign stands.
    Constant(Ident, Pos),
    /// A name that is bound to what a form matches.
    Bound(Ident, Box<TextForm>),
    /// A list, where it begins and where it ends.
    Group(Vec<TextForm>, Pos, Pos),
}

/// A form that is begun: a list with its forms so far, or a name that is bound to what comes next.
#[derive(Drop)]
pub enum Open {
    Group(Vec<TextForm>, Pos),
    Binder(Ident),
}

impl TextForm {
    /// The position of the form.
    pub fn pos(&self) -> Pos
        ensures within { (file size : ℕ) → FormIsWithin file size self.now → PosIsWithin file size result }
        ensures place { position result ≡ place_of (form_view self.now) }
    {
        match self {
            TextForm::Word(name) | TextForm::Bound(name, _) => name.1,
            TextForm::Number(_, pos) | TextForm::Constant(_, pos) | TextForm::Group(_, pos, _) =>
                *pos,
        }
    }
}

/// The forms of a text.
pub fn forms(at: Source, tokens: Vec<Token>) -> Result<Vec<TextForm>, ReadFault>
    requires { TokensAreWithin at.file at.len tokens.items }
    ensures within { MatchResult result (λ fs. FormsAreWithin at.file at.len fs.items) (FaultIsWithin at.file at.len) }
    // What the tokens give, one after another, or the first mistake among them.
    ensures read { Gives (λ fs. all_view fs.items) result (forms_of at.file at.len (token_views tokens.items)) }
{
    let mut stack = Vec::new(at.alloc);
    let mut forms = Vec::new(at.alloc);
    for token in tokens {
        match add(at, token, &mut stack, &mut forms) {
            Ok(()) => {}
            Err(fault) => return Err(fault),
        }
    }
    match finish(at, &mut stack) {
        Ok(()) => Ok(forms),
        Err(fault) => Err(fault),
    }
}

// Whether all that was begun is ended, at the text's end.
#[tactic(auto, using(crate::proofs::Rows::form_parts, crate::proofs::Stacks::end_parts))]
fn finish(at: Source, stack: &mut Vec<Open>) -> Result<(), ReadFault>
    requires { OpensAreWithin at.file at.len stack.old.items }
    ensures read { (fs : FormTrees) → Gives (λ _. fs) result (whole at.file at.len fs (begun_views stack.old.items)) }
    ensures within { MatchResult result (λ _. ⊤) (FaultIsWithin at.file at.len) }
{
    match stack.pop() {
        None => Ok(()),
        Some(Open::Group(_, pos)) => Err(unclosed(at, pos)),
        Some(Open::Binder(name)) => Err(fault(Mistake::BoundPattern, name.1)),
    }
}

// A list that isn't ended: told at the text's end.
fn unclosed(at: Source, begin: Pos) -> ReadFault
    requires { PosIsWithin at.file at.len begin }
    ensures read { Fails {Y = FormTrees} result (Err (unclosed (position begin), record { file = at.file; offset = at.len })) }
    ensures within { FaultIsWithin at.file at.len result }
{
    let pos = Pos {
        file: at.file,
        offset: at.len,
    };
    ReadFault::Text(TextError {
        problem: Problem::Unclosed(begin),
        pos,
    })
}

fn add(
    at: Source,
    token: Token,
    stack: &mut Vec<Open>,
    forms: &mut Vec<TextForm>,
) -> Result<(), ReadFault>
    requires token { TokenIsWithin at.file at.len token }
    requires stack { OpensAreWithin at.file at.len stack.old.items }
    requires forms { FormsAreWithin at.file at.len forms.old.items }
    ensures error { MatchResult result (λ _. ⊤) (FaultIsWithin at.file at.len) }
    ensures stack { OnOk result (OpensAreWithin at.file at.len stack.new.items) }
    ensures forms { OnOk result (FormsAreWithin at.file at.len forms.new.items) }
    ensures read { Gives (λ _. (all_view forms.new.items, begun_views stack.new.items)) result (formed (token_view token) (all_view forms.old.items) (begun_views stack.old.items)) }
{
    match token {
        Token::Open(pos) => start(at, Open::Group(Vec::new(at.alloc), pos), pos, stack),
        Token::Binder(name) => {
            let pos = name.1;
            start(at, Open::Binder(name), pos, stack)
        }
        Token::Close(pos) => close(at, pos, stack, forms),
        Token::Word(name) => put(at, TextForm::Word(name), stack, forms),
        Token::Dash(name) => dash(at, name, stack, forms),
        Token::Number(n, pos) => put(at, TextForm::Number(n, pos), stack, forms),
        Token::Constant(name, pos) => put(at, TextForm::Constant(name, pos), stack, forms),
    }
}

// Reads a word that begins with `-` and isn't a number: a word where it is passed over, and nothing elsewhere.
fn dash(
    at: Source,
    name: Ident,
    stack: &mut Vec<Open>,
    forms: &mut Vec<TextForm>,
) -> Result<(), ReadFault>
    requires name { IdentIsWithin at.file at.len name }
    requires stack { OpensAreWithin at.file at.len stack.old.items }
    requires forms { FormsAreWithin at.file at.len forms.old.items }
    ensures error { MatchResult result (λ _. ⊤) (FaultIsWithin at.file at.len) }
    ensures stack { OnOk result (OpensAreWithin at.file at.len stack.new.items) }
    ensures forms { OnOk result (FormsAreWithin at.file at.len forms.new.items) }
    ensures read { Gives (λ _. (all_view forms.new.items, begun_views stack.new.items)) result (dashed (name_view name) (all_view forms.old.items) (begun_views stack.old.items)) }
{
    if !passes_over(stack.as_slice()) {
        return Err(fault(Mistake::Digits, name.1));
    }
    put(at, TextForm::Word(name), stack, forms)
}

// Whether the outermost form that is begun is a list that is passed over.
fn passes_over(stack: &[Open]) -> bool
    ensures { result ≡ passes (begun_views stack.now) }
{
    outermost_passes(stack)
}

// The same, by what stands first.
fn outermost_passes(stack: &[Open]) -> bool
    ensures { result ≡ outermost_passes stack.now }
{
    match stack {
        [Open::Group(parts, _), ..] => begins_passed_over(parts.as_slice()),
        _ => false,
    }
}

/// Whether the parts of a list are those of a definition that is passed over.
pub fn begins_passed_over(parts: &[TextForm]) -> bool
    ensures { result ≡ begins_passed_over (all_view parts.now) }
{
    match parts {
        [TextForm::Word(head), ..] => is_passed_over(&head.0),
        _ => false,
    }
}

// Begins a form, unless it stands too deep.
#[tactic(auto, using(crate::proofs::Rows::form_parts, crate::proofs::Stacks::stack_parts))]
fn start(at: Source, begun: Open, pos: Pos, stack: &mut Vec<Open>) -> Result<(), ReadFault>
    requires begun { OpenIsWithin at.file at.len begun }
    requires pos { PosIsWithin at.file at.len pos }
    requires stack { OpensAreWithin at.file at.len stack.old.items }
    ensures within { MatchResult result (λ _. OpensAreWithin at.file at.len stack.new.items) (FaultIsWithin at.file at.len) }
    ensures read { (fs : FormTrees) → Gives (λ _. (fs, begun_views stack.new.items)) result (started (open_view begun) (position pos) fs (begun_views stack.old.items)) }
{
    if stack.len() >= DEEPEST {
        return Err(fault(Mistake::Depth, pos));
    }
    stack.push(begun)?;
    Ok(())
}

// Ends the list that was begun last.
#[tactic(auto, using(crate::proofs::Rows::form_parts, crate::proofs::Stacks::end_parts))]
fn close(
    at: Source,
    end: Pos,
    stack: &mut Vec<Open>,
    forms: &mut Vec<TextForm>,
) -> Result<(), ReadFault>
    requires end { PosIsWithin at.file at.len end }
    requires stack { OpensAreWithin at.file at.len stack.old.items }
    requires forms { FormsAreWithin at.file at.len forms.old.items }
    ensures error { MatchResult result (λ _. ⊤) (FaultIsWithin at.file at.len) }
    ensures stack { OnOk result (OpensAreWithin at.file at.len stack.new.items) }
    ensures forms { OnOk result (FormsAreWithin at.file at.len forms.new.items) }
    ensures read { Gives (λ _. (all_view forms.new.items, begun_views stack.new.items)) result (ended (position end) (all_view forms.old.items) (begun_views stack.old.items)) }
{
    match stack.pop() {
        None => Err(fault(Mistake::ListBegin, end)),
        Some(Open::Binder(_)) => Err(fault(Mistake::BoundPattern, end)),
        Some(Open::Group(parts, pos)) => put(at, TextForm::Group(parts, pos, end), stack, forms),
    }
}

// Adds a whole form to the list that was begun last, bound to the names that wait for it.
fn put(
    at: Source,
    form: TextForm,
    stack: &mut Vec<Open>,
    forms: &mut Vec<TextForm>,
) -> Result<(), ReadFault>
    requires form { FormIsWithin at.file at.len form }
    requires stack { OpensAreWithin at.file at.len stack.old.items }
    requires forms { FormsAreWithin at.file at.len forms.old.items }
    ensures error { MatchResult result (λ _. ⊤) (FaultIsWithin at.file at.len) }
    ensures stack { OnOk result (OpensAreWithin at.file at.len stack.new.items) }
    ensures forms { OnOk result (FormsAreWithin at.file at.len forms.new.items) }
    ensures read { Gives (λ _. (all_view forms.new.items, begun_views stack.new.items)) result (Ok (put (form_view form) (all_view forms.old.items) (begun_views stack.old.items))) }
{
    let mut form = form;
    while let Some(begun) = stack.pop() {
        match begun {
            Open::Binder(name) => form = TextForm::Bound(name, Box::new(at.alloc, form)?),
            Open::Group(mut parts, pos) => {
                parts.push(form)?;
                stack.push(Open::Group(parts, pos))?;
                return Ok(());
            }
        }
    }
    forms.push(form)?;
    Ok(())
}
