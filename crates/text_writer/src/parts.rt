//! What a text is made of, besides white space.
#![tactic(auto, using(crate::proofs::Texts::texts))]

ghost use Rattle.std.specs.Prelude.{◌≡◌, ◌+◌, ◌++◌, ◌∷◌, [], List, IfOk, string_bytes};
ghost use Rattle.std.specs.Str.{chars};
ghost use Rattle.text_reader.specs.Pieces.{AreIn, Piece, is_in_word, space};
ghost use Rattle.text_writer.specs.Placing.{all_placed, nothing_placed, with_kept, with_piece, without_returns};
ghost use Rattle.text_writer.specs.PartViews.{mode_view, part_view, placed_views, placing_view};
ghost use Rattle.text_writer.specs.Scanning.{begun, finished, in_comment, resting, run, sign_piece, start, step};

use crate::lists::sum;
use std::alloc::{AllocError, Global};

// How deep comments may nest where a text is read.
const DEEPEST: usize = 1000;

/// What a text is made of, besides white space.
#[derive(Drop)]
pub enum Part {
    /// The parenthesis that begins a list.
    Open,
    /// The parenthesis that ends a list.
    Close,
    /// The sign `@`.
    Bind,
    /// A name or a number.
    Name(String),
    /// A constant, behind its `$`.
    Sign(String),
    /// The sign `$` without a name.
    Alone,
    /// A comment to the end of its line, behind its `;`.
    Line(String),
    /// A comment from `(;` to `;)`, behind its `(;`.
    Block(String),
    /// Such a comment that isn't ended or nests too deep, and all that follows.
    Endless(String),
}

/// A part, with the white space before it.
#[derive(Drop)]
pub struct PlacedPart {
    /// What it is.
    pub part: Part,
    /// How many line breaks stand before it.
    pub breaks: usize,
    /// How many other characters of white space stand before it, in its own line.
    pub spaces: usize,
}

// What the last characters were the beginning of.
#[derive(Drop)]
enum State {
    // The text, where a byte order mark may stand.
    Start,
    Between,
    // A parenthesis, which begins a comment if `;` follows.
    Opened,
    Name(String),
    // The sign of a constant.
    Sign(String),
    Line(String),
    // A block comment: how many are open, and the last character.
    Block(String, usize, char),
    // A comment that nests too deep.
    Endless(String),
}

// The parts so far, and the white space behind them.
#[derive(Drop)]
struct Scan {
    alloc: Global,
    parts: Vec<PlacedPart>,
    breaks: usize,
    spaces: usize,
}

/// The parts of a text.
///
/// # Errors
///
/// Where memory is refused.
pub fn parts_of(alloc: Global, text: &str) -> Result<Vec<PlacedPart>, AllocError>
    ensures { IfOk result (λ parts. (ps : List Piece) → AreIn 0 (chars text.now) ps → placed_views parts.items ≡ all_placed 0 0 ps) }
{
    let parts = scanned(alloc, text)?;
    Ok(parts)
}

// The parts of a text, character by character.
fn scanned(alloc: Global, text: &str) -> Result<Vec<PlacedPart>, AllocError>
    ensures { IfOk result (λ parts. placed_views parts.items ≡ (run with_piece (start, nothing_placed) (chars text.now)).done) }
{
    let mut scan = Scan {
        alloc,
        parts: Vec::new(alloc),
        breaks: 0,
        spaces: 0,
    };
    let mut state = State::Start;
    for c in text.chars() {
        match scan.next(state, c) {
            Ok(after) => state = after,
            Err(AllocError) => return Err(AllocError),
        }
    }
    match scan.end(state) {
        Ok(()) => Ok(scan.parts),
        Err(AllocError) => Err(AllocError),
    }
}

impl Scan {
    fn next(&mut self, state: State, c: char) -> Result<State, AllocError>
        ensures { IfOk result (λ after. (mode_view after, placing_view self.new) ≡ step with_piece (mode_view state) (placing_view self.old) c) }
    {
        match state {
            State::Start if c == '\u{feff}' => self.space(c),
            State::Opened if c == ';' => Ok(State::Block(empty(self.alloc), 1, ' ')),
            State::Name(name) if is_in_word(c) => Ok(State::Name(with_char(name, c)?)),
            State::Sign(name) if is_in_word(c) => Ok(State::Sign(with_char(name, c)?)),
            State::Line(comment) if c != '\n' => Ok(State::Line(with_char(comment, c)?)),
            State::Block(comment, depth, last) => {
                self.in_block(with_char(comment, c)?, depth, last, c)
            }
            State::Endless(comment) => Ok(State::Endless(with_char(comment, c)?)),
            ended => {
                self.end(ended)?;
                self.begin(c)
            }
        }
    }

    // Reads a character between parts.
    #[tactic(auto, unfolding(crate::specs::Scanning::begun))]
    fn begin(&mut self, c: char) -> Result<State, AllocError>
        ensures { IfOk result (λ after. (mode_view after, placing_view self.new) ≡ begun with_piece (placing_view self.old) c) }
    {
        match c {
            '(' => Ok(State::Opened),
            ';' => Ok(State::Line(empty(self.alloc))),
            ')' => self.add(Part::Close),
            '@' => self.add(Part::Bind),
            '$' => Ok(State::Sign(empty(self.alloc))),
            _ if c.is_whitespace() => self.space(c),
            _ => Ok(State::Name(char_text(self.alloc, c)?)),
        }
    }

    // Notes a character of white space.
    fn space(&mut self, c: char) -> Result<State, AllocError>
        ensures { IfOk result (λ after. (mode_view after, placing_view self.new) ≡ resting (with_piece (space c) (placing_view self.old))) }
    {
        if c == '\n' {
            self.breaks = sum(self.breaks, 1)?;
            self.spaces = 0;
        } else if c != '\u{feff}' {
            self.spaces = sum(self.spaces, 1)?;
        }
        Ok(State::Between)
    }

    // Goes on in a block comment. A character that began or ended a comment does neither again.
    #[tactic(auto, unfolding(crate::specs::Scanning::in_comment))]
    fn in_block(
        &mut self,
        comment: String,
        depth: usize,
        last: char,
        c: char,
    ) -> Result<State, AllocError>
        ensures { IfOk result (λ after. (mode_view after, placing_view self.new) ≡ in_comment with_piece (chars (string_bytes comment)) depth last (placing_view self.old) c) }
    {
        if last == '(' && c == ';' {
            if depth >= DEEPEST {
                return Ok(State::Endless(comment));
            }
            return Ok(State::Block(comment, depth + 1, ' '));
        }
        if last == ';' && c == ')' {
            if depth <= 1 {
                return self.add(Part::Block(comment));
            }
            return Ok(State::Block(comment, depth - 1, ' '));
        }
        Ok(State::Block(comment, depth, c))
    }

    // Adds what is ended.
    fn end(&mut self, state: State) -> Result<(), AllocError>
        ensures { IfOk result (λ _. placing_view self.new ≡ finished with_piece (mode_view state) (placing_view self.old)) }
    {
        match state {
            State::Start | State::Between => return Ok(()),
            State::Opened => self.add(Part::Open)?,
            State::Name(name) => self.add(Part::Name(name))?,
            State::Sign(name) => self.add(sign_part(name))?,
            State::Line(comment) => self.add(Part::Line(without_returns(comment)?))?,
            State::Block(comment, _, _) | State::Endless(comment) => {
                self.add(Part::Endless(comment))?
            }
        };
        Ok(())
    }

    fn add(&mut self, part: Part) -> Result<State, AllocError>
        ensures { IfOk result (λ after. (mode_view after, placing_view self.new) ≡ resting (with_kept (part_view part) (placing_view self.old))) }
    {
        self.parts.push(PlacedPart {
            part,
            breaks: self.breaks,
            spaces: self.spaces,
        })?;
        self.breaks = 0;
        self.spaces = 0;
        Ok(State::Between)
    }
}

// What the sign of a constant and this name are.
fn sign_part(name: String) -> Part
    ensures { part_view result ≡ sign_piece (chars (string_bytes name)) }
{
    if name.is_empty() {
        Part::Alone
    } else {
        Part::Sign(name)
    }
}

fn empty(alloc: Global) -> String
    ensures { chars (string_bytes result) ≡ [] }
{
    String::new(alloc)
}

fn char_text(alloc: Global, c: char) -> Result<String, AllocError>
    ensures { IfOk result (λ made. chars (string_bytes made) ≡ c ∷ []) }
{
    with_char(empty(alloc), c)
}

fn with_char(mut text: String, c: char) -> Result<String, AllocError>
    ensures { IfOk result (λ made. chars (string_bytes made) ≡ chars (string_bytes text) ++ c ∷ []) }
{
    text.push(c)?;
    Ok(text)
}

// A comment without the carriage returns at its end.
fn without_returns(mut comment: String) -> Result<String, AllocError>
    ensures { IfOk result (λ made. chars (string_bytes made) ≡ without_returns (chars (string_bytes comment))) }
{
    'ends: loop {
        match comment.pop() {
            None => return Ok(comment),
            Some(last) => {
                if last != '\r' {
                    comment = with_char(comment, last)?;
                    return Ok(comment);
                }
            }
        }
    }
}

fn is_in_word(c: char) -> bool
    ensures { result ≡ is_in_word c }
{
    !c.is_whitespace() && !matches!(c, '(' | ')' | ';' | '@')
}
