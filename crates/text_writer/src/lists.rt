//! The lists that are open where a part is written, and where lines in them begin.
#![tactic(auto, using(crate::proofs::Texts::texts))]

ghost use Rattle.std.specs.Prelude.{◌≡◌, ◌+◌, [], ◌∷◌, drop, IfOk, None};
ghost use Rattle.text_writer.specs.ListViews.{lists_view};
ghost use Rattle.text_writer.specs.Pages.{begins_with_word, column_under, counted, end_column, indent, inner_column, kind_of, kind_of_word, list_indent, listed, noted, with_part};
ghost use Rattle.text_writer.specs.PartViews.{part_view};

use crate::gaps::Last;
use crate::parts::Part;
use std::alloc::{AllocError, Global};
use text_reader::heads::is_passed_over;

/// Where lines in a list begin that begins with a word.
#[derive(Clone, Copy)]
pub enum Indentation {
    /// Under the list's second part, if that stands in the line of the first word, else one column in from the parenthesis. In a
    /// `let` two columns in; in a definition that is passed over four.
    UnderPart,
    /// Two columns in from where the line begins that the list begins in.
    TwoColumns,
}

/// A place in a text.
#[derive(Clone, Copy)]
pub struct LineColumn {
    /// How many lines are ended before it.
    pub line: usize,
    /// How many characters stand before it in its line.
    pub column: usize,
    /// How many stand before the line's first part.
    pub start: usize,
}

// What a list's first part says of its lines.
#[derive(Clone, Copy)]
enum Kind {
    // a word that isn't one of those below
    Word,
    // `let`
    Let,
    // a word by which a definition is passed over
    PassedOver,
    // no word: lines are one column in from the parenthesis
    Other,
}

// A list's first part.
#[derive(Clone, Copy)]
struct Head {
    kind: Kind,
    line: usize,
}

#[derive(Clone, Copy)]
struct OpenList {
    // the column of its parenthesis
    column: usize,
    // where the line of that begins
    start: usize,
    head: Option<Head>,
    // where its second part begins
    second: Option<LineColumn>,
}

/// The lists that are open, the innermost last.
#[derive(Drop)]
pub struct Lists {
    open: Vec<OpenList>,
}

impl Lists {
    /// No list.
    pub fn new(alloc: Global) -> Lists
        ensures { lists_view result ≡ [] }
    {
        Lists {
            open: Vec::new(alloc),
        }
    }

    /// The column where a line begins whose first part is this.
    ///
    /// # Errors
    ///
    /// Where no number is so great.
    pub fn indent(&self, indentation: Indentation, part: &Part) -> Result<usize, AllocError>
        ensures { IfOk result (λ column. column ≡ indent indentation (lists_view self.now) (part_view part.now)) }
    {
        match self.open.last() {
            None => Ok(0),
            Some(list) => list.indent(indentation, part),
        }
    }

    /// Notes a part that begins at this place, by what stands before it.
    ///
    /// # Errors
    ///
    /// Where memory is refused.
    pub fn read(&mut self, last: Last, part: &Part, at: LineColumn) -> Result<(), AllocError>
        ensures { IfOk result (λ _. lists_view self.new ≡ listed last (part_view part.now) at (lists_view self.old)) }
    {
        match part {
            Part::Open => {
                self.count(last, part, at)?;
                self.begin(at)
            }
            Part::Close => {
                self.end();
                Ok(())
            }
            Part::Name(_) | Part::Sign(_) | Part::Alone => self.count(last, part, at),
            Part::Bind | Part::Line(_) | Part::Block(_) | Part::Endless(_) => Ok(()),
        }
    }

    // Begins a list whose parenthesis stands at this place.
    fn begin(&mut self, at: LineColumn) -> Result<(), AllocError>
        ensures { IfOk result (λ _. lists_view self.new ≡ record { column = at.column; start = at.start; head = None; second = None } ∷ lists_view self.old) }
    {
        self.open.push(OpenList {
            column: at.column,
            start: at.start,
            head: None,
            second: None,
        })?;
        Ok(())
    }

    // Ends the innermost list.
    fn end(&mut self)
        ensures { lists_view self.new ≡ drop 1 (lists_view self.old) }
    {
        self.open.pop();
    }

    // Notes a part of the innermost list. What `@` binds is none of its own.
    fn count(&mut self, last: Last, part: &Part, at: LineColumn) -> Result<(), AllocError>
        ensures { IfOk result (λ _. lists_view self.new ≡ counted last (part_view part.now) at (lists_view self.old)) }
    {
        match last {
            Last::Bind => Ok(()),
            _ => self.note(part, at),
        }
    }

    // Notes a part of the innermost list.
    fn note(&mut self, part: &Part, at: LineColumn) -> Result<(), AllocError>
        ensures { IfOk result (λ _. lists_view self.new ≡ noted (part_view part.now) at (lists_view self.old)) }
    {
        let Some(list) = self.open.pop() else {
            return Ok(());
        };
        let is_outermost = self.open.is_empty();
        self.open.push(list.with_part(is_outermost, part, at))?;
        Ok(())
    }
}

impl OpenList {
    // The column where a line begins whose first part is this.
    fn indent(&self, indentation: Indentation, part: &Part) -> Result<usize, AllocError>
        ensures { IfOk result (λ column. column ≡ list_indent indentation self.now (part_view part.now)) }
    {
        match part {
            Part::Close => Ok(self.end_column(indentation)),
            _ => self.inner_column(indentation),
        }
    }

    // The column where a line begins with the list's end.
    fn end_column(&self, indentation: Indentation) -> usize
        ensures { result ≡ end_column indentation self.now }
    {
        match (indentation, self.head) {
            (Indentation::TwoColumns, Some(head)) if head.kind.is_word() => self.start,
            _ => self.column,
        }
    }

    // The column where a line in the list begins.
    fn inner_column(&self, indentation: Indentation) -> Result<usize, AllocError>
        ensures { IfOk result (λ column. column ≡ inner_column indentation self.now) }
    {
        match (indentation, self.head) {
            (Indentation::TwoColumns, Some(head)) if head.kind.is_word() => sum(self.start, 2),
            (Indentation::UnderPart, Some(head)) => self.column_under(head),
            _ => sum(self.column, 1),
        }
    }

    // The column where a line begins in a list with this first part, by the list's kind and its second part.
    fn column_under(&self, head: Head) -> Result<usize, AllocError>
        ensures { IfOk result (λ column. column ≡ column_under self.now.column head.kind head.line self.now.second) }
    {
        match (head.kind, self.second) {
            (Kind::PassedOver, _) => sum(self.column, 4),
            (Kind::Let, _) => sum(self.column, 2),
            (Kind::Word, Some(second)) if second.line == head.line => Ok(second.column),
            _ => sum(self.column, 1),
        }
    }

    // The list with one more part, of which the first two are noted.
    fn with_part(self, is_outermost: bool, part: &Part, at: LineColumn) -> OpenList
        ensures { result ≡ with_part self (kind_of is_outermost (part_view part.now)) at }
    {
        match (self.head, self.second) {
            (None, _) => OpenList {
                head: Some(Head {
                    kind: kind_of(is_outermost, part),
                    line: at.line,
                }),
                ..self
            },
            (Some(_), None) => OpenList {
                second: Some(at),
                ..self
            },
            (Some(_), Some(_)) => self,
        }
    }
}

impl Kind {
    // Whether the first part is a word.
    fn is_word(self) -> bool
        ensures { result ≡ begins_with_word self }
    {
        match self {
            Kind::Word | Kind::Let | Kind::PassedOver => true,
            Kind::Other => false,
        }
    }
}

// What a list's first part says of its lines.
fn kind_of(is_outermost: bool, part: &Part) -> Kind
    ensures { result ≡ kind_of is_outermost (part_view part.now) }
{
    match part {
        Part::Name(name) => kind_of_word(is_outermost, name),
        Part::Sign(_) | Part::Alone => Kind::Word,
        _ => Kind::Other,
    }
}

// What a list's first word says of its lines.
fn kind_of_word(is_outermost: bool, word: &str) -> Kind
    ensures { result ≡ kind_of_word is_outermost word.now }
{
    if word == "let" {
        Kind::Let
    } else if is_outermost && is_passed_over(word) {
        Kind::PassedOver
    } else {
        Kind::Word
    }
}

// The sum of two numbers. No text is so long that there is none.
pub fn sum(a: usize, b: usize) -> Result<usize, AllocError>
    ensures { IfOk result (λ n. n ≡ a + b) }
{
    a.checked_add(b).ok_or(AllocError)
}
