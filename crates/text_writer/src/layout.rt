//! Parts are written with the white space that they get.
#![tactic(auto, using(crate::proofs::Texts::texts))]

ghost use Rattle.std.specs.Prelude.{◌≡◌, [], ◌∷◌, ◌++◌, IfOk, if◌then◌else◌, replicate, string_bytes};
ghost use Rattle.std.specs.Str.{chars};
ghost use Rattle.text_reader.specs.Pieces.{spelling};
ghost use Rattle.text_writer.specs.Pages.{behind, behind_gap, first_layout, laid_plan, layout_behind, mark, past, text_of, white, written};
ghost use Rattle.text_writer.specs.PageViews.{page_chars, page_view, planned_view};
ghost use Rattle.text_writer.specs.PartViews.{part_view, placed_views};
ghost use Rattle.text_writer.specs.Plans.{first_last, planned};

use crate::gaps::{Gap, Last, gap_before, last_of};
use crate::lists::{Indentation, LineColumn, Lists, sum};
use crate::parts::{Part, PlacedPart};
use std::alloc::{AllocError, Global};

// A text that is laid out.
#[derive(Drop)]
struct Page {
    text: String,
    indentation: Indentation,
    // where it ends
    at: LineColumn,
    lists: Lists,
    last: Last,
}

/// The text of parts, laid out, behind a byte order mark if there is one.
///
/// Line breaks stay where they are, but at most one empty line stands between parts, and none at the beginning. Parts of one line
/// have one space between them, but none after `(` and none before `)`. Before a comment that ends a line as many spaces stay,
/// and at least one. In a list that begins with a word, a line begins as the indentation says; in other lists one column in from the
/// parenthesis. A line that begins with `)` begins under the list's parenthesis; or, by two columns, where the line begins that the
/// list begins in, if that begins with a word.
///
/// # Errors
///
/// Where memory is refused.
pub fn laid_out(
    alloc: Global,
    indentation: Indentation,
    is_marked: bool,
    parts: &[PlacedPart],
) -> Result<String, AllocError>
    ensures { IfOk result (λ text. chars (string_bytes text) ≡ text_of (laid_plan indentation is_marked (planned (first_last is_marked) (placed_views parts.now)))) }
{
    let mut page = first_page(alloc, indentation, is_marked)?;
    for placed in parts {
        page.add(placed)?;
    }
    let made = ended(page.text, parts.is_empty())?;
    Ok(made)
}

// A text that ends with a line break, unless it has no parts.
fn ended(mut text: String, is_empty: bool) -> Result<String, AllocError>
    ensures { IfOk result (λ made. chars (string_bytes made) ≡ chars (string_bytes text) ++ (if is_empty then [] else 10 ∷ [])) }
{
    if is_empty {
        return Ok(text);
    }
    text.push('\n')?;
    Ok(text)
}

// A page with nothing but a byte order mark, if there is one.
fn first_page(alloc: Global, indentation: Indentation, is_marked: bool) -> Result<Page, AllocError>
    ensures page { IfOk result (λ page. page_view page ≡ first_layout indentation is_marked) }
    ensures text { IfOk result (λ page. page_chars page ≡ text_of (mark is_marked)) }
{
    Ok(Page {
        text: marked_text(alloc, is_marked)?,
        indentation,
        at: LineColumn {
            line: 0,
            column: 0,
            start: 0,
        },
        lists: Lists::new(alloc),
        last: first_last(is_marked),
    })
}

// A byte order mark, if there is one.
fn marked_text(alloc: Global, is_marked: bool) -> Result<String, AllocError>
    ensures { IfOk result (λ text. chars (string_bytes text) ≡ text_of (mark is_marked)) }
{
    let mut text = String::new(alloc);
    if !is_marked {
        return Ok(text);
    }
    text.push('\u{feff}')?;
    Ok(text)
}

// What stands before the first part.
fn first_last(is_marked: bool) -> Last
    ensures { result ≡ first_last is_marked }
{
    if is_marked { Last::Mark } else { Last::Nothing }
}

impl Page {
    // Writes a part, and the white space before it.
    fn add(&mut self, placed: &PlacedPart) -> Result<(), AllocError>
        ensures page { IfOk result (λ _. page_view self.new ≡ layout_behind (page_view self.old) (planned_view self.old.last placed.now)) }
        ensures text { IfOk result (λ _. page_chars self.new ≡ page_chars self.old ++ text_of (written (page_view self.old) (planned_view self.old.last placed.now))) }
    {
        let column = self.lists.indent(self.indentation, &placed.part)?;
        let gap = gap_before(self.last, placed);
        let at = push_gap(&mut self.text, self.at, column, gap)?;
        self.lists.read(self.last, &placed.part, at)?;
        self.at = push_part(&mut self.text, at, &placed.part)?;
        self.last = last_of(&placed.part);
        Ok(())
    }
}

// Writes the white space of a gap, where a line begins at this column, and answers the place behind it.
fn push_gap(
    text: &mut String,
    at: LineColumn,
    column: usize,
    gap: Gap,
) -> Result<LineColumn, AllocError>
    ensures place { IfOk result (λ place. place ≡ behind_gap column gap at) }
    ensures text { IfOk result (λ _. chars (string_bytes text.new) ≡ chars (string_bytes text.old) ++ text_of (white column gap)) }
{
    match gap {
        Gap::Spaces(spaces) => {
            push_times(text, ' ', spaces)?;
            Ok(LineColumn {
                column: sum(at.column, spaces)?,
                ..at
            })
        }
        Gap::Breaks(breaks) => {
            push_times(text, '\n', breaks)?;
            push_times(text, ' ', column)?;
            Ok(LineColumn {
                line: sum(at.line, breaks)?,
                column,
                start: column,
            })
        }
    }
}

// Writes a part, and answers the place behind it.
fn push_part(text: &mut String, at: LineColumn, part: &Part) -> Result<LineColumn, AllocError>
    ensures place { IfOk result (λ place. place ≡ behind at (spelling (part_view part.now))) }
    ensures text { IfOk result (λ _. chars (string_bytes text.new) ≡ chars (string_bytes text.old) ++ spelling (part_view part.now)) }
{
    match part {
        Part::Open => push_char(text, at, '('),
        Part::Close => push_char(text, at, ')'),
        Part::Bind => push_char(text, at, '@'),
        Part::Alone => push_char(text, at, '$'),
        Part::Name(name) => push(text, at, name),
        Part::Sign(name) => push_behind(text, at, '$', name),
        Part::Line(comment) => push_behind(text, at, ';', comment),
        Part::Block(comment) | Part::Endless(comment) => {
            let inside = push_char(text, at, '(')?;
            push_behind(text, inside, ';', comment)
        }
    }
}

// Writes a character and a text, and answers the place behind them.
fn push_behind(
    text: &mut String,
    at: LineColumn,
    first: char,
    more: &str,
) -> Result<LineColumn, AllocError>
    ensures place { IfOk result (λ place. place ≡ behind at (first ∷ chars more.now)) }
    ensures text { IfOk result (λ _. chars (string_bytes text.new) ≡ chars (string_bytes text.old) ++ first ∷ chars more.now) }
{
    let behind = push_char(text, at, first)?;
    push(text, behind, more)
}

// Writes a text, and answers the place behind it.
fn push(text: &mut String, at: LineColumn, more: &str) -> Result<LineColumn, AllocError>
    ensures place { IfOk result (λ place. place ≡ behind at (chars more.now)) }
    ensures text { IfOk result (λ _. chars (string_bytes text.new) ≡ chars (string_bytes text.old) ++ chars more.now) }
{
    let mut behind = at;
    for c in more.chars() {
        behind = push_char(text, behind, c)?;
    }
    Ok(behind)
}

// Writes a character, and answers the place behind it.
fn push_char(text: &mut String, at: LineColumn, c: char) -> Result<LineColumn, AllocError>
    ensures place { IfOk result (λ place. place ≡ past at c) }
    ensures text { IfOk result (λ _. chars (string_bytes text.new) ≡ chars (string_bytes text.old) ++ c ∷ []) }
{
    let behind = past(at, c)?;
    text.push(c)?;
    Ok(behind)
}

// The place behind a character.
fn past(at: LineColumn, c: char) -> Result<LineColumn, AllocError>
    ensures { IfOk result (λ place. place ≡ past at c) }
{
    if c == '\n' {
        return Ok(LineColumn {
            line: sum(at.line, 1)?,
            column: 0,
            start: at.start,
        });
    }
    Ok(LineColumn {
        column: sum(at.column, 1)?,
        ..at
    })
}

fn push_times(text: &mut String, c: char, times: usize) -> Result<(), AllocError>
    ensures { IfOk result (λ _. chars (string_bytes text.new) ≡ chars (string_bytes text.old) ++ replicate times c) }
{
    for _ in 0..times {
        text.push(c)?;
    }
    Ok(())
}
