//! How much white space stands between parts.
#![tactic(auto, using(crate::proofs::Texts::texts))]

ghost use Rattle.std.specs.Prelude.{◌≡◌};
ghost use Rattle.std.specs.Str.{chars};
ghost use Rattle.text_reader.specs.Pieces.{begins_with, spelling};
ghost use Rattle.text_writer.specs.Plans.{gap_before, last_of, spaces_in_line};
ghost use Rattle.text_writer.specs.PartViews.{part_view, placed_view};

use crate::parts::{Part, PlacedPart};

/// What stands before a part.
#[derive(Clone, Copy, PartialEq, Eq)]
pub enum Last {
    Nothing,
    /// A byte order mark.
    Mark,
    Open,
    Bind,
    /// A comment to the end of its line.
    Line,
    Other,
}

/// The white space before a part.
#[derive(Clone, Copy)]
pub enum Gap {
    /// So many spaces.
    Spaces(usize),
    /// So many line breaks, and what indents the line.
    Breaks(usize),
}

/// What a part is for the one behind it.
pub fn last_of(part: &Part) -> Last
    ensures { result ≡ last_of (part_view part.now) }
{
    match part {
        Part::Open => Last::Open,
        Part::Bind => Last::Bind,
        Part::Line(_) => Last::Line,
        Part::Close
        | Part::Name(_)
        | Part::Sign(_)
        | Part::Alone
        | Part::Block(_)
        | Part::Endless(_) => Last::Other,
    }
}

/// The gap before a part, by what stands before that.
///
/// Line breaks stay, but at most one empty line, and a comment that ends its line is followed by one. The first part has nothing
/// before it; a space, if it would else begin with a byte order mark.
pub fn gap_before(last: Last, placed: &PlacedPart) -> Gap
    ensures { result ≡ gap_before last (placed_view placed.now) }
{
    let breaks = placed.breaks.min(2);
    match last {
        Last::Nothing if begins_with_mark(&placed.part) => Gap::Spaces(1),
        Last::Nothing | Last::Mark => Gap::Spaces(0),
        Last::Line => Gap::Breaks(breaks.max(1)),
        _ if breaks > 0 => Gap::Breaks(breaks),
        Last::Open => Gap::Spaces(spaces_in_line(0, placed.spaces, &placed.part)),
        Last::Bind | Last::Other => Gap::Spaces(spaces_in_line(1, placed.spaces, &placed.part)),
    }
}

// How many spaces a part gets in a line that goes on, where `usual` stand between most parts and `before` stood there.
fn spaces_in_line(usual: usize, before: usize, part: &Part) -> usize
    ensures { result ≡ spaces_in_line usual before (part_view part.now) }
{
    match part {
        Part::Line(_) => before.max(1),
        Part::Close => 0,
        Part::Open
        | Part::Bind
        | Part::Name(_)
        | Part::Sign(_)
        | Part::Alone
        | Part::Block(_)
        | Part::Endless(_) => usual,
    }
}

// Whether a part begins like a byte order mark.
fn begins_with_mark(part: &Part) -> bool
    ensures { result ≡ begins_with 65279 (spelling (part_view part.now)) }
{
    match part {
        Part::Name(name) => is_marked(name),
        _ => false,
    }
}

/// Whether a text begins with a byte order mark.
pub fn is_marked(text: &str) -> bool
    ensures { result ≡ begins_with 65279 (chars text.now) }
{
    matches!(text.chars().next(), Some('\u{feff}'))
}
