//! A report: what is said of some files, and what mends it, apart from how it is laid out.

ghost use Rattle.std.specs.Prelude.{◌≡◌, [], OnOk};
ghost use Rattle.report_print.specs.Reports.{HasPlaceMore, SpeaksAlike};

use core_syntax::syntax::Pos;
use std::alloc::{AllocError, Global};

/// How grave a report is.
#[derive(Clone, Copy, PartialEq, Eq)]
pub enum Level {
    /// The definitions are refused.
    Error,
    /// The definitions may say something else than what their writer thinks.
    Warning,
}

impl Level {
    /// The word that a report of this level begins with.
    pub fn word(self) -> &'static str {
        match self {
            Level::Error => "error",
            Level::Warning => "warning",
        }
    }
}

/// What is said of some files.
pub struct Report {
    /// How grave it is.
    pub level: Level,
    /// Its kind in one word, as `type` or `overlap`: what `--allow` names, where it is a warning.
    pub kind: &'static str,
    /// What it is about in one word, as `unknown-term`: by this programs tell reports of one kind apart.
    pub code: &'static str,
    /// What it says, in one line.
    pub message: String,
    /// The places that it speaks of. The first is where it is told.
    pub labels: Vec<Label>,
    /// What helps to understand it, or to mend what is wrong.
    pub notes: Vec<Note>,
    /// What a program can do about it, the most likely first.
    pub fixes: Vec<Fix>,
}

impl Report {
    /// A report that says this, of no places yet. Its code is its kind.
    pub fn new(alloc: Global, level: Level, kind: &'static str, message: String) -> Report
        ensures kind { result.kind.now ≡ kind.now }
        ensures places { result.labels.items ≡ [] }
    {
        Report {
            level,
            kind,
            code: kind,
            message,
            labels: Vec::new(alloc),
            notes: Vec::new(alloc),
            fixes: Vec::new(alloc),
        }
    }

    /// Adds a place.
    ///
    /// # Errors
    ///
    /// Where memory is refused.
    pub fn add_label(&mut self, pos: Pos, text: String) -> Result<(), AllocError>
        ensures { OnOk result (HasPlaceMore pos self.old self.new) }
    {
        self.labels.push(Label { pos, text })?;
        Ok(())
    }

    /// Adds a place, unless another label has it.
    ///
    /// # Errors
    ///
    /// Where memory is refused.
    pub fn add_new_label(&mut self, pos: Pos, text: String) -> Result<(), AllocError> {
        if self.labels.iter().any(|label| label.pos == pos) {
            return Ok(());
        }
        self.add_label(pos, text)
    }

    /// Adds a line below the places.
    ///
    /// # Errors
    ///
    /// Where memory is refused.
    pub fn add_note(&mut self, word: &'static str, text: String) -> Result<(), AllocError>
        ensures { OnOk result (SpeaksAlike self.old self.new) }
    {
        self.notes.push(Note {
            word,
            text,
            has_more: false,
        })?;
        Ok(())
    }

    /// Adds a line below the places that counts what the command's option `--all` shows.
    ///
    /// # Errors
    ///
    /// Where memory is refused.
    pub fn add_counted(&mut self, word: &'static str, text: String) -> Result<(), AllocError> {
        self.notes.push(Note {
            word,
            text,
            has_more: true,
        })?;
        Ok(())
    }

    /// Cuts names that are too long in what is said, but not what a fix writes.
    ///
    /// # Errors
    ///
    /// Where memory is refused.
    pub fn shorten(&mut self) -> Result<(), AllocError> {
        shorten(&mut self.message)?;
        for label in &mut self.labels {
            shorten(&mut label.text)?;
        }
        for note in &mut self.notes {
            shorten(&mut note.text)?;
        }
        for fix in &mut self.fixes {
            shorten(&mut fix.title)?;
        }
        Ok(())
    }

    /// Adds a fix of one edit: what stands at a place becomes a text.
    ///
    /// # Errors
    ///
    /// Where memory is refused.
    pub fn add_fix(&mut self, title: String, place: Place, text: String) -> Result<(), AllocError>
        ensures { OnOk result (SpeaksAlike self.old self.new) }
    {
        let mut edits = Vec::new(*title.allocator());
        edits.push(Edit { place, text })?;
        self.fixes.push(Fix { title, edits })?;
        Ok(())
    }
}

// How many letters of a name are shown.
const MOST_LETTERS: usize = 80;

// Cuts each name of a text that is longer.
fn shorten(text: &mut String) -> Result<(), AllocError> {
    if text.len() <= MOST_LETTERS {
        return Ok(());
    }
    let mut out = String::new(*text.allocator());
    let mut count = 0usize;
    for c in text.chars() {
        count = if ends_name(c) {
            0
        } else {
            count.saturating_add(1)
        };
        if count <= MOST_LETTERS {
            out.push(c)?;
        } else if count == MOST_LETTERS.saturating_add(1) {
            out.push_str("..")?;
        }
    }
    *text = out;
    Ok(())
}

// Whether a name ends before this character, where it is quoted or stands in a pattern.
fn ends_name(c: char) -> bool {
    c.is_whitespace() || matches!(c, '(' | ')' | '\'' | '`')
}

/// A place that a report speaks of.
pub struct Label {
    /// Where it begins: the form or the word there is underlined.
    pub pos: Pos,
    /// What the place has to do with it, in one line.
    pub text: String,
}

/// A line below the places of a report.
pub struct Note {
    /// What the line is: `note` or `help`.
    pub word: &'static str,
    /// The line.
    pub text: String,
    /// Whether the command's option `--all` shows what the line counts.
    pub has_more: bool,
}

impl Note {
    /// The line as the command shows it: with the option that shows more, where one does.
    ///
    /// # Errors
    ///
    /// Where memory is refused.
    pub fn told(&self) -> Result<String, AllocError> {
        let mut text = self.text.clone()?;
        if self.has_more {
            text.push_str(", shown by `--all`")?;
        }
        Ok(text)
    }
}

/// A way to mend what is wrong. Its edits are all to be made, or none.
pub struct Fix {
    /// What it does, for a menu, as "Write `add`".
    pub title: String,
    /// The changes. No two of them overlap.
    pub edits: Vec<Edit>,
}

/// A change of a file.
pub struct Edit {
    /// What is replaced.
    pub place: Place,
    /// What stands there then.
    pub text: String,
}

/// A piece of a file, by what syntax trees know of it: `report_names::extents::piece_of` finds it in the file's text.
#[derive(Clone, Copy, PartialEq, Eq)]
pub enum Place {
    /// Nothing, before this position.
    Before(Pos),
    /// So many bytes from there: a name, as it is written.
    Name(Pos, usize),
    /// From a position up to another one of its file.
    UpTo(Pos, Pos),
    /// The form that begins there.
    Form(Pos),
    /// A word between two positions of a file, with the blanks behind it.
    Between(Pos, Pos, Word),
}

impl Place {
    /// Where the piece begins, or the definition that it is in.
    pub fn pos(self) -> Pos {
        match self {
            Place::Before(pos)
            | Place::Name(pos, _)
            | Place::UpTo(pos, _)
            | Place::Form(pos)
            | Place::Between(pos, _, _) => pos,
        }
    }
}

/// A word of a definition whose position syntax trees don't keep.
#[derive(Clone, Copy, PartialEq, Eq)]
pub enum Word {
    /// The flag `rec` of a declaration.
    Rec,
    /// The priority of a rule.
    Priority,
}

impl Drop for Report {
    fn drop(self) {
        let Self {
            level: _,
            kind: _,
            code: _,
            message: _,
            labels: _,
            notes: _,
            fixes: _,
        } = self;
    }
}

impl Drop for Label {
    fn drop(self) {
        let Self { pos: _, text: _ } = self;
    }
}

impl Drop for Note {
    fn drop(self) {
        let Self {
            word: _,
            text: _,
            has_more: _,
        } = self;
    }
}

impl Drop for Fix {
    fn drop(self) {
        let Self { title: _, edits: _ } = self;
    }
}

impl Drop for Edit {
    fn drop(self) {
        let Self { place: _, text: _ } = self;
    }
}
