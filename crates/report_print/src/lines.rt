//! Lines of text, and the columns that characters take.

ghost use Rattle.std.specs.Prelude.{◌≡◌, ◌||◌, IfOk, map, nat_eq, nat_lt, not, slice_get, string_bytes};
ghost use Rattle.std.specs.List.{starts_with};
ghost use Rattle.core_syntax.specs.Places.{line_of};
ghost use Rattle.report_print.specs.PlaceTexts.{byte_order_mark, column_in, known_name, shown_column, shown_line, texts_of};

use core_syntax::syntax::{Files, Pos};
use std::alloc::{AllocError, Global};
use text_lines::{LinePlace, LineTable};
use unicode_width::UnicodeWidthChar;

// How many columns a tab takes. Lines are shown with spaces in its place, so that what is below stands below.
const TAB: &str = "    ";

// How many columns of a line are shown. A line that has more is cut.
const WIDEST: u64 = 200;

// How many columns are shown before the offset where a line is cut.
const BEFORE: u64 = 60;

// What stands where a line is cut, and how many columns it takes.
const CUT: &str = "..";

const CUT_COLUMNS: u64 = 2;

// Marks the beginning of some texts, and is no part of their first line; and its bytes.
const BYTE_ORDER_MARK: char = '\u{feff}';

const MARK_BYTES: [u8; 3] = [0xef, 0xbb, 0xbf];

/// The line that an offset lies in.
#[derive(Clone, Copy)]
pub struct Line<'a> {
    /// Its number, from 1.
    pub number: u64,
    /// Its text, without the line feed that ends it.
    pub text: &'a str,
    /// The offset, in the bytes of the line.
    pub at: usize,
}

/// The name of a file by its number, or `?` where there is none.
pub fn file_name(files: &Files, file: usize) -> &str
    ensures { result.now ≡ known_name (map string_bytes files.now.names.items) file }
{
    match files.names.get(file) {
        Some(name) => name.as_str(),
        None => "?",
    }
}

/// The text of a file by its number, or the empty text where there is none.
pub fn file_text(files: &Files, file: usize) -> &str {
    match files.texts.get(file) {
        Some(text) => text.as_str(),
        None => "",
    }
}

/// Files, with a table of the lines of each.
pub struct FileLines<'a> {
    files: &'a Files,
    tables: Vec<LineTable<'a>>,
    ghost tabled: { map (λ table. table.text.now) tables.items ≡ texts_of files.now },
}

impl<'a> Drop for FileLines<'a> {
    fn drop(self) {
        let FileLines {
            files: _,
            tables: _,
        } = self;
    }
}

impl<'a> FileLines<'a> {
    /// The tables of some files.
    ///
    /// # Errors
    ///
    /// If memory is refused.
    pub fn new(alloc: Global, files: &'a Files) -> Result<FileLines<'a>, AllocError>
        ensures { IfOk result (λ lines. lines.files.now ≡ files.now) }
    {
        let mut tables = Vec::new(alloc);
        for text in &files.texts {
            tables.push(LineTable::new(alloc, text)?)?;
        }
        Ok(FileLines { files, tables })
    }

    /// The files.
    pub fn files(&self) -> &'a Files
        ensures { result.now ≡ self.now.files.now }
    {
        self.files
    }

    /// The line and the column of a position, both from 1, the column in characters. A byte order mark at the beginning of the
    /// file is none. In a file that isn't there each position is at its beginning.
    pub fn place(&self, pos: Pos) -> LinePlace
        ensures line { result.line ≡ shown_line (slice_get (texts_of self.now.files.now) pos.file) pos.offset }
        ensures column { result.column ≡ shown_column (slice_get (texts_of self.now.files.now) pos.file) pos.offset }
    {
        match self.tables.get(pos.file) {
            Some(table) => place_in(table, pos.offset),
            None => LinePlace { line: 1, column: 1 },
        }
    }

    /// The line that a position lies in. An offset past the end lies in the last one.
    pub fn line(&self, pos: Pos) -> Line<'a> {
        let text = file_text(self.files, pos.file);
        let before = text.get(..pos.offset).unwrap_or(text);
        let begin = match before.rfind('\n') {
            Some(feed) => feed.saturating_add(1),
            None => 0,
        };
        let rest = text.get(begin..).unwrap_or("");
        Line {
            number: self.place(pos).line as u64,
            text: rest.split('\n').next().unwrap_or(""),
            at: pos.offset.saturating_sub(begin),
        }
    }
}

// The place of an offset in a text, where a byte order mark at the beginning takes no column.
fn place_in(table: &LineTable<'_>, offset: usize) -> LinePlace
    ensures line { result.line ≡ line_of table.now.text.now offset }
    ensures column { result.column ≡ column_in table.now.text.now offset }
{
    let place = table.place(offset);
    if counts_columns(table.text(), place.line) {
        return place;
    }
    LinePlace {
        line: place.line,
        column: place.column.saturating_sub(1).max(1),
    }
}

// Whether each character before a place in this line takes a column.
fn counts_columns(text: &str, line: usize) -> bool
    ensures { result ≡ (nat_lt 1 line || not (starts_with nat_eq text.now byte_order_mark)) }
{
    line > 1 || !has_mark(text)
}

fn has_mark(text: &str) -> bool
    ensures { result ≡ starts_with nat_eq text.now byte_order_mark }
{
    text.as_bytes().starts_with(&MARK_BYTES)
}

impl<'a> Line<'a> {
    // How many columns of the whole line stand before a character that begins at this offset or behind it.
    fn columns_before(self, offset: usize) -> u64 {
        let mut columns = 0u64;
        for (at, c) in self.text.char_indices() {
            if at < offset {
                columns = columns.saturating_add(columns_of(c));
            }
        }
        columns
    }

    /// The columns of the whole line that are shown: all, or those around the offset of a line that is too long.
    pub fn part(self) -> ShownColumns {
        let count = self.columns_before(self.text.len());
        if count <= WIDEST {
            return ShownColumns {
                begin: 0,
                end: count,
                count,
            };
        }
        let shown = WIDEST.saturating_sub(CUT_COLUMNS.saturating_mul(2));
        let begin = self
            .columns_before(self.at)
            .saturating_sub(BEFORE)
            .min(count.saturating_sub(shown));
        ShownColumns {
            begin,
            end: begin.saturating_add(shown).min(count),
            count,
        }
    }

    /// How many columns stand before the offset where the line is shown.
    pub fn indent(self) -> u64 {
        let part = self.part();
        self.columns_before(self.at)
            .saturating_sub(part.begin)
            .saturating_add(part.cut_columns())
    }

    /// How many columns the form or the word at the offset takes where the line is shown: at least one, and no more than the
    /// line has, though a form may go on below.
    pub fn extent(self) -> u64 {
        let mut form = Form {
            depth: 0,
            columns: 0,
            seen: 0,
            ended: false,
        };
        for (at, c) in self.text.char_indices() {
            if at >= self.at {
                form = form.after(c);
            }
        }
        let room = self.part().end.saturating_sub(self.columns_before(self.at));
        form.seen.min(room).max(1)
    }

    /// Adds the line as it is shown: tabs are spaces, what takes no column is left out, and a long line is cut.
    pub fn push(self, out: &mut String) -> Result<(), AllocError> {
        let part = self.part();
        if part.begin > 0 {
            out.push_str(CUT)?;
        }
        let mut column = 0u64;
        for c in self.text.chars() {
            let next = column.saturating_add(columns_of(c));
            if column >= part.begin && next <= part.end {
                push_char(out, c)?;
            }
            column = next;
        }
        if part.end < part.count {
            out.push_str(CUT)?;
        }
        Ok(())
    }
}

/// The columns of a line that are shown.
#[derive(Clone, Copy)]
pub struct ShownColumns {
    /// The first.
    pub begin: u64,
    /// How many stand before the end.
    pub end: u64,
    /// How many the line has.
    pub count: u64,
}

impl ShownColumns {
    // How many columns show that the beginning is left out.
    fn cut_columns(self) -> u64 {
        if self.begin > 0 { CUT_COLUMNS } else { 0 }
    }
}

// Adds a character as it is shown.
fn push_char(out: &mut String, c: char) -> Result<(), AllocError> {
    if c == '\t' {
        return out.push_str(TAB);
    }
    if columns_of(c) == 0 && c.is_ascii() || c == BYTE_ORDER_MARK {
        return Ok(());
    }
    out.push(c)
}

/// How many columns a character takes where a line is shown.
pub fn columns_of(c: char) -> u64 {
    if c == '\t' {
        return 4;
    }
    match c.width() {
        Some(columns) => columns as u64,
        None => 0,
    }
}

// A form or a word as far as it was walked over.
#[derive(Clone, Copy)]
struct Form {
    // How many parentheses are open.
    depth: u64,
    // The columns so far, and those up to the last character that isn't white space.
    columns: u64,
    seen: u64,
    // Whether it ends before the character that comes next.
    ended: bool,
}

impl Form {
    fn after(self, c: char) -> Form {
        if self.ended || self.ends_before(c) {
            return Form {
                ended: true,
                ..self
            };
        }
        let depth = depth_after(self.depth, c);
        let columns = self.columns.saturating_add(columns_of(c));
        let seen = if c.is_whitespace() {
            self.seen
        } else {
            columns
        };
        let ended = c == ')' && depth == 0;
        Form {
            depth,
            columns,
            seen,
            ended,
        }
    }

    // Whether it ends before this character: a word does before white space, and each before a comment.
    fn ends_before(self, c: char) -> bool {
        let begun = self.columns > 0;
        begun && (c == ';' || self.depth == 0 && (c.is_whitespace() || c == ')' || c == '('))
    }
}

/// How many parentheses are open after a character, if so many are before it.
pub fn depth_after(depth: u64, c: char) -> u64 {
    match c {
        '(' => depth.saturating_add(1),
        ')' => depth.saturating_sub(1),
        _ => depth,
    }
}

/// Adds so many spaces.
pub fn push_spaces(out: &mut String, count: u64) -> Result<(), AllocError> {
    push_times(out, ' ', count)
}

/// Adds a character so many times.
pub fn push_times(out: &mut String, c: char, count: u64) -> Result<(), AllocError> {
    for _ in 0..count {
        out.push(c)?;
    }
    Ok(())
}
