//! The lines of files.

ghost use Rattle.std.specs.Prelude.{◌≡◌, ◌==◌, ◌+◌, ◌^◌, ◌<◌, ◌++◌, IfOk, OnOk, count_by, map, nat_le, slice_get, string_bytes};
ghost use Rattle.std.specs.List.Sorted.{IsNonDecreasingBy};
ghost use Rattle.core_syntax.specs.SyntaxViews.{position};
ghost use Rattle.rust_items.specs.FilePlaces.{begin_if, file_or_unknown, file_written, line_begins, line_number, number_lists, on_line, on_line_char, place_written};
ghost use Rattle.rust_items.specs.SourceViews.{beginning_view, sources_view};
ghost use Rattle.rust_items.specs.WrittenItems.{file_line, file_lines};

use crate::options::Prefix;
use cranelift_isle::syntax::{Files, Pos};
use std::alloc::{AllocError, Global};

/// Files, with where the lines of each begin, and what stands in the place of the beginnings of their names.
pub struct Lines<'a> {
    files: &'a Files,
    prefixes: &'a [Prefix],
    // for each file the offsets of its lines, ascending, the first of them 0
    begins: Vec<Vec<usize>>,
    ghost begun: { number_lists begins.items ≡ map line_begins (map string_bytes files.now.texts.items) },
}

impl<'a> Drop for Lines<'a> {
    fn drop(self) {
        let Lines {
            files: _,
            prefixes: _,
            begins: _,
        } = self;
    }
}

impl<'a> Lines<'a> {
    /// The lines of files.
    pub fn new(
        alloc: Global,
        files: &'a Files,
        prefixes: &'a [Prefix],
    ) -> Result<Lines<'a>, AllocError>
        ensures { IfOk result (λ l. sources_view l.files.now l.prefixes.now ≡ sources_view files.now prefixes.now) }
    {
        let mut begins = Vec::new(alloc);
        for text in &files.texts {
            begins.push(begins_of(alloc, text)?)?;
        }
        Ok(Lines {
            files,
            prefixes,
            begins,
        })
    }

    /// Adds a line of a comment for each file, with its name.
    pub fn push_files(&self, out: &mut String) -> Result<(), AllocError>
        ensures { OnOk result (string_bytes out.new ≡ string_bytes out.old ++ file_lines (sources_view self.now.files.now self.now.prefixes.now)) }
    {
        for name in &self.files.names {
            self.push_file_line(out, name)?;
        }
        Ok(())
    }

    // Adds a line of a comment, with the name of a file.
    fn push_file_line(&self, out: &mut String, name: &str) -> Result<(), AllocError>
        ensures { OnOk result (string_bytes out.new ≡ string_bytes out.old ++ file_line (map beginning_view self.now.prefixes.now) name.now) }
    {
        out.push_str("// - ")?;
        self.push_file(out, name)?;
        out.push('\n')
    }

    /// Adds the name of the file that a place is in, the word `line`, and the number of its line, from 1.
    pub fn push(&self, out: &mut String, pos: Pos) -> Result<(), AllocError>
        ensures { OnOk result (string_bytes out.new ≡ string_bytes out.old ++ place_written (sources_view self.now.files.now self.now.prefixes.now) (position pos)) }
    {
        self.push_file_of(out, pos.file)?;
        let line = self.number(pos);
        write!(out, " line {line}")
    }

    // Adds the name of the file of a number.
    fn push_file_of(&self, out: &mut String, file: usize) -> Result<(), AllocError>
        ensures { OnOk result (string_bytes out.new ≡ string_bytes out.old
            ++ file_or_unknown (map beginning_view self.now.prefixes.now) (slice_get (map string_bytes self.now.files.now.names.items) file)) }
    {
        match self.files.names.get(file) {
            Some(name) => self.push_file(out, name),
            None => out.push('?'),
        }
    }

    // Adds the name of a file, with what stands in the place of its beginning.
    fn push_file(&self, out: &mut String, name: &str) -> Result<(), AllocError>
        ensures { OnOk result (string_bytes out.new ≡ string_bytes out.old ++ file_written (map beginning_view self.now.prefixes.now) name.now) }
    {
        push_file_name(out, self.prefixes, name)
    }

    // The number of the line that a place is in, or 0 where there is no such file.
    fn number(&self, pos: Pos) -> usize
        ensures { result ≡ line_number (slice_get (map string_bytes self.now.files.now.texts.items) pos.file) pos.offset }
    {
        match self.begins.get(pos.file) {
            Some(begins) => lines_up_to(begins, pos.offset),
            None => 0,
        }
    }
}

// Adds the name of a file, with what stands in the place of the first of these beginnings that it has.
fn push_file_name(out: &mut String, prefixes: &[Prefix], name: &str) -> Result<(), AllocError>
    ensures { OnOk result (string_bytes out.new ≡ string_bytes out.old ++ file_written (map beginning_view prefixes.now) name.now) }
{
    for prefix in prefixes {
        if let Some(rest) = name.strip_prefix(prefix.prefix.as_str()) {
            return push_shown(out, &prefix.name, rest);
        }
    }
    push_on_line(out, name)
}

// Adds what stands in the place of a beginning, and the rest of the name.
fn push_shown(out: &mut String, shown: &str, rest: &str) -> Result<(), AllocError>
    ensures { OnOk result (string_bytes out.new ≡ string_bytes out.old ++ (on_line shown.now ++ on_line rest.now)) }
{
    push_on_line(out, shown)?;
    push_on_line(out, rest)
}

// How many of these lines begin at an offset or before it.
fn lines_up_to(begins: &[usize], offset: usize) -> usize
    requires { IsNonDecreasingBy (λ b. b) begins.now }
    ensures { result ≡ count_by (λ b. nat_le b offset) begins.now }
{
    begins.partition_point(|begin| *begin <= offset)
}

fn begins_of(alloc: Global, text: &str) -> Result<Vec<usize>, AllocError>
    ensures { IfOk result (λ begins. begins.items ≡ line_begins text.now) }
{
    let mut begins = Vec::new(alloc);
    begins.push(0)?;
    let bytes = text.as_bytes();
    for (at, byte) in bytes.iter().enumerate() {
        push_begin(&mut begins, at, *byte)?;
    }
    Ok(begins)
}

// Adds where a line begins behind a byte.
fn push_begin(begins: &mut Vec<usize>, at: usize, byte: u8) -> Result<(), AllocError>
    requires { at + 1 < 2 ^ 64 }
    ensures { OnOk result (begins.new.items ≡ begins.old.items ++ begin_if (byte == 10) at) }
{
    if byte == b'\n' {
        begins.push(at + 1)?;
    }
    Ok(())
}

// Adds a text that stays on its line.
fn push_on_line(out: &mut String, text: &str) -> Result<(), AllocError>
    ensures { OnOk result (string_bytes out.new ≡ string_bytes out.old ++ on_line text.now) }
{
    for c in text.chars() {
        out.push(on_line(c))?;
    }
    Ok(())
}

// A character, or a space in the place of an end of a line.
fn on_line(c: char) -> char
    ensures { result ≡ on_line_char c }
{
    if c == '\n' || c == '\r' { ' ' } else { c }
}
