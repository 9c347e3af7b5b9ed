//! Printed trees of two texts, compared.
#![tactic(auto, using(crate::proofs::HeadSteps::tests))]

ghost use Rattle.std.specs.Prelude.{◌≡◌, ◌<◌, ◌&&◌, ◌||◌, ◌==◌, ◌+◌, ◌≤◌, true, false, not, length, map, string_bytes, option_map, IfOk, OnOk, drop, Some};
ghost use Rattle.std.specs.List.{starts_with};
ghost use Rattle.std.specs.Str.Lines.{lines};
ghost use Rattle.report_compare.specs.Agreement.{each_head, behind_head, has_trees, is_named, is_ours, is_quiet, same_lines, tree_of};
ghost use Rattle.report_compare.specs.LineViews.{texts_of};
ghost use Rattle.report_compare.specs.SaidLines.{is_head, said, said_lines, without_mark};

use std::alloc::{AllocError, Global};

/// A line that says something.
#[derive(Clone, Copy)]
pub struct SaidLine<'a> {
    /// Its number in its text, from 1.
    pub number: usize,
    /// What it says.
    pub text: &'a str,
}

// What a text of printed trees is compared with.
#[derive(Clone, Copy)]
struct Compared<'a> {
    // The name of the text's file.
    name: &'a str,
    // What the text says.
    text: &'a [SaidLine<'a>],
    // What our trees say.
    ours: &'a [SaidLine<'a>],
}

/// What is wrong with a text of printed trees, a line each: our trees that it hasn't or has otherwise, names that are none of ours,
/// and names that it has twice; or the first such line, unless all are wanted. The empty text where nothing is wrong. The order of
/// trees, empty lines, blanks at the end of a line, what stands behind `;`, and a byte order mark make no difference. `name` is that
/// of the text's file.
///
/// # Errors
///
/// If memory is refused.
pub fn departures(
    alloc: Global,
    name: &str,
    text: &str,
    trees: &str,
    all: bool,
) -> Result<String, AllocError>
    ensures { IfOk result (λ out. is_quiet (string_bytes out) ≡ has_trees (said_lines text.now) (said_lines trees.now)) }
{
    let out = found(alloc, name, text, trees)?;
    shortened(alloc, out, all)
}

// All that is wrong with a text, a line each.
fn found(alloc: Global, name: &str, text: &str, trees: &str) -> Result<String, AllocError>
    ensures { IfOk result (λ out. is_quiet (string_bytes out) ≡ has_trees (said_lines text.now) (said_lines trees.now)) }
{
    let text = said_lines(alloc, text)?;
    let ours = said_lines(alloc, trees)?;
    let name = on_line(alloc, name)?;
    all_departures(
        alloc,
        Compared {
            name: &name,
            text: &text,
            ours: &ours,
        },
    )
}

// The first report, or all with how many there are; nothing of none.
fn shortened(alloc: Global, reports: String, all: bool) -> Result<String, AllocError>
    ensures { IfOk result (λ out. is_quiet (string_bytes out) ≡ is_quiet (string_bytes reports)) }
{
    if reports.is_empty() {
        return Ok(reports);
    }
    if all {
        return counted(alloc, &reports);
    }
    first_line(alloc, &reports)
}

// What is wrong, a line each.
#[tactic(auto, using(crate::proofs::HeadSteps::tests), unfolding(crate::specs::Agreement::has_trees))]
fn all_departures(alloc: Global, compared: Compared<'_>) -> Result<String, AllocError>
    ensures { IfOk result (λ out. is_quiet (string_bytes out) ≡ has_trees (texts_of compared.entry.text.now) (texts_of compared.entry.ours.now)) }
{
    let mut out = String::new(alloc);
    compared.push_ours(&mut out)?;
    compared.push_names(&mut out)?;
    compared.push_doubles(&mut out)?;
    compared.push_front(&mut out)?;
    Ok(out)
}

impl Compared<'_> {
    // Adds each of our trees that the text hasn't so.
    fn push_ours(self, out: &mut String) -> Result<(), AllocError>
        ensures { OnOk result (is_quiet (string_bytes out.new) ≡ (is_quiet (string_bytes out.old)
            && each_head (is_ours (texts_of self.entry.text.now)) (texts_of self.entry.ours.now))) }
    {
        for (i, line) in self.ours.iter().enumerate() {
            self.push_tree(out, line.text, rest_of(self.ours, i))?;
        }
        Ok(())
    }

    // Adds a tree of ours that the text hasn't so, where a line names a term.
    fn push_tree(
        self,
        out: &mut String,
        head: &str,
        behind: &[SaidLine<'_>],
    ) -> Result<(), AllocError>
        ensures { OnOk result (is_quiet (string_bytes out.new) ≡ (is_quiet (string_bytes out.old)
            && (not (is_head head.now) || is_ours (texts_of self.entry.text.now) head.now (texts_of behind.now)))) }
    {
        if !is_head(head) {
            return Ok(());
        }
        match behind_head(self.text, head) {
            Some(found) => self.push_unlike(out, head, found, tree_of(behind)),
            None => self.push_missing(out, head),
        }
    }

    // Adds where the tree of a term departs from ours, if it does. It stands behind its name in the text, before other trees.
    fn push_unlike(
        self,
        out: &mut String,
        head: &str,
        found: &[SaidLine<'_>],
        ours: &[SaidLine<'_>],
    ) -> Result<(), AllocError>
        ensures { OnOk result (is_quiet (string_bytes out.new) ≡ (is_quiet (string_bytes out.old)
            && same_lines (tree_of (texts_of found.now)) (texts_of ours.now))) }
    {
        if same_lines(tree_of(found), ours) {
            return Ok(());
        }
        self.push_difference(out, head, found, ours)
    }

    fn push_missing(self, out: &mut String, head: &str) -> Result<(), AllocError>
        ensures { OnOk result (is_quiet (string_bytes out.new) ≡ false) }
    {
        let name = self.name;
        write!(out, "{name}: error[tree]: the file has no `{head}`\n")
    }

    // Adds where the tree of a term departs from ours, which stands behind its name in the text, before other trees.
    fn push_difference(
        self,
        out: &mut String,
        head: &str,
        found: &[SaidLine<'_>],
        ours: &[SaidLine<'_>],
    ) -> Result<(), AllocError>
        ensures { OnOk result (is_quiet (string_bytes out.new) ≡ false) }
    {
        let theirs = tree_of(found);
        let at = first_unlike(theirs, ours);
        let name = self.name;
        match (theirs.get(at), ours.get(at)) {
            (Some(other), Some(line)) => {
                let (number, other, line) = (other.number, other.text, line.text);
                write!(
                    out,
                    "{name}:{number}: error[tree]: in `{head}` the file has `{other}`, but the tree has `{line}`\n"
                )
            }
            (Some(other), None) => {
                let (number, other) = (other.number, other.text);
                write!(
                    out,
                    "{name}:{number}: error[tree]: in `{head}` the tree ends, but the file's tree continues with `{other}`\n"
                )
            }
            (None, line) => {
                let line = line.map_or("", |line| line.text);
                let (number, what) = self.end_of(found.get(at));
                write!(
                    out,
                    "{name}:{number}: error[tree]: in `{head}` the file{what} ends, but the tree continues with `{line}`\n"
                )
            }
        }
    }

    // The number of the line where a tree of the text ends, and whether it is the text that ends there.
    fn end_of(self, next: Option<&SaidLine<'_>>) -> (usize, &'static str) {
        match (next, self.text.last()) {
            (Some(line), _) => (line.number, "'s tree"),
            (None, Some(last)) => (last.number.saturating_add(1), ""),
            (None, None) => (1, ""),
        }
    }

    // Adds each tree of the text whose name is none of ours.
    fn push_names(self, out: &mut String) -> Result<(), AllocError>
        ensures { OnOk result (is_quiet (string_bytes out.new) ≡ (is_quiet (string_bytes out.old)
            && each_head (λ head behind. is_named (texts_of self.entry.ours.now) head) (texts_of self.entry.text.now))) }
    {
        for (i, line) in self.text.iter().enumerate() {
            self.push_name(out, *line)?;
        }
        Ok(())
    }

    fn push_name(self, out: &mut String, line: SaidLine<'_>) -> Result<(), AllocError>
        ensures { OnOk result (is_quiet (string_bytes out.new) ≡ (is_quiet (string_bytes out.old)
            && (not (is_head line.entry.text.now) || is_named (texts_of self.entry.ours.now) line.entry.text.now))) }
    {
        if !is_head(line.text) || is_named(self.ours, line.text) {
            return Ok(());
        }
        self.push_line(out, line, ", but there is no such tree")
    }

    // Adds each name that the text has again behind its tree.
    fn push_doubles(self, out: &mut String) -> Result<(), AllocError>
        ensures { OnOk result (is_quiet (string_bytes out.new) ≡ (is_quiet (string_bytes out.old)
            && each_head (λ head behind. not (is_named behind head)) (texts_of self.entry.text.now))) }
    {
        for (i, line) in self.text.iter().enumerate() {
            self.push_double(out, *line, rest_of(self.text, i))?;
        }
        Ok(())
    }

    fn push_double(
        self,
        out: &mut String,
        line: SaidLine<'_>,
        behind: &[SaidLine<'_>],
    ) -> Result<(), AllocError>
        ensures { OnOk result (is_quiet (string_bytes out.new) ≡ (is_quiet (string_bytes out.old)
            && (not (is_head line.entry.text.now) || not (is_named (texts_of behind.now) line.entry.text.now)))) }
    {
        if !is_head(line.text) || !is_named(behind, line.text) {
            return Ok(());
        }
        self.push_line(out, line, " twice")
    }

    // Adds a line that stands before the first tree.
    fn push_front(self, out: &mut String) -> Result<(), AllocError>
        ensures { OnOk result (is_quiet (string_bytes out.new) ≡ (is_quiet (string_bytes out.old)
            && (length (tree_of (texts_of self.entry.text.now)) == 0))) }
    {
        match tree_of(self.text).first() {
            Some(line) => self.push_line(out, *line, " before its first tree"),
            None => Ok(()),
        }
    }

    // Adds that the text has a line, and what is wrong with it.
    fn push_line(self, out: &mut String, line: SaidLine<'_>, what: &str) -> Result<(), AllocError>
        ensures { OnOk result (is_quiet (string_bytes out.new) ≡ false) }
    {
        let (name, number, text) = (self.name, line.number, line.text);
        write!(
            out,
            "{name}:{number}: error[tree]: the file has `{text}`{what}\n"
        )
    }
}

// How many lines at their beginnings are alike.
fn first_unlike(theirs: &[SaidLine<'_>], ours: &[SaidLine<'_>]) -> usize {
    for (i, line) in theirs.iter().enumerate() {
        if ours.get(i).map_or("", |other| other.text) != line.text {
            return i;
        }
    }
    theirs.len()
}

fn same_lines(theirs: &[SaidLine<'_>], ours: &[SaidLine<'_>]) -> bool
    ensures { result ≡ same_lines (texts_of theirs.now) (texts_of ours.now) }
{
    if theirs.len() != ours.len() {
        return false;
    }
    for (i, line) in theirs.iter().enumerate() {
        if line.text != ours[i].text {
            return false;
        }
    }
    true
}

// The lines up to the next one that names a term.
#[tactic(auto, using(crate::proofs::HeadSteps::tests, crate::proofs::HeadSteps::tree_taken))]
fn tree_of<'x, 'a>(behind: &'x [SaidLine<'a>]) -> &'x [SaidLine<'a>]
    ensures { texts_of result.now ≡ tree_of (texts_of behind.now) }
{
    let count = tree_length(behind);
    &behind[..count]
}

fn tree_length(behind: &[SaidLine<'_>]) -> usize
    ensures length { result ≡ length (tree_of (texts_of behind.now)) }
    ensures within { result ≤ length behind.now }
{
    for (i, line) in behind.iter().enumerate() {
        if is_head(line.text) {
            return i;
        }
    }
    behind.len()
}

// What stands behind the first line that is this one.
fn behind_head<'x, 'a>(lines: &'x [SaidLine<'a>], head: &str) -> Option<&'x [SaidLine<'a>]>
    ensures { option_map (λ rest. texts_of rest.now) result ≡ behind_head head.now (texts_of lines.now) }
{
    for (i, line) in lines.iter().enumerate() {
        if line.text == head {
            return Some(rest_of(lines, i));
        }
    }
    None
}

// What stands behind a line of some.
fn rest_of<'x, 'a>(lines: &'x [SaidLine<'a>], i: usize) -> &'x [SaidLine<'a>]
    requires { i < length lines.now }
    ensures { result.now ≡ drop (i + 1) lines.now }
{
    &lines[i + 1..]
}

fn is_named(lines: &[SaidLine<'_>], head: &str) -> bool
    ensures { result ≡ is_named (texts_of lines.now) head.now }
{
    behind_head(lines, head).is_some()
}

// Whether a line names a term.
fn is_head(line: &str) -> bool
    ensures { result ≡ is_head line.now }
{
    line.starts_with("term ")
}

// What the lines of a text say, where they say something.
fn said_lines(alloc: Global, text: &str) -> Result<Vec<SaidLine<'_>>, AllocError>
    ensures { IfOk result (λ v. texts_of v.items ≡ said_lines text.now) }
{
    let lines = lines_of(alloc, without_mark(text))?;
    let mut out = Vec::new(alloc);
    for (before, line) in lines.iter().enumerate() {
        let text = said(line);
        if !text.is_empty() {
            let number = before.saturating_add(1);
            out.push(SaidLine { number, text })?;
        }
    }
    Ok(out)
}

fn lines_of(alloc: Global, text: &str) -> Result<Vec<&str>, AllocError>
    ensures { IfOk result (λ v. map (λ line. line.now) v.items ≡ lines text.now) }
{
    text.lines().collect(alloc)
}

// A text without the byte order mark at its beginning.
fn without_mark(text: &str) -> &str
    ensures { result.now ≡ without_mark text.now }
{
    text.strip_prefix("\u{feff}").unwrap_or(text)
}

// What a line says: without a comment and without blanks at its end.
fn said(line: &str) -> &str
    ensures { result.now ≡ said line.now }
{
    match line.split_once(';') {
        Some((before, _)) => before.trim_end(),
        None => line.trim_end(),
    }
}

// A name that stays on its line.
fn on_line(alloc: Global, name: &str) -> Result<String, AllocError> {
    let mut out = String::new(alloc);
    for c in name.chars() {
        out.push(if c.is_control() { ' ' } else { c })?;
    }
    Ok(out)
}

// Reports with how many there are.
fn counted(alloc: Global, reports: &str) -> Result<String, AllocError>
    ensures { IfOk result (λ out. is_quiet (string_bytes out) ≡ false) }
{
    let mut out = String::from_str(alloc, reports)?;
    push_count(&mut out, reports.lines().count())?;
    Ok(out)
}

fn push_count(out: &mut String, count: usize) -> Result<(), AllocError>
    ensures { OnOk result (is_quiet (string_bytes out.new) ≡ false) }
{
    let what = if count == 1 {
        "term differs"
    } else {
        "terms differ"
    };
    write!(out, "{count} {what}\n")
}

// The first of some reports.
fn first_line(alloc: Global, reports: &str) -> Result<String, AllocError>
    ensures { IfOk result (λ out. is_quiet (string_bytes out) ≡ false) }
{
    let mut out = String::new(alloc);
    push_report(&mut out, reports.lines().next().unwrap_or(""))?;
    Ok(out)
}

fn push_report(out: &mut String, report: &str) -> Result<(), AllocError>
    ensures { OnOk result (is_quiet (string_bytes out.new) ≡ false) }
{
    write!(out, "{report}\n")
}
