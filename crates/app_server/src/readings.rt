//! The definitions of texts, also of those that can't be read whole: a form that can't be read keeps its last good definitions.

use crate::checking::add_rest;
use app_answers::analysis::{Analysis, LostForms};
use app_answers::sources::Sources;
use app_messages::edits::shared_ends;
use cranelift_isle::syntax::{Def, Pos};
use report_errors::diagnosis::MOST_OF_FILE;
use report_errors::lost::{add_lost, lost_report};
use report_names::definitions::definition_around;
use report_names::lost_part::LostPart;
use report_print::lines::push_times;
use report_print::report::Report;
use std::alloc::{AllocError, Global};
use text_reader::errors::{ReadFault, TextError};
use text_reader::read;
use text_reader::recovery::{Recovered, recover};

/// What was read of the texts of files.
pub struct Readings<'a> {
    alloc: Global,
    sources: &'a Sources,
    // What the files meant before.
    previous: Option<&'a Analysis>,
    /// The definitions, in order.
    pub defs: Vec<Def>,
    /// What is wrong with the texts.
    pub reports: Vec<Report>,
    /// The forms that can't be read.
    pub lost: Vec<LostForms>,
}

impl<'a> Drop for Readings<'a> {
    fn drop(self) {
        let Readings {
            alloc: _,
            sources: _,
            previous: _,
            defs: _,
            reports: _,
            lost: _,
        } = self;
    }
}

impl<'a> Readings<'a> {
    /// What can be read of all files, and the last good definitions of what can't, by what the files meant before.
    pub fn of(
        alloc: Global,
        sources: &'a Sources,
        previous: Option<&'a Analysis>,
    ) -> Result<Readings<'a>, AllocError> {
        let mut readings = Readings {
            alloc,
            sources,
            previous,
            defs: Vec::new(alloc),
            reports: Vec::new(alloc),
            lost: Vec::new(alloc),
        };
        for (number, text) in sources.files.texts.iter().enumerate() {
            readings.add_text(number, text)?;
        }
        Ok(readings)
    }

    /// The definitions, what is wrong with the texts, and the forms that can't be read.
    pub fn into_found(self) -> (Vec<Def>, Vec<Report>, Vec<LostForms>) {
        let Readings {
            alloc: _,
            sources: _,
            previous: _,
            defs,
            reports,
            lost,
        } = self;
        (defs, reports, lost)
    }

    fn add_text(&mut self, number: usize, text: &str) -> Result<(), AllocError> {
        let mut found = recover(self.alloc, number, text)?;
        if !found.errors.is_empty() {
            self.add_mistakes(number, text, &mut found)?;
        }
        self.defs.append(&mut found.defs)?;
        Ok(())
    }

    // Adds what is wrong with a text, and to its definitions the last good ones of what can't be read.
    fn add_mistakes(
        &mut self,
        number: usize,
        text: &str,
        found: &mut Recovered,
    ) -> Result<(), AllocError> {
        self.add_reports(text, &found.errors)?;
        let mut parts = Vec::new(self.alloc);
        add_lost(self.alloc, number, text, &found.errors, &mut parts)?;
        let older = self.older(number, text);
        let mut last_good = Vec::new(self.alloc);
        for part in &parts {
            let good = String::from_str(self.alloc, good_text(&older, *part))?;
            if !has_definition_in(&found.defs, *part) {
                add_good(self.alloc, *part, &good, &mut last_good)?;
            }
            self.lost.push(LostForms { part: *part, good })?;
        }
        found.defs.append(&mut last_good)?;
        found.defs.sort_by_key(|def| def.place())
    }

    // Adds the reports of what is wrong with a text: of the first mistakes, and how many more there are.
    fn add_reports(&mut self, text: &str, errors: &[TextError]) -> Result<(), AllocError> {
        for error in errors.iter().take(MOST_OF_FILE) {
            self.reports.push(lost_report(self.alloc, text, error)?)?;
        }
        match self.reports.last_mut() {
            Some(last) => add_rest(self.alloc, last, errors.len().saturating_sub(MOST_OF_FILE)),
            None => Ok(()),
        }
    }

    // The text of a file as it was before, if it was read.
    fn older(&self, number: usize, text: &str) -> Option<OlderText<'a>> {
        let previous = self.previous?;
        let file = previous.sources.number_of(self.sources.paths.get(number)?)?;
        let older = previous.text(file);
        Some(OlderText {
            file,
            text: older,
            lost: &previous.lost,
            shared: shared_ends(older.as_bytes(), text.as_bytes()),
            len: text.len(),
        })
    }
}

// The text of a file as it was before, beside what it is now.
#[derive(Clone, Copy)]
struct OlderText<'a> {
    file: usize,
    text: &'a str,
    // The forms of all files that couldn't be read then, in order.
    lost: &'a [LostForms],
    // How many bytes it shares with the new text at the beginning, and how many behind these at the end.
    shared: (usize, usize),
    // The length of the new text.
    len: usize,
}

impl<'a> OlderText<'a> {
    // Where a part of the new text stood, if what was changed doesn't reach over one of its ends.
    fn range_of(self, part: LostPart) -> Option<(usize, usize)> {
        Some((self.offset_of(part.begin)?, self.offset_of(part.end)?))
    }

    // Where an offset of the new text was, if it isn't in what was changed.
    fn offset_of(self, offset: usize) -> Option<usize> {
        let (first, last) = self.shared;
        let behind = self.len.saturating_sub(offset);
        if offset <= first {
            Some(offset)
        } else if behind <= last {
            self.text.len().checked_sub(behind)
        } else {
            None
        }
    }

    // The forms that couldn't be read and began at an offset: found by halving.
    fn lost_at(self, offset: usize) -> Option<&'a LostForms> {
        let place = (self.file, offset);
        let count = self
            .lost
            .partition_point(|lost| (lost.part.file, lost.part.begin) < place);
        self.lost.get(count).filter(|lost| lost.part.file == self.file && lost.part.begin == offset)
    }
}

// The text of a part of a file when it was last read without a mistake, or the empty text.
fn good_text<'a>(older: &Option<OlderText<'a>>, part: LostPart) -> &'a str {
    let Some(older) = older else {
        return "";
    };
    let Some((begin, end)) = older.range_of(part) else {
        return "";
    };
    match older.lost_at(begin) {
        Some(lost) => lost.good.as_str(),
        None => older.text.get(begin..end).unwrap_or(""),
    }
}

// Whether one of the definitions of a text, which are in order, begins in a part of it.
fn has_definition_in(defs: &[Def], part: LostPart) -> bool {
    let last = Pos {
        file: part.file,
        offset: part.end.saturating_sub(1),
    };
    match definition_around(defs, last) {
        Some(def) => is_in(def, part),
        None => false,
    }
}

fn is_in(def: &Def, part: LostPart) -> bool {
    match def.place() {
        Some(pos) => part.has(pos),
        None => false,
    }
}

// Adds the definitions of the last good text of a part of a file, as if it stood there.
fn add_good(
    alloc: Global,
    part: LostPart,
    good: &str,
    defs: &mut Vec<Def>,
) -> Result<(), AllocError> {
    if good.is_empty() {
        return Ok(());
    }
    let mut text = String::new(alloc);
    push_times(&mut text, ' ', part.begin as u64)?;
    text.push_str(good)?;
    match read(alloc, part.file, &text) {
        Ok(mut found) => {
            found.retain(|def| is_in(def, part));
            defs.append(&mut found)?;
            Ok(())
        }
        Err(ReadFault::Text(_error)) => Ok(()),
        Err(ReadFault::Memory(error)) => Err(error),
    }
}

/// The parts of texts that some forms are.
pub fn parts_of(alloc: Global, lost: &[LostForms]) -> Result<Vec<LostPart>, AllocError> {
    let mut parts = Vec::new(alloc);
    for forms in lost {
        parts.push(forms.part)?;
    }
    Ok(parts)
}
