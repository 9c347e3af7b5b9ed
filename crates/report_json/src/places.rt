//! Places in files: where they begin, and where what stands there ends.

use cranelift_isle::syntax::{Files, Pos};
use report_names::extents::end_of_form;
use report_print::lines::{FileLines, file_name, file_text};
use std::alloc::{AllocError, Global};
use text_json::Json;

/// The places of files.
pub struct LinePlaces<'a> {
    lines: FileLines<'a>,
}

impl<'a> Drop for LinePlaces<'a> {
    fn drop(self) {
        let LinePlaces { lines: _ } = self;
    }
}

impl<'a> LinePlaces<'a> {
    /// The places of some files.
    pub fn new(alloc: Global, files: &'a Files) -> Result<LinePlaces<'a>, AllocError> {
        let lines = FileLines::new(alloc, files)?;
        Ok(LinePlaces { lines })
    }

    // The files that have the places.
    pub(crate) fn files(&self) -> &Files {
        self.lines.files()
    }

    // Adds the line, the column and the offset of a place.
    fn push_point(&self, json: &mut Json, pos: Pos) -> Result<(), AllocError> {
        let place = self.lines.place(pos);
        json.key_number("line", place.line)?;
        json.key_number("column", place.column)?;
        json.key_number("offset", pos.offset)
    }

    /// Adds a place: its file, its line, column and offset, and where the form ends that begins there.
    pub fn push_place(&self, json: &mut Json, pos: Pos) -> Result<(), AllocError> {
        let files = self.files();
        json.key_string("file", file_name(files, pos.file))?;
        self.push_point(json, pos)?;
        let offset = end_of_form(file_text(files, pos.file), pos.offset);
        json.begin_object_at("end")?;
        let file = pos.file;
        self.push_point(json, Pos { file, offset })?;
        json.end()
    }
}
