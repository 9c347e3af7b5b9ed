//! What the files of a workspace mean together.

use crate::sources::Sources;
use cranelift_isle::lower::Lowered;
use cranelift_isle::syntax::{Def, Pos};
use report_names::extents::end_of_form;
use report_names::lost_part::LostPart;
use report_print::report::Report;

/// What files mean together.
pub struct Analysis {
    /// The files.
    pub sources: Sources,
    /// The definitions of all forms that can be read, and the last good ones of the others, in order.
    pub defs: Vec<Def>,
    /// The forms that can't be read.
    pub lost: Vec<LostForms>,
    /// What the definitions are lowered to, where nothing is wrong with them.
    pub lowered: Option<Lowered>,
    /// The errors, or else the warnings.
    pub reports: Vec<Report>,
}

impl Drop for Analysis {
    fn drop(self) {
        let Analysis {
            sources: _,
            defs: _,
            lost: _,
            lowered: _,
            reports: _,
        } = self;
    }
}

/// Forms that can't be read.
pub struct LostForms {
    /// The part of a text that they are, up to where the next part begins.
    pub part: LostPart,
    /// Their text when it was last read without a mistake, or the empty text.
    pub good: String,
}

impl Drop for LostForms {
    fn drop(self) {
        let LostForms { part: _, good: _ } = self;
    }
}

impl Analysis {
    /// The forms that can't be read in which a position is.
    pub fn lost_at(&self, pos: Pos) -> Option<&LostForms> {
        let place = (pos.file, pos.offset);
        let count = self
            .lost
            .partition_point(|forms| (forms.part.file, forms.part.begin) <= place);
        let forms = self.lost.get(count.checked_sub(1)?)?;
        if forms.part.has(pos) {
            Some(forms)
        } else {
            None
        }
    }

    /// The form at a position, as it is written, or as it was when it could be read last.
    pub fn form_at(&self, pos: Pos) -> &str {
        let rest = match self.lost_at(pos) {
            Some(forms) => forms
                .good
                .get(pos.offset.saturating_sub(forms.part.begin)..),
            None => self.text(pos.file).get(pos.offset..),
        };
        let rest = rest.unwrap_or("");
        rest.get(..end_of_form(rest, 0)).unwrap_or("")
    }

    /// The text of a file by its number, or the empty text.
    pub fn text(&self, file: usize) -> &str {
        self.sources.text(file)
    }

    /// The URI of a file by its number, or the empty text.
    pub fn uri(&self, file: usize) -> &str {
        match self.sources.uris.get(file) {
            Some(uri) => uri.as_str(),
            None => "",
        }
    }
}
