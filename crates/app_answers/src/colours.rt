//! What the names of a file stand for, as the protocol's semantic tokens.

use crate::analysis::Analysis;
use crate::ranges::Ranges;
use cranelift_isle::syntax::Ident;
use report_names::definitions::variant_of;
use report_names::mentions::{MentionKind, Mentions};
use serde_json::{Value, json};
use std::alloc::{AllocError, Global};
use text_documents::places::DocumentPosition;

// The tokens of a file so far: five numbers for each.
struct Colours<'a> {
    ranges: &'a Ranges<'a>,
    last: DocumentPosition,
    data: Vec<Value>,
}

impl<'a> Drop for Colours<'a> {
    fn drop(self) {
        let Colours {
            ranges: _,
            last: _,
            data: _,
        } = self;
    }
}

/// The names of a file's definitions, in order, with what they stand for. Those of forms that can't be read are left out.
pub fn colours_of(alloc: Global, analysis: &Analysis, file: usize) -> Result<Value, AllocError> {
    let ranges = Ranges::new(alloc, analysis)?;
    let mut colours = Colours {
        ranges: &ranges,
        last: DocumentPosition {
            line: 0,
            character: 0,
        },
        data: Vec::new(alloc),
    };
    for def in &analysis.defs {
        match def.place() {
            Some(pos) if pos.file == file && analysis.lost_at(pos).is_none() => {
                let mut mentions = Mentions::of(alloc, def)?;
                mentions.names.sort_by_key(|mention| mention.name.1)?;
                for mention in &mentions.names {
                    let kind = number_of(analysis, mention.kind, mention.text());
                    colours.add(mention.name, kind, mention.defines)?;
                }
            }
            _ => {}
        }
    }
    let data = colours.into_data();
    json!(in alloc; {"data": data})
}

// The number of the kind of a name: among type, function, enumMember, property, variable and macro.
fn number_of(analysis: &Analysis, kind: MentionKind, name: &str) -> u64 {
    match kind {
        MentionKind::Type => 0,
        MentionKind::Term if name.contains('.') && variant_of(&analysis.defs, name).is_some() => 2,
        MentionKind::Term | MentionKind::Made => 1,
        MentionKind::Variant | MentionKind::Constant | MentionKind::Arm => 2,
        MentionKind::Field | MentionKind::Access => 3,
        MentionKind::Variable => 4,
        MentionKind::Rule => 5,
    }
}

impl<'a> Colours<'a> {
    fn into_data(self) -> Vec<Value> {
        let Colours {
            ranges: _,
            last: _,
            data,
        } = self;
        data
    }

    // Adds a token: lines and columns behind the token before, its length, its kind, and whether it is a declaration.
    fn add(&mut self, name: &Ident, kind: u64, defines: bool) -> Result<(), AllocError> {
        let begin = self.ranges.place_near(name.1.file, name.1.offset);
        let lines = begin.line.saturating_sub(self.last.line);
        let before = if lines == 0 { self.last.character } else { 0 };
        let numbers = [
            lines as u64,
            begin.character.saturating_sub(before) as u64,
            length_of(&name.0),
            kind,
            if defines { 1 } else { 0 },
        ];
        for number in numbers {
            self.data.push(Value::from(number))?;
        }
        self.last = begin;
        Ok(())
    }
}

// The length of a name in UTF-16.
fn length_of(name: &str) -> u64 {
    let mut length = 0u64;
    for c in name.chars() {
        length = length.saturating_add(c.len_utf16() as u64);
    }
    length
}
