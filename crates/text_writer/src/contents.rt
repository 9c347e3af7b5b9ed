//! What several texts have, and it as one text.

ghost use Rattle.std.specs.Prelude.{◌≡◌, ◌+◌, ◌++◌, ◌∷◌, [], ℕ, length, List, map, string_bytes, IfErr, IfOk, Ok, OnOk};
ghost use Rattle.core_syntax.specs.SyntaxViews.{definition_views};
ghost use Rattle.text_reader.specs.RecoveryViews.{wrong_view};
ghost use Rattle.text_reader.specs.SpecViews.{numbered_view};
ghost use Rattle.text_reader.specs.Views.{Gives};
ghost use Rattle.text_writer.specs.Contents.{AreOfTexts, TellsUnspelled, behind, contents_of_text, contents_of_texts, contents_view, followed_by, mistaken_contents, no_contents, read_contents, whole_reading};
ghost use Rattle.text_writer.specs.ReadsBack.{ReadsBackAs};
ghost use Rattle.text_writer.specs.Saying.{ReadsBackVerification};
ghost use Rattle.text_writer.specs.Woven.{woven};

use crate::lists::sum;
use crate::spec_faults::SpecPrintFault;
use crate::woven::print_all;
use core_syntax::syntax::{Def, Pos};
use std::alloc::{AllocError, Global};
use text_reader::errors::{ReadFault, TextError};
use text_reader::syntax::VerificationForm;
use text_reader::{read, verification};

/// What texts have.
pub struct Contents {
    /// The definitions of all texts, in order.
    pub defs: Vec<Def>,
    /// What they say for a verifier, each with the number of the definition that stands for it.
    pub forms: Vec<(usize, VerificationForm)>,
    /// The first mistake of each text that has one, in order.
    pub mistakes: Vec<TextError>,
}

impl Drop for Contents {
    fn drop(self) {
        let Self {
            defs: _,
            forms: _,
            mistakes: _,
        } = self;
    }
}

/// Why there is no text of what texts have.
#[derive(Debug, Drop)]
pub enum ContentsFault {
    /// The allocator refused.
    Memory(AllocError),
    /// No text spells the definition or the tree that stands there.
    Unspellable(Pos),
}

impl Contents {
    /// What no texts have.
    pub fn new(alloc: Global) -> Contents
        ensures { contents_view result ≡ no_contents }
    {
        Contents {
            defs: Vec::new(alloc),
            forms: Vec::new(alloc),
            mistakes: Vec::new(alloc),
        }
    }

    /// Adds what a text has: its definitions and what it says for a verifier, or its first mistake, in its definitions, or else in
    /// what it says for a verifier. The number is that of its file, which stands in each position.
    ///
    /// # Errors
    ///
    /// Where memory is refused. Then there may be a part of it.
    pub fn add_text(&mut self, alloc: Global, number: usize, text: &str) -> Result<(), AllocError>
        ensures { OnOk result (contents_view self.new ≡ followed_by (contents_view self.old) (contents_of_text number text.now)) }
    {
        match read_whole(alloc, number, text) {
            Ok((defs, forms)) => self.add_read(defs, forms),
            Err(ReadFault::Text(mistake)) => self.add_mistake(mistake),
            Err(ReadFault::Memory(error)) => Err(error),
        }
    }

    // Adds what is read of a text.
    fn add_read(
        &mut self,
        mut defs: Vec<Def>,
        forms: Vec<(usize, VerificationForm)>,
    ) -> Result<(), AllocError>
        ensures { OnOk result (contents_view self.new ≡ followed_by (contents_view self.old) (read_contents (definition_views defs.items) (map numbered_view forms.items))) }
    {
        let count = self.defs.len();
        add_forms(&mut self.forms, count, forms)?;
        self.defs.append(&mut defs)?;
        Ok(())
    }

    // Adds the mistake of a text.
    fn add_mistake(&mut self, mistake: TextError) -> Result<(), AllocError>
        ensures { OnOk result (contents_view self.new ≡ followed_by (contents_view self.old) (mistaken_contents (wrong_view mistake))) }
    {
        self.mistakes.push(mistake)?;
        Ok(())
    }

    /// The text of what was read: each definition and each tree for a verifier on a line, in order, whatever mistakes there are.
    ///
    /// # Errors
    ///
    /// Where the first definition or tree stands that no text spells, and where memory is refused.
    pub fn printed(&self, alloc: Global) -> Result<String, ContentsFault>
        // They are what some texts have, as where each is added with its number.
        requires { AreOfTexts self.now }
        ensures text { IfOk result (λ s. woven 0 (contents_view self.now).definitions (contents_view self.now).trees ≡ Ok (string_bytes s)) }
        // A reader of definitions reads these, and one for a verifier these trees, but for places.
        ensures defined { IfOk result (λ s. ReadsBackAs (string_bytes s) (contents_view self.now).definitions) }
        ensures said { IfOk result (λ s. ReadsBackVerification (string_bytes s) (contents_view self.now).trees) }
        ensures unspelled { IfErr result (λ e. TellsUnspelled e (woven 0 (contents_view self.now).definitions (contents_view self.now).trees)) }
    {
        match print_all(alloc, &self.defs, &self.forms) {
            Ok(text) => Ok(text),
            Err(SpecPrintFault::Memory(error)) => Err(ContentsFault::Memory(error)),
            Err(SpecPrintFault::Unspellable(place)) => Err(ContentsFault::Unspellable(place)),
            Err(SpecPrintFault::Unmatched(_)) => unreachable!(),
        }
    }
}

/// What texts have, and one text more: what these have, and behind it what that has.
pub fn texts_follow()
    ensures { (texts : List (List ℕ)) (text : List ℕ)
        → contents_of_texts 0 (texts ++ text ∷ []) ≡ followed_by (contents_of_texts 0 texts) (contents_of_text (length texts) text) }
{}

// The definitions that a text spells, and what it says for a verifier.
fn read_whole(
    alloc: Global,
    number: usize,
    text: &str,
) -> Result<(Vec<Def>, Vec<(usize, VerificationForm)>), ReadFault>
    ensures { Gives (λ whole. (definition_views whole.0.items, map numbered_view whole.1.items)) result (whole_reading number text.now) }
{
    let defs = read(alloc, number, text)?;
    let forms = verification(alloc, number, text)?;
    Ok((defs, forms))
}

// Adds what a text says for a verifier, where so many definitions stand before it.
fn add_forms(
    found: &mut Vec<(usize, VerificationForm)>,
    count: usize,
    forms: Vec<(usize, VerificationForm)>,
) -> Result<(), AllocError>
    ensures { OnOk result (map numbered_view found.new.items ≡ map numbered_view found.old.items ++ map (behind count) (map numbered_view forms.items)) }
{
    for (number, form) in forms {
        let number = sum(count, number)?;
        found.push((number, form))?;
    }
    Ok(())
}
