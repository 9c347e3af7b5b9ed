//! The state of one document: its text, and the version that the editor gave it.

ghost use Rattle.std.specs.Prelude.{◌≡◌, ℕ, List, IfOk, OnErr, false, true, string_bytes};
ghost use Rattle.text_documents.specs.Changes.{AreEdits};
ghost use Rattle.text_documents.specs.Contents.{DocumentContents, contents};

use crate::changes::{Change, changed};
use std::alloc::{AllocError, Global};
use std::marker::Model;

/// A document that is open in an editor.
#[derive(Drop)]
pub struct Document {
    version: i64,
    text: String,
}

impl Model for Document {
    ghost Value = { DocumentContents };

    ghost view = { λ d. contents d.version (string_bytes d.text) };
}

impl Document {
    /// A document that is opened.
    pub fn new(version: i64, text: String) -> Self
        ensures { result ≡ contents version (string_bytes text) }
    {
        Document { version, text }
    }

    /// The version that the editor gave the text. Any number is one.
    pub fn version(&self) -> i64
        ensures { result ≡ self.now.version }
    {
        self.version
    }

    /// The text.
    pub fn text(&self) -> &str
        ensures { result.now ≡ self.now.text }
    {
        self.text.as_str()
    }

    /// Makes changes, each of the text that the one before it left: all of them, or none where one of them is refused. False, and
    /// the document as it was, where one is.
    ///
    /// # Errors
    ///
    /// Where memory is refused; the document is as it was.
    pub fn change(
        &mut self,
        alloc: Global,
        version: i64,
        changes: &[Change],
    ) -> Result<bool, AllocError>
        ensures made { IfOk result (λ made. made ≡ true → AreEdits self.old.text changes.now self.new.text) }
        ensures version { IfOk result (λ made. made ≡ true → self.new.version ≡ version) }
        ensures only { (bytes : List ℕ) → AreEdits self.old.text changes.now bytes
            → IfOk result (λ made. (made ≡ true) × (self.new ≡ contents version bytes)) }
        ensures refused { ((bytes : List ℕ) → AreEdits self.old.text changes.now bytes → ⊥) → IfOk result (λ made. made ≡ false) }
        ensures unchanged { IfOk result (λ made. made ≡ false → self.new ≡ self.old) }
        ensures err { OnErr result (self.new ≡ self.old) }
    {
        match changed(alloc, &self.text, changes)? {
            Some(text) => {
                self.replace(version, text);
                Ok(true)
            }
            None => Ok(false),
        }
    }

    // Takes another text.
    fn replace(&mut self, version: i64, text: String)
        ensures { self.new ≡ contents version (string_bytes text) }
    {
        self.version = version;
        self.text = text;
    }
}
