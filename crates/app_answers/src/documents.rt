//! The documents that the client has open.

ghost use Rattle.std.specs.Prelude.{◌<◌, length, IfSome};

use app_messages::refusals::Refusal;
use std::alloc::{AllocError, Global};
use text_documents::changes::Change;
use text_documents::documents::Document;

/// A document that is open.
pub struct OpenDocument {
    /// Its URI, as the client wrote it.
    pub uri: String,
    /// What it is known by: the path of its file, or its URI.
    pub name: String,
    /// Its text, with the number of its version.
    pub document: Document,
}

impl Drop for OpenDocument {
    fn drop(self) {
        let OpenDocument {
            uri: _,
            name: _,
            document: _,
        } = self;
    }
}

/// The documents that are open, in the order in which they were opened.
pub struct Documents {
    /// The documents.
    pub open: Vec<OpenDocument>,
}

impl Drop for Documents {
    fn drop(self) {
        let Documents { open: _ } = self;
    }
}

impl Documents {
    /// The number of the document of a name, if it is open.
    pub fn number_of(&self, name: &str) -> Option<usize>
        ensures { IfSome result (λ number. number < length self.now.open.items) }
    {
        self.open.iter().position(|open| open.name.as_str() == name)
    }

    /// The document of a name, if it is open.
    pub fn named(&self, name: &str) -> Option<&OpenDocument> {
        self.open.get(self.number_of(name)?)
    }

    /// Opens a document. If it is open, it takes the place of the one that is.
    pub fn add(&mut self, opened: OpenDocument) -> Result<(), AllocError> {
        let number = self.number_of(opened.name.as_str());
        self.open.push(opened)?;
        if let Some(number) = number {
            let _old = self.open.swap_remove(number);
        }
        Ok(())
    }

    /// Closes a document.
    pub fn close(&mut self, name: &str) -> Result<(), Refusal> {
        match self.number_of(name) {
            Some(number) => {
                let _old = self.open.remove(number);
                Ok(())
            }
            None => Err(Refusal::NotOpen),
        }
    }

    /// Changes the text of a document, by all changes or by none.
    pub fn change(
        &mut self,
        alloc: Global,
        name: &str,
        version: i64,
        changes: &[Change],
    ) -> Result<(), Refusal> {
        let Some(number) = self.number_of(name) else {
            return Err(Refusal::NotOpen);
        };
        match self.open.get_mut(number) {
            Some(open) => changed(open.document.change(alloc, version, changes)?),
            None => Err(Refusal::NotOpen),
        }
    }
}

// What comes of changes that were made, or weren't.
fn changed(made: bool) -> Result<(), Refusal> {
    if made { Ok(()) } else { Err(Refusal::Outside) }
}
