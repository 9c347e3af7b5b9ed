//! The internal extractors of definitions, looked up by their names.

use core_syntax::syntax::{Def, Extractor};
use std::alloc::{AllocError, Global};
use std::collections::BTreeMap;

/// Internal extractors by their names: of several of one name the first.
pub struct Extractors<'a> {
    by_name: BTreeMap<&'a str, &'a Extractor>,
}

impl<'a> Drop for Extractors<'a> {
    fn drop(self) {
        let Extractors { by_name: _ } = self;
    }
}

impl<'a> Extractors<'a> {
    /// None.
    pub fn none(alloc: Global) -> Extractors<'a> {
        Extractors {
            by_name: BTreeMap::new(alloc),
        }
    }

    /// Those of definitions.
    ///
    /// # Errors
    ///
    /// If memory is refused.
    pub fn of(alloc: Global, defs: &'a [Def]) -> Result<Extractors<'a>, AllocError> {
        let mut extractors = Extractors::none(alloc);
        // the first is put in last
        for def in defs.iter().rev() {
            if let Def::Extractor(extractor) = def {
                let name = extractor.term.0.as_str();
                extractors.by_name.insert(name, extractor)?;
            }
        }
        Ok(extractors)
    }

    /// The one of a name.
    pub(crate) fn get(&self, name: &'a str) -> Option<&'a Extractor> {
        self.by_name.get(&name).copied()
    }
}
