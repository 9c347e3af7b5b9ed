//! What can be read of a text that can't be read whole.
#![tactic(auto, using(crate::proofs::Rows::definition_parts))]

ghost use Rattle.std.specs.Prelude.{◌≡◌, All, IfOk, MatchResult, Result};
ghost use Rattle.std.specs.Str.{chars};
ghost use Rattle.model.specs.lists.Syntax.{Definition};
ghost use Rattle.core_syntax.specs.SyntaxViews.{definition_view};
ghost use Rattle.text_reader.specs.Chunks.{chunks_of};
ghost use Rattle.text_reader.specs.Faults.{FaultIsWithin};
ghost use Rattle.text_reader.specs.Forms.{FormsAreWithin};
ghost use Rattle.text_reader.specs.FormViews.{all_view};
ghost use Rattle.text_reader.specs.Lexemes.{Wrong};
ghost use Rattle.text_reader.specs.Recovering.{beside, each_by_itself, forms_in_part, of_forms, of_parts, one_of, recovering};
ghost use Rattle.text_reader.specs.RecoveryViews.{Ends, part_view, part_views, recovery_view};
ghost use Rattle.text_reader.specs.Views.{Gives};

use crate::chunks::{Chunk, chunks};
use crate::definitions::definition;
use crate::errors::{ReadFault, TextError};
use crate::forms::{TextForm, forms};
use crate::read;
use crate::source::Source;
use crate::tokens::tokens_from;
use core_syntax::syntax::Def;
use std::alloc::{AllocError, Global};

/// What can be read of a text.
#[derive(Drop)]
pub struct Recovered {
    /// The definitions of the forms that are whole, in the text's order.
    pub defs: Vec<Def>,
    /// What is wrong with the others, in the text's order.
    pub errors: Vec<TextError>,
}

/// The definitions that can be read of a text, and what is wrong with the rest of it.
///
/// A text that `read` reads gives the same definitions, and nothing is wrong. Any other is read in chunks: the end of an outermost
/// list ends a chunk, and what begins in the first column of a line, outside of block comments, begins one, whatever is not ended
/// before it. A list's end in the first column begins none, nor does white space or a comment to the end of the line. A mistake
/// among the tokens or the lists of a chunk costs this chunk; of a chunk with neither each form by itself is a definition, or has
/// a mistake.
///
/// # Errors
///
/// Where memory is refused.
pub fn recover(alloc: Global, file: usize, text: &str) -> Result<Recovered, AllocError>
    ensures exact { IfOk result (λ r. recovery_view r ≡ recovering file text.now) }
{
    match read(alloc, file, text) {
        Ok(defs) => Ok(Recovered {
            defs,
            errors: Vec::new(alloc),
        }),
        Err(ReadFault::Text(_)) => in_chunks(alloc, file, text),
        Err(ReadFault::Memory(error)) => Err(error),
    }
}

fn in_chunks(alloc: Global, file: usize, text: &str) -> Result<Recovered, AllocError>
    ensures { IfOk result (λ r. recovery_view r ≡ of_parts file (chunks_of (chars text.now))) }
{
    let chunks = chunks(alloc, text)?;
    of_chunks(alloc, file, chunks.as_slice())
}

fn of_chunks(alloc: Global, file: usize, chunks: &[Chunk]) -> Result<Recovered, AllocError>
    requires { All Ends chunks.now }
    ensures { IfOk result (λ r. recovery_view r ≡ of_parts file (part_views chunks.now)) }
{
    let mut found = Recovered {
        defs: Vec::new(alloc),
        errors: Vec::new(alloc),
    };
    for chunk in chunks {
        let at = Source {
            alloc,
            file,
            len: chunk.end,
        };
        found.read_chunk(at, chunk)?;
    }
    Ok(found)
}

impl Recovered {
    fn read_chunk(&mut self, at: Source, chunk: &Chunk) -> Result<(), AllocError>
        requires end { at.len ≡ chunk.now.end }
        requires ends { Ends chunk.now }
        ensures { IfOk result (λ _. recovery_view self.new ≡ beside (recovery_view self.old) (of_forms (forms_in_part at.file (part_view chunk.now)))) }
    {
        match forms_in(at, chunk) {
            Ok(forms) => self.read_forms(at, forms.as_slice()),
            Err(ReadFault::Text(error)) => {
                self.errors.push(error)?;
                Ok(())
            }
            Err(ReadFault::Memory(error)) => Err(error),
        }
    }

    // Adds what forms are, each by itself.
    fn read_forms(&mut self, at: Source, forms: &[TextForm]) -> Result<(), AllocError>
        requires { FormsAreWithin at.file at.len forms.now }
        ensures { IfOk result (λ _. recovery_view self.new ≡ beside (recovery_view self.old) (each_by_itself (all_view forms.now))) }
    {
        for form in forms {
            self.add(definition(at, form))?;
        }
        Ok(())
    }

    fn add(&mut self, found: Result<Def, ReadFault>) -> Result<(), AllocError>
        ensures { IfOk result (λ _. (read : Result Definition Wrong) → Gives definition_view found read → recovery_view self.new ≡ beside (recovery_view self.old) (one_of read)) }
    {
        match found {
            Ok(def) => {
                self.defs.push(def)?;
                Ok(())
            }
            Err(ReadFault::Text(error)) => {
                self.errors.push(error)?;
                Ok(())
            }
            Err(ReadFault::Memory(error)) => Err(error),
        }
    }
}

fn forms_in(at: Source, chunk: &Chunk) -> Result<Vec<TextForm>, ReadFault>
    requires end { at.len ≡ chunk.now.end }
    requires ends { Ends chunk.now }
    ensures read { Gives (λ fs. all_view fs.items) result (forms_in_part at.file (part_view chunk.now)) }
    ensures within { MatchResult result (λ fs. FormsAreWithin at.file at.len fs.items) (FaultIsWithin at.file at.len) }
{
    let tokens = tokens_from(at, chunk.offset, &chunk.text)?;
    forms(at, tokens)
}
