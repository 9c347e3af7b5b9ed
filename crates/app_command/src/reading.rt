//! What the texts of files are read as.

ghost use Rattle.std.specs.Prelude.{◌≡◌, ◌++◌, ℕ, All, Bool, [], List, length, map, string_bytes, IfOk, OnOk, String};
ghost use Rattle.std.specs.declared.alloc.Global.{Global};
ghost use Rattle.cranelift_isle.specs.SyntaxViews.{definition_views};
ghost use Rattle.cranelift_isle.specs.Syntax.{Definition};
ghost use Rattle.text_reader.specs.Within.{DefinitionsAreWithin};
ghost use Rattle.text_reader.specs.Definitions.{Spells, reading};
ghost use Rattle.text_reader.specs.Recovering.{beside, recovering};
ghost use Rattle.text_reader.specs.RecoveryViews.{recovery_view};
ghost use Rattle.text_reader.specs.declared.errors.TextError.{TextError};
ghost use Rattle.app_command.specs.Readings.{has_no_definitions, error_view, mistake_in, mistakes_of_texts, recovered_texts, AreOfTexts, IsReadingOf, StandsIn};

use crate::progress::Teller;
use app_words::request::Request;
use app_words::tasks::Task;
use cranelift_isle::syntax::{Def, Files};
use report_print::lines::file_name;
use std::alloc::{AllocError, Global};
use std::io::Write;
use text_reader::errors::{ReadFault, TextError};
use text_reader::laws::{read_texts_are_recovered, spelled_texts_are_read};
use text_reader::read;
use text_reader::recovery::{Recovered, recover};

/// What the texts of files are read as.
pub enum Reading {
    /// The definitions of all texts, in order.
    Defs(Vec<Def>),
    /// The first mistake of each text that has one, in order.
    Unread(Vec<TextError>),
}

impl Drop for Reading {
    fn drop(self) {
        match self {
            Reading::Defs(_) => {}
            Reading::Unread(_) => {}
        }
    }
}

/// Reads the texts of files, but for those that have no definitions, and tells of each that it is read.
pub fn reading_of<E: Write>(
    alloc: Global,
    asked: &Request<'_>,
    files: &Files,
    teller: &mut Teller<'_, E>,
) -> Result<Reading, AllocError>
    ensures { IfOk result (IsReadingOf (has_no_definitions asked.now) (map string_bytes files.now.texts.items)) }
{
    let mut defs = Vec::new(alloc);
    let mut mistakes = Vec::new(alloc);
    for (number, text) in files.texts.iter().enumerate() {
        if !has_no_definitions(asked, number) {
            teller.tell("reading", file_name(files, number));
            read_text(alloc, number, text, &mut defs, &mut mistakes)?;
        }
    }
    if mistakes.is_empty() {
        Ok(Reading::Defs(defs))
    } else {
        Ok(Reading::Unread(mistakes))
    }
}

// Whether the file of a number has printed trees or answers, and no definitions.
fn has_no_definitions(asked: &Request<'_>, number: usize) -> bool
    ensures { result ≡ has_no_definitions asked.now number }
{
    let has_other = matches!(asked.task, Task::Compare) || asked.answers.is_some();
    has_other && number.checked_add(1) == Some(asked.files.len())
}

// Reads a text: its definitions are added, or its mistake.
fn read_text(
    alloc: Global,
    number: usize,
    text: &str,
    defs: &mut Vec<Def>,
    mistakes: &mut Vec<TextError>,
) -> Result<(), AllocError>
    // the definitions that are added lie in the text, and are what it spells if no mistake is added
    ensures read { OnOk result ((added : List Definition)
        × (definition_views defs.new.items ≡ definition_views defs.old.items ++ added) × DefinitionsAreWithin number (length text.now) added
        × (mistakes.new.items ≡ [] → (mistakes.old.items ≡ []) × Spells number text.now added)) }
    // the mistake that is added is the text's, and none is if the text has none
    ensures exact { OnOk result ((added : List TextError) × (mistakes.new.items ≡ mistakes.old.items ++ added)
        × (map error_view added ≡ mistake_in (reading number text.now)) × All (StandsIn number text.now) added) }
{
    match read(alloc, number, text) {
        Ok(mut read) => {
            defs.append(&mut read)?;
            Ok(())
        }
        Err(ReadFault::Text(mistake)) => {
            mistakes.push(mistake)?;
            Ok(())
        }
        Err(ReadFault::Memory(error)) => Err(error),
    }
}

/// What can be read of the texts of files, but for those that have no definitions.
pub fn recovered_of(
    alloc: Global,
    asked: &Request<'_>,
    files: &Files,
) -> Result<Recovered, AllocError>
    ensures { IfOk result (λ found. recovery_view found ≡ recovered_texts (has_no_definitions asked.now) 0 (map string_bytes files.now.texts.items)) }
{
    let mut found = Recovered {
        defs: Vec::new(alloc),
        errors: Vec::new(alloc),
    };
    for (number, text) in files.texts.iter().enumerate() {
        if !has_no_definitions(asked, number) {
            add_recovered(alloc, number, text, &mut found)?;
        }
    }
    Ok(found)
}

// Adds what can be read of a text.
fn add_recovered(
    alloc: Global,
    number: usize,
    text: &str,
    found: &mut Recovered,
) -> Result<(), AllocError>
    ensures { OnOk result (recovery_view found.new ≡ beside (recovery_view found.old) (recovering number text.now)) }
{
    let mut more = recover(alloc, number, text)?;
    found.defs.append(&mut more.defs)?;
    found.errors.append(&mut more.errors)?;
    Ok(())
}

/// Texts of which all can be read have no mistake.
pub fn recovered_texts_have_no_mistake()
    ensures { (has_none : ℕ → Bool) (texts : List (String Global)) → (recovered_texts has_none 0 (map string_bytes texts)).mistakes ≡ [] → mistakes_of_texts has_none 0 (map string_bytes texts) ≡ [] }
{
    read_texts_are_recovered();
}

/// Texts that spell definitions have no mistake.
pub fn right_texts_have_no_mistake()
    ensures { (has_none : ℕ → Bool) (texts : List (List ℕ)) (defs : List Definition) → AreOfTexts has_none 0 texts defs → mistakes_of_texts has_none 0 texts ≡ [] }
{
    spelled_texts_are_read();
}
