//! What the command answers to two versions of definitions.

ghost use Rattle.std.specs.Prelude.{◌≡◌, ◌⊎◌, drop, map, string_bytes, take, IfOk};
ghost use Rattle.cranelift_isle.specs.Lowerings.{AreAccepted};
ghost use Rattle.cranelift_isle.specs.SyntaxViews.{definition_views};
ghost use Rattle.app_command.specs.Readings.{IsAcceptedReading};
ghost use Rattle.app_command.specs.TaskAnswers.{IsAnswerToBoth, IsAnswerToVersions, IsDifferent, IsDoneWithoutText};

use crate::answers::{Answer, refused};
use crate::progress::Teller;
use crate::reading::{Reading, reading_of};
use crate::unread::refusal_of_texts;
use app_words::request::Request;
use cranelift_isle::lower::{Refused, lower_or_environments};
use cranelift_isle::syntax::{Def, Files};
use report_print::lines::FileLines;
use report_warnings::changes::changes;
use report_warnings::versions::Version;
use std::alloc::{AllocError, Global};
use std::io::Write;

// A version, as what its files are read as.
#[derive(Clone, Copy)]
struct Read<'a> {
    files: &'a Files,
    reading: &'a Reading,
}

#[derive(Clone, Copy)]
struct Defined<'a> {
    files: &'a Files,
    defs: &'a [Def],
}

/// What is answered to two versions of definitions, of which the old one is in the first files: how they differ; or what is wrong
/// with the old one, or else with the new one.
pub(crate) fn answer_to_versions<E: Write>(
    alloc: Global,
    asked: &Request<'_>,
    files: &Files,
    teller: &mut Teller<'_, E>,
) -> Result<Answer, AllocError>
    ensures { IfOk result (IsAnswerToVersions asked.now (map string_bytes files.now.texts.items)) }
{
    let (old_files, new_files) = divided(alloc, files, asked.old)?;
    let old_reading = reading_of(alloc, asked, &old_files, teller)?;
    let new_reading = reading_of(alloc, asked, &new_files, teller)?;
    let old = Read {
        files: &old_files,
        reading: &old_reading,
    };
    let new = Read {
        files: &new_files,
        reading: &new_reading,
    };
    let answer = answer_to_readings(alloc, asked, old, new, teller)?;
    Ok(answer)
}

// So many of some files, and the others.
fn divided(alloc: Global, files: &Files, count: usize) -> Result<(Files, Files), AllocError>
    ensures { IfOk result (λ both. (map string_bytes both.0.texts.items ≡ take count (map string_bytes files.now.texts.items))
        × (map string_bytes both.1.texts.items ≡ drop count (map string_bytes files.now.texts.items))) }
{
    let (old_names, new_names) = files.names.split_at(count.min(files.names.len()));
    let (old_texts, new_texts) = files.texts.split_at(count.min(files.texts.len()));
    let old = files_of(alloc, old_names, old_texts)?;
    let new = files_of(alloc, new_names, new_texts)?;
    Ok((old, new))
}

fn files_of(alloc: Global, names: &[String], texts: &[String]) -> Result<Files, AllocError>
    ensures { IfOk result (λ files. map string_bytes files.texts.items ≡ map string_bytes texts.now) }
{
    let names = names.to_vec(alloc)?;
    let texts = texts.to_vec(alloc)?;
    Ok(Files { names, texts })
}

fn answer_to_readings<E: Write>(
    alloc: Global,
    asked: &Request<'_>,
    old: Read<'_>,
    new: Read<'_>,
    teller: &mut Teller<'_, E>,
) -> Result<Answer, AllocError>
    ensures { IfOk result (IsAnswerToBoth (IsAcceptedReading asked.now.expand old.entry.reading.now)
        (IsAcceptedReading asked.now.expand new.entry.reading.now) asked.now) }
{
    match old.reading {
        Reading::Unread(mistakes) => {
            let answer = refusal_of_texts(alloc, asked, old.files, mistakes)?;
            Ok(answer)
        }
        Reading::Defs(defs) => {
            let old = Defined {
                files: old.files,
                defs,
            };
            let answer = answer_to_old(alloc, asked, old, new, teller)?;
            Ok(answer)
        }
    }
}

// What is answered to two versions where the old one has these definitions.
fn answer_to_old<E: Write>(
    alloc: Global,
    asked: &Request<'_>,
    old: Defined<'_>,
    new: Read<'_>,
    teller: &mut Teller<'_, E>,
) -> Result<Answer, AllocError>
    ensures { IfOk result (IsAnswerToBoth (AreAccepted (definition_views old.entry.defs.now) asked.now.expand)
        (IsAcceptedReading asked.now.expand new.entry.reading.now) asked.now) }
{
    teller.tell("lowering", "the old version");
    teller.check_stack(alloc, asked, old.files, old.defs)?;
    match lower_or_environments(alloc, old.defs, asked.expand) {
        Ok(lowered) => {
            let lines = FileLines::new(alloc, old.files)?;
            let old = Version {
                lines: &lines,
                defs: old.defs,
                lowered: &lowered,
            };
            let answer = answer_to_new_reading(alloc, asked, old, new, teller)?;
            Ok(answer)
        }
        Err(Refused::Errors(errors, environments)) => {
            let environments = environments.as_ref();
            let answer = refused(
                alloc,
                asked,
                old.files,
                old.defs,
                environments,
                &errors,
                teller,
            )?;
            Ok(answer)
        }
        Err(Refused::Memory(error)) => Err(error),
    }
}

// What is answered to what the new version is read as, where the old one is accepted.
fn answer_to_new_reading<E: Write>(
    alloc: Global,
    asked: &Request<'_>,
    old: Version<'_, '_>,
    new: Read<'_>,
    teller: &mut Teller<'_, E>,
) -> Result<Answer, AllocError>
    ensures { AreAccepted (definition_views old.entry.defs.now) asked.now.expand → IfOk result (IsAnswerToBoth (AreAccepted (definition_views old.entry.defs.now) asked.now.expand)
        (IsAcceptedReading asked.now.expand new.entry.reading.now) asked.now) }
{
    match new.reading {
        Reading::Unread(mistakes) => {
            let answer = refusal_of_texts(alloc, asked, new.files, mistakes)?;
            Ok(answer)
        }
        Reading::Defs(defs) => {
            let new = Defined {
                files: new.files,
                defs,
            };
            let answer = answer_to_new(alloc, asked, old, new, teller)?;
            Ok(answer)
        }
    }
}

// What is answered to the definitions of the new version, where the old one is accepted.
fn answer_to_new<E: Write>(
    alloc: Global,
    asked: &Request<'_>,
    old: Version<'_, '_>,
    new: Defined<'_>,
    teller: &mut Teller<'_, E>,
) -> Result<Answer, AllocError>
    ensures { AreAccepted (definition_views old.entry.defs.now) asked.now.expand → IfOk result (IsAnswerToBoth (AreAccepted (definition_views old.entry.defs.now) asked.now.expand)
        (AreAccepted (definition_views new.entry.defs.now) asked.now.expand) asked.now) }
{
    teller.tell("lowering", "the new version");
    teller.check_stack(alloc, asked, new.files, new.defs)?;
    match lower_or_environments(alloc, new.defs, asked.expand) {
        Ok(lowered) => {
            let lines = FileLines::new(alloc, new.files)?;
            let new = Version {
                lines: &lines,
                defs: new.defs,
                lowered: &lowered,
            };
            teller.tell("comparing", "all terms");
            let text = changes(alloc, old, new)?;
            Ok(answer_of_changes(alloc, text))
        }
        Err(Refused::Errors(errors, environments)) => {
            let environments = environments.as_ref();
            let answer = refused(
                alloc,
                asked,
                new.files,
                new.defs,
                environments,
                &errors,
                teller,
            )?;
            Ok(answer)
        }
        Err(Refused::Memory(error)) => Err(error),
    }
}

// Changes are answered on standard output, with the status 1 where there are some.
fn answer_of_changes(alloc: Global, out: String) -> Answer
    ensures { IsDoneWithoutText result ⊎ IsDifferent result }
{
    let status = if out.is_empty() { 0 } else { 1 };
    Answer {
        status,
        out,
        err: String::new(alloc),
    }
}
