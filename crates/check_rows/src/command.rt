//! Rows that ask the command `isle`.

use crate::words::text_at;
use app_command::answers::{Answer, answer_within};
use app_command::progress::Unanswered;
use app_command::project::Project;
use app_words::request::Request;
use app_words::unasked::Unasked;
use app_words::words::{Command, asked_by};
use cranelift_isle::syntax::Files;
use std::alloc::{AllocError, Global};

// The bytes of stack that the command is told of.
const STACK: usize = 8 << 20;

/// Adds what the command answers to a row's words and files: a line with the status, then what goes to standard output and
/// standard error, of which what is told with `--progress` comes first. Wrong words are answered with what is wrong with them.
/// Of `conditions`, `fmt` and words that ask for help, only that they ask it.
pub fn push_command(
    alloc: Global,
    words: &[String],
    files: &Files,
    out: &mut String,
) -> Result<(), AllocError> {
    match asked_by(alloc, words, false) {
        Ok(Command::Request(asked)) => push_answer(alloc, &asked, files, out),
        Ok(Command::Formatting(_)) => out.push_str("fmt\n"),
        Ok(Command::Conditions(_)) => out.push_str("conditions\n"),
        Ok(Command::Server) => out.push_str("lsp\n"),
        Ok(Command::Help(_)) => out.push_str("help\n"),
        Ok(Command::Version) => out.push_str("version\n"),
        Err(Unasked::Words(why)) => write!(out, "status 2\n{why}\n"),
        Err(Unasked::Memory) => Err(AllocError),
    }
}

/// Adds which files a project file has in the list that the row's second word names, or outside its lists; or why it has none.
pub fn push_files(
    alloc: Global,
    words: &[String],
    text: &str,
    out: &mut String,
) -> Result<(), AllocError> {
    let project = Project {
        above: String::new(alloc),
        text: String::from_str(alloc, text)?,
    };
    match project.files(alloc, text_at(words, 1)) {
        Ok(files) => {
            let names = files.join(alloc, "\n")?;
            write!(out, "status 0\n{names}\n")
        }
        Err(Unasked::Words(why)) => write!(out, "status 2\n{why}\n"),
        Err(Unasked::Memory) => Err(AllocError),
    }
}

fn push_answer(
    alloc: Global,
    asked: &Request<'_>,
    files: &Files,
    out: &mut String,
) -> Result<(), AllocError> {
    let mut told = Vec::new(alloc);
    match answer_within(alloc, asked, files, STACK, false, &mut told) {
        Ok(answer) => push_both(alloc, &told, &answer, out),
        Err(Unanswered::Stack) => push_told(alloc, 3, &told, out),
        Err(Unanswered::Memory) => Err(AllocError),
    }
}

fn push_both(
    alloc: Global,
    told: &[u8],
    answer: &Answer,
    out: &mut String,
) -> Result<(), AllocError> {
    push_told(alloc, answer.status, told, out)?;
    out.push_str(&answer.out)?;
    out.push_str(&answer.err)
}

// Adds a status, and what was told.
fn push_told(alloc: Global, status: u8, told: &[u8], out: &mut String) -> Result<(), AllocError> {
    write!(out, "status {status}\n")?;
    out.push_str(&String::from_utf8_lossy(alloc, told)?)
}
