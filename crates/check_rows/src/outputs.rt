//! Rows on programs whose output fails.

use crate::words::{has_word, text_at};
use report_queries::answers::write_text;
use std::alloc::{AllocError, Global};
use std::io;
use std::io::{ErrorKind, Write};

// A writer that takes up to 16 bytes at a time and refuses all after some writes, or to be flushed, for this reason.
#[derive(Drop)]
struct Failing {
    writes: usize,
    flushes: bool,
    why: ErrorKind,
}

impl Write for Failing {
    fn write(&mut self, buf: &[u8]) -> io::Result<usize> {
        if self.writes == 0 {
            return Err(io::Error::from(self.why));
        }
        self.writes -= 1;
        Ok(buf.len().min(16))
    }

    fn flush(&mut self) -> io::Result<()> {
        if self.flushes {
            Ok(())
        } else {
            Err(io::Error::from(self.why))
        }
    }
}

// Ninety bytes, which take six writes.
const TEXT: &str =
    "term f\n  b0 = arg 0\n  b1 = int 10 u8\n  match b0\n    int 1 u8:\n      return b1\n  return b0\n";

const FULL: ErrorKind = ErrorKind::StorageFull;

// Nobody reads any more.
const CLOSED: ErrorKind = ErrorKind::BrokenPipe;

/// Adds the status of a program that writes ninety bytes, and what is told, where its output is as a row's words say: how many writes
/// succeed, `flushed` where flushing does, and `full` or `closed`.
pub fn push_output(alloc: Global, words: &[String], out: &mut String) -> Result<(), AllocError> {
    let mut failing = failing_by(words);
    let mut err: Vec<u8> = Vec::new(alloc);
    let status = write_text(TEXT, &mut failing, &mut err);
    write!(out, "status {status}\n")?;
    out.push_str(&String::from_utf8_lossy(alloc, &err)?)
}

fn failing_by(words: &[String]) -> Failing {
    Failing {
        writes: text_at(words, 1).parse::<usize>().unwrap_or(0),
        flushes: has_word(words, "flushed"),
        why: if has_word(words, "closed") {
            CLOSED
        } else {
            FULL
        },
    }
}
