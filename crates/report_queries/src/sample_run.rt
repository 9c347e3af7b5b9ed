//! What the program that lowers a sample does.

ghost use Rattle.std.specs.Prelude.{◌≡◌, ◌≢◌, ◌≤◌, false, is_some, map, string_bytes, true};
ghost use Rattle.report_queries.specs.Samples.{names_sample};

use crate::answers::{end, write_answer};
use crate::answers_texts::{TextOptions, answer_to_text};
use crate::samples::sample_text;
use std::alloc::Global;
use std::io::Write;

/// Runs the program: `words` are its arguments without its own name, and the answer is its status.
///
/// 0: the trees of the sample, lowered with internal extractors expanded, are on `out`. 1: the sample has errors, which are
/// on `err`, one a line, each with the number of the definition that it lies in. 2: there isn't exactly one word, or it
/// names no sample: `err` says how the program is used. 3: memory was refused. 4: `out` can't be written or flushed. What
/// `out` gets is made whole before any of it is written. A failure of `err` changes no status.
pub fn run_sample<O: Write, E: Write>(
    alloc: Global,
    words: &[String],
    out: &mut O,
    err: &mut E,
) -> u8
    // every status has its meaning
    ensures known { result ≤ 4 }
    // wrong use is said exactly of words that name no sample
    ensures used { names_sample (map string_bytes words.now) ≡ true → result ≢ 2 }
    ensures misused { names_sample (map string_bytes words.now) ≡ false → result ≡ 2 }
{
    let Some(text) = text_named_by(words) else {
        return end(err, "usage: isle-tree SAMPLE\n", 2);
    };
    let asked = TextOptions {
        expand: true,
        lines: false,
    };
    write_answer(answer_to_text(alloc, text, asked), out, err)
}

// The text of the sample that the words name, or None where they don't name one.
fn text_named_by(words: &[String]) -> Option<&'static str>
    ensures { is_some result ≡ names_sample (map string_bytes words.now) }
{
    if words.len() != 1 {
        return None;
    }
    sample_text(words[0].as_str())
}
