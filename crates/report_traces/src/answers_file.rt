//! Files of answers: a line for each, as `g 5 = 6`.

use crate::asked::{Count, Side, count_of, has_constructor, has_extractor};
use crate::values::{Unanswered, term_of, value_of};
use cranelift_isle::lower::Lowered;
use cranelift_isle::sema::{Term, TermId, TypeId};
use cranelift_isle::syntax::{Def, Expr, Ident, Pos};
use report_print::layout::push_place;
use report_print::lines::{FileLines, file_text};
use run_terms::values::Value;
use std::alloc::{AllocError, AllocFailed, Global};
use text_reader::errors::ReadFault;
use text_reader::read;

// What stands before a line where it is read: its words are the arguments on the right side of a rule.
const BEFORE: &str = "(rule (run) (answer ";

/// What a line says of an argument.
#[derive(Drop)]
pub enum Given {
    /// It may be any value.
    Any,
    /// It is this value.
    Is(Value),
}

/// What a line answers.
#[derive(Drop)]
pub enum LineReply {
    /// There is no answer.
    Nothing,
    /// The outputs, in order.
    Outputs(Vec<Value>),
}

/// A line of a file of answers.
pub struct AnswerLine {
    /// What is called of the term.
    pub side: Side,
    /// The term.
    pub term: TermId,
    /// The arguments.
    pub args: Vec<Given>,
    /// The answer.
    pub reply: LineReply,
}

impl Drop for AnswerLine {
    fn drop(self) {
        let Self {
            side: _,
            term: _,
            args: _,
            reply: _,
        } = self;
    }
}

/// What a file of answers was read as.
#[derive(Drop)]
pub enum ReadAnswers {
    /// Its lines.
    Lines(Vec<AnswerLine>),
    /// What is wrong with it, a line each.
    Wrong(String),
}

/// Reads the file of this number as answers. Internal extractors are called where they aren't expanded. A byte order mark at the
/// beginning is passed over.
///
/// # Errors
///
/// Where memory is refused.
pub fn read_answers(
    alloc: Global,
    lowered: &Lowered,
    lines: &FileLines<'_>,
    (file, expand): (usize, bool),
) -> Result<ReadAnswers, AllocError> {
    let mut read = Vec::new(alloc);
    let mut wrong = String::new(alloc);
    let whole = file_text(lines.files(), file);
    let marked = whole.strip_prefix("\u{feff}").unwrap_or(whole);
    let mut begin = whole.len().saturating_sub(marked.len());
    let at = Place {
        alloc,
        lowered,
        expand,
    };
    for text in marked.split('\n') {
        match at.push_line(text, &mut read) {
            Ok(()) => {}
            Err(Wrong::Memory) => return Err(AllocError),
            Err(Wrong::At(offset, why)) => {
                let pos = Pos {
                    file,
                    offset: begin.saturating_add(offset.min(text.len())),
                };
                push_wrong(&mut wrong, lines, pos, &why)?;
            }
        }
        begin = begin.saturating_add(text.len()).saturating_add(1);
    }
    if wrong.is_empty() {
        Ok(ReadAnswers::Lines(read))
    } else {
        Ok(ReadAnswers::Wrong(wrong))
    }
}

fn push_wrong(
    out: &mut String,
    lines: &FileLines<'_>,
    pos: Pos,
    why: &str,
) -> Result<(), AllocError> {
    if !out.is_empty() {
        out.push('\n')?;
    }
    push_place(out, lines, pos)?;
    out.push_str(": error[answer]: ")?;
    out.push_str(why)
}

// Why a line is no answer.
#[derive(Drop)]
enum Wrong {
    // Memory was refused.
    Memory,
    // What is wrong, and at which offset in the line.
    At(usize, String),
}

impl From<AllocError> for Wrong {
    fn from(_: AllocError) -> Wrong {
        Wrong::Memory
    }
}

impl<T: Drop> From<AllocFailed<T>> for Wrong {
    fn from(_: AllocFailed<T>) -> Wrong {
        Wrong::Memory
    }
}

fn wrong_at(pos: Pos, why: Result<String, AllocError>) -> Wrong {
    match why {
        Ok(why) => Wrong::At(pos.offset.saturating_sub(BEFORE.len()), why),
        Err(AllocError) => Wrong::Memory,
    }
}

// What lines are read with.
#[derive(Clone, Copy)]
struct Place<'a> {
    alloc: Global,
    lowered: &'a Lowered,
    expand: bool,
}

// The parts of a line.
struct Parts<'a> {
    // Whether the extractor is meant, where the term has a constructor too.
    extract: bool,
    name: &'a Ident,
    args: Vec<&'a Expr>,
    outputs: Vec<&'a Expr>,
}

impl<'a> Drop for Parts<'a> {
    fn drop(self) {
        let Self {
            extract: _,
            name: _,
            args: _,
            outputs: _,
        } = self;
    }
}

impl<'a> Place<'a> {
    // Reads a line, and adds what it says. A line may be empty.
    fn push_line(self, text: &str, lines: &mut Vec<AnswerLine>) -> Result<(), Wrong> {
        let alloc = self.alloc;
        let text = format!(in alloc; "{BEFORE}{text}\n))")?;
        match read(alloc, 0, &text) {
            Ok(defs) => self.push_definitions(&defs, lines),
            Err(ReadFault::Text(error)) => {
                Err(wrong_at(error.pos, format!(in alloc; "{error}")))
            }
            Err(ReadFault::Memory(_)) => Err(Wrong::Memory),
        }
    }

    // Adds what a line says that was read as definitions.
    fn push_definitions(self, defs: &[Def], lines: &mut Vec<AnswerLine>) -> Result<(), Wrong> {
        let words = match words_in(defs) {
            Some(words) => words,
            None => return Err(self.no_answer(0)),
        };
        let Some(first) = words.first() else {
            return Ok(());
        };
        let parts = match parts_of(self.alloc, words)? {
            Some(parts) => parts,
            None => return Err(self.no_answer(first.pos().offset)),
        };
        let line = self.line_of(&parts)?;
        lines.push(line)?;
        Ok(())
    }

    fn no_answer(self, offset: usize) -> Wrong {
        let pos = Pos { file: 0, offset };
        wrong_at(
            pos,
            String::from_str(self.alloc, "this isn't an answer, such as f 1 2 = 3"),
        )
    }

    fn line_of(self, parts: &Parts<'_>) -> Result<AnswerLine, Wrong> {
        let term = self.term_of(parts.name)?;
        let side = self.side_of(term, parts)?;
        let args = self.args_of(term, side, parts)?;
        let reply = self.reply_of(term, side, parts)?;
        Ok(AnswerLine {
            side,
            term: term.id,
            args,
            reply,
        })
    }

    fn term_of(self, name: &Ident) -> Result<&'a Term, Wrong> {
        match term_of(self.lowered, name) {
            Some(term) => Ok(term),
            None => {
                let alloc = self.alloc;
                Err(wrong_at(name.1, format!(in alloc; "no term is called `{}`", name.0)))
            }
        }
    }

    // What is called of a term: its constructor, or its extractor where that is asked for or all that it has.
    fn side_of(self, term: &Term, parts: &Parts<'_>) -> Result<Side, Wrong> {
        let alloc = self.alloc;
        let name = parts.name;
        if !parts.extract && has_constructor(term) {
            return Ok(Side::Constructor);
        }
        if has_extractor(term, self.expand) {
            return Ok(Side::Extractor);
        }
        let what = if parts.extract {
            "extractor"
        } else {
            "constructor and no extractor"
        };
        Err(wrong_at(
            name.1,
            format!(in alloc; "`{}` has no {what} that is called", name.0),
        ))
    }

    // The arguments: a constructor's are those of the term, an extractor's is of the term's result type.
    fn args_of(self, term: &Term, side: Side, parts: &Parts<'_>) -> Result<Vec<Given>, Wrong> {
        let result = [term.ret_ty];
        let types: &[TypeId] = match side {
            Side::Constructor => &term.arg_tys,
            Side::Extractor => &result,
        };
        self.check_count(parts, "arguments", parts.args.len(), types.len())?;
        let mut args = Vec::new(self.alloc);
        for (arg, ty) in parts.args.iter().zip(types) {
            let given = self.given_of(arg, *ty)?;
            args.push(given)?;
        }
        Ok(args)
    }

    fn given_of(self, arg: &Expr, ty: TypeId) -> Result<Given, Wrong> {
        if is_word(arg, "_") {
            return Ok(Given::Any);
        }
        let value = self.value_of(arg, ty)?;
        Ok(Given::Is(value))
    }

    // The answer: a constructor's is of the term's result type, an extractor's outputs are of the types of the term's arguments.
    fn reply_of(self, term: &Term, side: Side, parts: &Parts<'_>) -> Result<LineReply, Wrong> {
        if is_none(&parts.outputs) {
            return self.no_reply(term, side, parts.name);
        }
        let result = [term.ret_ty];
        let types: &[TypeId] = match side {
            Side::Constructor => &result,
            Side::Extractor => &term.arg_tys,
        };
        self.check_count(parts, "values", parts.outputs.len(), types.len())?;
        let mut outputs = Vec::new(self.alloc);
        for (output, ty) in parts.outputs.iter().zip(types) {
            let value = self.value_of(output, *ty)?;
            outputs.push(value)?;
        }
        Ok(LineReply::Outputs(outputs))
    }

    // That there is no answer, where there may be none.
    fn no_reply(self, term: &Term, side: Side, name: &Ident) -> Result<LineReply, Wrong> {
        if count_of(term, side) != Count::One {
            return Ok(LineReply::Nothing);
        }
        let alloc = self.alloc;
        Err(wrong_at(
            name.1,
            format!(in alloc; "`{}` always has an answer", name.0),
        ))
    }

    // Tells a wrong number of arguments or values.
    fn check_count(
        self,
        parts: &Parts<'_>,
        what: &str,
        given: usize,
        wanted: usize,
    ) -> Result<(), Wrong> {
        if given == wanted {
            return Ok(());
        }
        let alloc = self.alloc;
        let name = parts.name;
        Err(wrong_at(
            name.1,
            format!(in alloc;
                "wrong number of {what} of `{}`: {given} instead of {wanted}",
                name.0
            ),
        ))
    }

    fn value_of(self, expr: &Expr, ty: TypeId) -> Result<Value, Wrong> {
        match value_of(self.alloc, self.lowered, expr, ty) {
            Ok(value) => Ok(value),
            Err(Unanswered::Call(why)) => Err(wrong_at(expr.pos(), Ok(why))),
            Err(Unanswered::Memory) => Err(Wrong::Memory),
        }
    }
}

// The words of a line: the arguments on the right side of the one rule.
fn words_in(defs: &[Def]) -> Option<&[Expr]> {
    let [Def::Rule(rule)] = defs else {
        return None;
    };
    if !rule.iflets.is_empty() {
        return None;
    }
    match &rule.expr {
        Expr::Term { args, .. } => Some(args),
        _ => None,
    }
}

// The parts of a line with these words: a name with arguments, `=`, and outputs. The name and the arguments may stand in
// parentheses.
fn parts_of<'a>(alloc: Global, words: &'a [Expr]) -> Result<Option<Parts<'a>>, AllocError> {
    let (extract, words) = without_extract(words);
    let Some((first, rest)) = words.split_first() else {
        return Ok(None);
    };
    let mut args = Vec::new(alloc);
    let name = match first {
        Expr::Var { name, pos: _ } => name,
        Expr::Term { sym, args: own, .. } => {
            push_all(&mut args, own)?;
            sym
        }
        _ => return Ok(None),
    };
    let mut outputs = Vec::new(alloc);
    if !push_sides(rest, &mut args, &mut outputs)? {
        return Ok(None);
    }
    Ok(Some(Parts {
        extract,
        name,
        args,
        outputs,
    }))
}

// Whether the first word is `extract`, and the words behind it. A term may have that name.
fn without_extract(words: &[Expr]) -> (bool, &[Expr]) {
    match words {
        [first, rest @ ..] if is_word(first, "extract") && has_name(rest) => (true, rest),
        _ => (false, words),
    }
}

// Whether words begin with a name, or a call.
fn has_name(words: &[Expr]) -> bool {
    match words.first() {
        Some(Expr::Term { .. }) => has_equals(words),
        Some(Expr::Var { name, pos: _ }) => name.0.as_str() != "=" && name.0.as_str() != "_",
        _ => false,
    }
}

// Whether the second word is `=`.
fn has_equals(words: &[Expr]) -> bool {
    match words.get(1) {
        Some(word) => is_word(word, "="),
        None => false,
    }
}

fn push_all<'a>(out: &mut Vec<&'a Expr>, exprs: &'a [Expr]) -> Result<(), AllocError> {
    for expr in exprs {
        out.push(expr)?;
    }
    Ok(())
}

// Adds the words before the first `=`, and those behind it. Whether there is one.
fn push_sides<'a>(
    words: &'a [Expr],
    left: &mut Vec<&'a Expr>,
    right: &mut Vec<&'a Expr>,
) -> Result<bool, AllocError> {
    let mut behind = false;
    for word in words {
        if behind {
            right.push(word)?;
        } else if is_word(word, "=") {
            behind = true;
        } else {
            left.push(word)?;
        }
    }
    Ok(behind)
}

fn is_word(expr: &Expr, word: &str) -> bool {
    match expr {
        Expr::Var { name, pos: _ } => name.0.as_str() == word,
        _ => false,
    }
}

// Whether outputs are the word `none`.
fn is_none(outputs: &[&Expr]) -> bool {
    match outputs {
        [output] => is_word(output, "none"),
        _ => false,
    }
}
