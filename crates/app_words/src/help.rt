//! The texts of `isle --help`, `isle TASK --help` and `isle --version`.

use crate::options::OPTIONS;
use crate::tasks::{JOBS, Job, Task};
use std::alloc::{AllocError, Global};

const HEAD: &str = "usage: isle TASK [OPTIONS] FILE..

Reads ISLE text (docs/NOTATION.md) from files. The file - is standard input. All files together are one list of
definitions. A task that is given no file takes those that the file isle.files names, in this folder or above it. A line
[NAME] in that file begins a list of files, which a task takes if NAME is its only file. Tasks:
";

const TAIL: &str = "  --help, --version

Status: 0 success, 1 errors, 2 wrong use, 3 out of memory or of stack, 4 a file cannot be read or the answer cannot be
written. The script ./isle adds 70: no program gave an answer.
";

// What is said of `conditions`, before its options and behind them.
const CONDITIONS_HEAD: &str = "usage: isle conditions [OPTIONS] FILE..

Prints questions for a solver: whether each rule gives what the specs say (docs/VERIFYING.md). The answer is one JSON
object (docs/JSON.md). All files together are one list of definitions and specs. The file - is standard input.
";

const CONDITIONS_TAIL: &str = "  --help

Status: 0 success, 1 errors or a rule that is wrong, 2 wrong use, 3 out of memory or of stack, 4 a file cannot be read
or the answer cannot be written. The script ./isle adds 70: no program gave an answer. tools/try-smt asks the solvers
that are installed about all rules.
";

impl Job {
    // What `--help` says of it.
    fn help(self) -> &'static str {
        match self {
            Job::Task(task) => task.help(),
            Job::Formatting => {
                "  fmt FILE..             lays out files, in place. The layout of - goes to standard output. --check only names the files
                         that would change, and --diff shows their lines too. --indent 2 indents lines by two columns.
"
            }
            Job::Conditions => {
                "  conditions FILE..      makes questions for a solver: whether each rule does what its specs say (docs/VERIFYING.md). It has
                         options of its own: isle conditions --help
"
            }
            Job::Server => "  lsp                    answers an editor (docs/EDITORS.md)
",
        }
    }
}

impl Task {
    fn help(self) -> &'static str {
        match self {
            Task::Lower => {
                "  lower FILE..           prints the tree of each term. Each return names its rule.
"
            }
            Task::Print => {
                "  print FILE..           prints the definitions of all files as one text, each on a line. They need not be accepted.
                         Verification forms, such as spec and model, are printed too.
"
            }
            Task::Rust => {
                "  rust FILE..            prints the Rust code of the terms (docs/RUST-CODE.md)
"
            }
            Task::Check => {
                "  check FILE..           prints errors and warnings, and nothing else
"
            }
            Task::Explain => {
                "  explain RULE FILE..    says what a rule demands and when it is taken. RULE is the name of a rule or of a term, a line
                         in the rule, or FILE:LINE. FILE may be the end of a path.
"
            }
            Task::Stats => {
                "  stats FILE..           counts the rules, sites, tests, arms and returns of each term, and how deep its tests nest
"
            }
            Task::Compare => {
                "  compare FILE.. TREES   shows where the printed trees in the last file differ from the trees of the other files
"
            }
            Task::Diff => {
                "  diff OLD.. -- NEW..    says which terms' trees differ between two versions of rules, and which rules came, went or have
                         another priority
"
            }
            Task::Run => {
                "  run FILE.. -- TERM VALUE..
                         runs a term on values (docs/RUNNING.md). Each term that it calls returns its first argument. An
                         impure term returns the number of impure calls before it. A value with parentheses is quoted:
                         isle run a.isle -- f 1 '(T.A 2)'
"
            }
            Task::Why => {
                "  why RULE FILE.. -- TERM VALUE..
                         says whether a rule is taken on a call, and why not. RULE is as in explain.
"
            }
            Task::Samples => {
                "  samples [NAME]         lists the built-in samples, or prints the tree of one
"
            }
        }
    }
}

/// How the command is used, or what its first word names.
pub fn help_text(alloc: Global, job: Option<Job>) -> Result<String, AllocError> {
    let mut out = String::new(alloc);
    match job {
        None => push_all(&mut out)?,
        Some(Job::Conditions) => push_conditions(&mut out)?,
        Some(job) => {
            out.push_str(job.help())?;
            push_options(&mut out, job)?;
            out.push_str(TAIL)?;
        }
    }
    Ok(out)
}

// Adds what is said of all tasks, and the options of those that have none of their own.
fn push_all(out: &mut String) -> Result<(), AllocError> {
    out.push_str(HEAD)?;
    for job in &JOBS {
        out.push_str(job.help())?;
    }
    out.push_str("Options:\n")?;
    for row in &OPTIONS {
        if row.1.owners.has_tasks() {
            out.push_str(row.2)?;
        }
    }
    out.push_str(TAIL)
}

fn push_conditions(out: &mut String) -> Result<(), AllocError> {
    out.push_str(CONDITIONS_HEAD)?;
    push_options(out, Job::Conditions)?;
    out.push_str(CONDITIONS_TAIL)
}

// Adds the options that it has.
fn push_options(out: &mut String, job: Job) -> Result<(), AllocError> {
    out.push_str("Options:\n")?;
    for row in &OPTIONS {
        if row.1.owners.has(job) {
            out.push_str(row.2)?;
        }
    }
    Ok(())
}

/// Which program this is. Its version is that of the archive and of the Rust crates: `tools/release` compares them.
pub const VERSION: &str = "isle 0.1.0 of joshuapool, after cranelift-isle 0.137.1\n";
