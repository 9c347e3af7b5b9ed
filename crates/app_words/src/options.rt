//! The options, in one table.

ghost use Rattle.std.specs.Prelude.{◌≡◌, map};
ghost use Rattle.app_words.specs.Options.{has_tasks, is_among_tasks, is_of, is_option_of_tasks, option_among, option_of, takes_next};

use crate::tasks::{Job, Task};

/// What an option takes.
#[derive(Clone, Copy)]
pub enum Takes {
    /// Nothing.
    Nothing,
    /// Any text.
    Text,
    /// The form of an answer.
    Format,
    /// When errors have colours.
    Color,
    /// The beginning of a file's name, `=`, and what is shown in its place.
    Renaming,
    /// Kinds of warnings, with commas between them.
    Kinds,
    /// The same, or nothing: they are only joined to it.
    MaybeKinds,
    /// How many columns lines begin in.
    Columns,
}

impl Takes {
    /// Whether it takes the next word, where nothing is joined to it by `=`.
    pub(crate) fn takes_next(self) -> bool
        ensures { result ≡ takes_next self }
    {
        !matches!(self, Takes::Nothing | Takes::MaybeKinds)
    }
}

/// Which tasks have an option.
#[derive(Clone, Copy)]
pub enum Owners {
    /// All but `lsp`.
    AllButServer,
    /// All tasks.
    Tasks,
    /// All tasks but `rust`, which always expands.
    Expanding,
    /// `lower` and `compare`.
    Trees,
    /// `rust`.
    Rust,
    /// `run` and `why`.
    Calls,
    /// `run`.
    Run,
    /// `check`.
    Check,
    /// `fmt`.
    Formatting,
    /// `conditions`.
    Conditions,
}

impl Owners {
    /// Whether this is one of them.
    pub(crate) fn has(self, job: Job) -> bool
        ensures { result ≡ is_of job self }
    {
        match self {
            Owners::AllButServer => !matches!(job, Job::Server),
            Owners::Tasks => job.is_task(),
            Owners::Expanding => job.is_task() && !matches!(job, Job::Task(Task::Rust)),
            Owners::Trees => matches!(job, Job::Task(Task::Lower | Task::Compare)),
            Owners::Rust => matches!(job, Job::Task(Task::Rust)),
            Owners::Calls => job.has_call(),
            Owners::Run => matches!(job, Job::Task(Task::Run)),
            Owners::Check => matches!(job, Job::Task(Task::Check)),
            Owners::Formatting => matches!(job, Job::Formatting),
            Owners::Conditions => matches!(job, Job::Conditions),
        }
    }

    /// Whether a task is.
    pub(crate) fn has_tasks(self) -> bool
        ensures { result ≡ has_tasks self }
    {
        !matches!(self, Owners::Formatting | Owners::Conditions)
    }
}

/// An option.
#[derive(Clone, Copy)]
pub struct TaskOption {
    /// What it takes: the next word, or what is joined to its word by `=`.
    pub takes: Takes,
    /// Whether it may be given more than once.
    pub repeats: bool,
    /// Which tasks have it.
    pub owners: Owners,
}

/// The option of a word.
pub(crate) fn option_of(job: Job, word: &str) -> Option<TaskOption>
    ensures { result ≡ option_of job word.now }
{
    option_among(&OPTIONS, job, word)
}

fn option_among(rows: &[(&str, TaskOption, &str)], job: Job, word: &str) -> Option<TaskOption>
    ensures { result ≡ option_among job word.now (map (λ row. (row.0.now, row.1)) rows.now) }
{
    for row in rows {
        if row.0 == word && row.1.owners.has(job) {
            return Some(row.1);
        }
    }
    None
}

/// Whether some task has an option of this word.
pub(crate) fn is_option_of_tasks(word: &str) -> bool
    ensures { result ≡ is_option_of_tasks word.now }
{
    is_among_tasks(&OPTIONS, word)
}

fn is_among_tasks(rows: &[(&str, TaskOption, &str)], word: &str) -> bool
    ensures { result ≡ is_among_tasks word.now (map (λ row. (row.0.now, row.1)) rows.now) }
{
    for row in rows {
        if row.0 == word && row.1.owners.has_tasks() {
            return true;
        }
    }
    false
}

/// All options: the word of each, what it is, and what `--help` says of it. A word may stand for several, each of other tasks.
pub(crate) const OPTIONS: [(&str, TaskOption, &str); 28] = [
    (
        "--terms",
        TaskOption {
            takes: Takes::Text,
            repeats: false,
            owners: Owners::Trees,
        },
        "  --terms NAME,..        lower, compare: only these terms
",
    ),
    (
        "--prefix",
        TaskOption {
            takes: Takes::Renaming,
            repeats: true,
            owners: Owners::Rust,
        },
        "  --prefix FROM=TO       rust: shows TO in place of FROM where a file name begins with FROM. May be given many times.
",
    ),
    (
        "--log",
        TaskOption {
            takes: Takes::Nothing,
            repeats: false,
            owners: Owners::Rust,
        },
        "  --log                  rust: the code logs each result, by the crate log
",
    ),
    (
        "--stubs",
        TaskOption {
            takes: Takes::Nothing,
            repeats: false,
            owners: Owners::Rust,
        },
        "  --stubs                rust: prints stubs of what the code asks of the module above it (docs/RUST-CODE.md)
",
    ),
    (
        "--with-allows",
        TaskOption {
            takes: Takes::Nothing,
            repeats: false,
            owners: Owners::Rust,
        },
        "  --with-allows          rust: the code begins with attributes #![allow(..)], so it can be a file of its own
",
    ),
    (
        "--answers",
        TaskOption {
            takes: Takes::Text,
            repeats: false,
            owners: Owners::Calls,
        },
        "  --answers FILE         run, why: takes the answers to calls from a file, and runs called terms with rules (docs/RUNNING.md)
",
    ),
    (
        "--trace",
        TaskOption {
            takes: Takes::Nothing,
            repeats: false,
            owners: Owners::Run,
        },
        "  --trace                run: shows each test that is made, and the rule of each return
",
    ),
    (
        "--no-expand",
        TaskOption {
            takes: Takes::Nothing,
            repeats: false,
            owners: Owners::Expanding,
        },
        "  --no-expand            does not expand internal extractors. The task rust always expands them.
",
    ),
    (
        "--deny",
        TaskOption {
            takes: Takes::MaybeKinds,
            repeats: true,
            owners: Owners::Check,
        },
        "  --deny                 check: all warnings are errors
  --deny=NAME,..         check: the warnings of these names are errors
",
    ),
    (
        "--allow",
        TaskOption {
            takes: Takes::Kinds,
            repeats: true,
            owners: Owners::Check,
        },
        "  --allow NAME,..        check: the warnings of these names are not shown. May be given many times. --allow=NAME,.. is the
                         same. The names are never-run, priority, uncovered, recursion, constant, name, unused, literal
                         and always (docs/USING.md).
",
    ),
    (
        "--all",
        TaskOption {
            takes: Takes::Nothing,
            repeats: false,
            owners: Owners::Tasks,
        },
        "  --all                  shows all errors and warnings. Otherwise only the first 20, and no error that follows from another
                         one. compare: the first line of each term that differs. Otherwise only the first line of all is shown.
",
    ),
    (
        "--format",
        TaskOption {
            takes: Takes::Format,
            repeats: false,
            owners: Owners::Tasks,
        },
        "  --format text          shows each error with its source lines. This is the default.
  --format line          shows each error on one line
  --format json          lower, check, stats: prints one JSON object, which has the errors too (docs/JSON.md)
  --format dot           lower: prints each tree as a Graphviz graph
",
    ),
    (
        "--color",
        TaskOption {
            takes: Takes::Color,
            repeats: false,
            owners: Owners::Tasks,
        },
        "  --color WHEN           colours errors: always, never or auto. The default is auto. It colours them if standard error is a
                         terminal and NO_COLOR is not set.
",
    ),
    (
        "--progress",
        TaskOption {
            takes: Takes::Nothing,
            repeats: false,
            owners: Owners::Tasks,
        },
        "  --progress             shows each step on standard error. A terminal shows the current step without this option.
",
    ),
    (
        "--check",
        TaskOption {
            takes: Takes::Nothing,
            repeats: false,
            owners: Owners::Formatting,
        },
        "  --check                only names the files that would change
",
    ),
    (
        "--diff",
        TaskOption {
            takes: Takes::Nothing,
            repeats: false,
            owners: Owners::Formatting,
        },
        "  --diff                 names the files that would change, and shows the lines that would
",
    ),
    (
        "--indent",
        TaskOption {
            takes: Takes::Columns,
            repeats: false,
            owners: Owners::Formatting,
        },
        "  --indent 2             indents lines by two columns
",
    ),
    (
        "--stdin",
        TaskOption {
            takes: Takes::Nothing,
            repeats: true,
            owners: Owners::Formatting,
        },
        "  --stdin                the same as the file -
",
    ),
    (
        "--rule",
        TaskOption {
            takes: Takes::Text,
            repeats: false,
            owners: Owners::Conditions,
        },
        "  --rule RULE            only these rules. RULE is the name of a rule or of a term, a line in the rule, or FILE:LINE. FILE
                         may be the end of a path.
",
    ),
    (
        "--above",
        TaskOption {
            takes: Takes::Nothing,
            repeats: false,
            owners: Owners::Conditions,
        },
        "  --above                asks where no rule of greater priority matches
",
    ),
    (
        "--lax",
        TaskOption {
            takes: Takes::Nothing,
            repeats: false,
            owners: Owners::Conditions,
        },
        "  --lax                  doesn't ask whether pure calls on right sides are as the specs of their terms require
",
    ),
    (
        "--answers",
        TaskOption {
            takes: Takes::Text,
            repeats: false,
            owners: Owners::Conditions,
        },
        "  --answers FILE         tells what solvers' answers in FILE, a file of records, say of each rule. The file - is standard
                         input here too
",
    ),
    (
        "--deny",
        TaskOption {
            takes: Takes::Nothing,
            repeats: false,
            owners: Owners::Conditions,
        },
        "  --deny                 status 1 unless each rule is right at all widths
",
    ),
    (
        "--expect",
        TaskOption {
            takes: Takes::Text,
            repeats: false,
            owners: Owners::Conditions,
        },
        "  --expect FILE          status 1 unless each rule is right but those that FILE names: each of its lines begins the line
                         that is told of one, as 'wrong: rule at a.isle:7 of f'
",
    ),
    (
        "--format",
        TaskOption {
            takes: Takes::Format,
            repeats: false,
            owners: Owners::Conditions,
        },
        "  --format json          what is told of each rule, as one JSON object
",
    ),
    (
        "--open",
        TaskOption {
            takes: Takes::Nothing,
            repeats: false,
            owners: Owners::Conditions,
        },
        "  --open                 before what is told of each rule, the texts that lack an answer, as records
",
    ),
    (
        "--asked",
        TaskOption {
            takes: Takes::Nothing,
            repeats: false,
            owners: Owners::Conditions,
        },
        "  --asked                before that, all texts that it rests on so far, as records
",
    ),
    (
        "-C",
        TaskOption {
            takes: Takes::Text,
            repeats: false,
            owners: Owners::AllButServer,
        },
        "  -C FOLDER              looks for files in this folder
",
    ),
];
