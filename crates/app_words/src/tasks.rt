//! What the first word names.

ghost use Rattle.std.specs.Prelude.{◌≡◌, find};
ghost use Rattle.std.specs.Str.{bytes_eq};
ghost use Rattle.app_words.specs.Tasks.{has_call, has_rule, is_task, job_named, job_word, task_word};

/// What is to be done.
#[derive(Clone, Copy, PartialEq, Eq)]
pub enum Task {
    /// The trees of the files' terms.
    Lower,
    /// The Rust code of the files' terms.
    Rust,
    /// Nothing but what is wrong.
    Check,
    /// What a rule demands and when it is taken.
    Explain,
    /// How large terms are.
    Stats,
    /// Where the printed trees of the last file depart from those of the others.
    Compare,
    /// What changed between two versions of definitions.
    Diff,
    /// The definitions of the files as one text.
    Print,
    /// The names of the samples, or the trees of one.
    Samples,
    /// The outcome of a call of a term.
    Run,
    /// Whether a rule is taken on a call.
    Why,
}

/// What the first word names: a task, or one of those that have options of their own.
#[derive(Clone, Copy)]
pub enum Job {
    /// A task.
    Task(Task),
    /// `fmt`: files in the usual layout.
    Formatting,
    /// `conditions`: questions about rules for a solver.
    Conditions,
    /// `lsp`: the server for editors.
    Server,
}

/// All of them, as `--help` lists them.
pub(crate) const JOBS: [Job; 14] = [
    Job::Task(Task::Lower),
    Job::Task(Task::Print),
    Job::Task(Task::Rust),
    Job::Task(Task::Check),
    Job::Task(Task::Explain),
    Job::Task(Task::Stats),
    Job::Task(Task::Compare),
    Job::Task(Task::Diff),
    Job::Task(Task::Run),
    Job::Task(Task::Why),
    Job::Task(Task::Samples),
    Job::Formatting,
    Job::Conditions,
    Job::Server,
];

impl Task {
    /// The word that names it.
    pub(crate) fn word(self) -> &'static str
        ensures { result.now ≡ task_word self }
    {
        match self {
            Task::Lower => "lower",
            Task::Print => "print",
            Task::Rust => "rust",
            Task::Check => "check",
            Task::Explain => "explain",
            Task::Stats => "stats",
            Task::Compare => "compare",
            Task::Diff => "diff",
            Task::Run => "run",
            Task::Why => "why",
            Task::Samples => "samples",
        }
    }

    /// Whether it is about a rule, which its first word names.
    pub(crate) fn has_rule(self) -> bool
        ensures { result ≡ has_rule self }
    {
        matches!(self, Task::Explain | Task::Why)
    }

    /// Whether it lowers rules.
    pub fn lowers(self) -> bool {
        !matches!(self, Task::Print | Task::Samples)
    }

    /// Whether its files may be those of a project. Samples are no files, and two versions are two lists.
    pub fn has_project(self) -> bool {
        !matches!(self, Task::Samples | Task::Compare | Task::Diff)
    }
}

impl Job {
    /// The word that names it.
    pub(crate) fn word(self) -> &'static str
        ensures { result.now ≡ job_word self }
    {
        match self {
            Job::Task(task) => task.word(),
            Job::Formatting => "fmt",
            Job::Conditions => "conditions",
            Job::Server => "lsp",
        }
    }

    /// Whether it is a task.
    pub(crate) fn is_task(self) -> bool
        ensures { result ≡ is_task self }
    {
        matches!(self, Job::Task(_))
    }

    /// Whether it is about a call, whose words stand behind `--`.
    pub(crate) fn has_call(self) -> bool
        ensures { result ≡ has_call self }
    {
        matches!(self, Job::Task(Task::Run | Task::Why))
    }

    /// What a word names.
    pub fn named(word: &str) -> Option<Job>
        ensures { result ≡ job_named word.now }
    {
        job_among(&JOBS, word)
    }
}

fn job_among(jobs: &[Job], word: &str) -> Option<Job>
    ensures { result ≡ find (λ job. bytes_eq (job_word job) word.now) jobs.now }
{
    for job in jobs {
        if job.word() == word {
            return Some(*job);
        }
    }
    None
}
