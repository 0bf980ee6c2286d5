//! What is asked for.

use checked_numbers::Num;

/// What a command does.
#[derive(Clone, Copy, Debug, PartialEq, Eq)]
pub enum Task {
    /// Publishes the candidates, in order, and writes the report.
    Publish,
    /// Checks whether the store is sound.
    Check,
    /// Runs a program of the store.
    Eval { name: u32, arg: Num },
    /// Makes input of so many names.
    Made { n: u32, kind: Kind },
    /// Lets workers propose and publish for so many jobs of a seed, and writes the report.
    Mine { seed: u64, jobs: u64, workers: u32 },
}

/// What is made.
#[derive(Clone, Copy, Debug, PartialEq, Eq)]
pub enum Kind {
    /// A terms file.
    Terms,
    /// A store file.
    Store,
    /// A candidates file.
    Candidates,
    /// A summary of publishing the made candidates against the made terms.
    Run,
}

/// What is asked for: the task, the paths of its files, and the step limit of a run.
#[derive(Clone, Copy, Debug, PartialEq, Eq)]
pub struct Request<'a> {
    pub task: Task,
    pub terms: Option<&'a str>,
    pub store: Option<&'a str>,
    pub candidates: Option<&'a str>,
    pub limit: u64,
}
