//! A state, with all that a search keeps of it.

use norm_lang::list::Listed;
use source_machine::SourceMachine;
use state_judge::ListedRun;

/// A state of the machine, the lists of its callers' method runs, and how many calls each caller has begun.
#[derive(Drop)]
pub struct Snapshot {
    pub machine: SourceMachine,
    pub runs: Listed<ListedRun>,
    pub begun: Listed<usize>,
}
