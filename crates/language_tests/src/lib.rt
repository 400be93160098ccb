//! Tests of the language, on what was worked out by hand: proper texts and copies against the shipped texts, which nodes a path
//! leads to, facts on graphs, kinds that mix, what a commit hands over, what is read back, runs of the source machine, and histories of sets
//! and of the queue. They stand apart from the crates that they test, since a crate with tests is proved twice. How texts and
//! targets are spelled, the rules of the normal form and the flaws of targets are rows of the program `reader_rows`.
#![tactic(auto)]

#[cfg(test)]
mod facts;
#[cfg(test)]
mod forks;
#[cfg(test)]
mod kinds;
#[cfg(test)]
mod needs;
#[cfg(test)]
mod object_histories;
#[cfg(test)]
mod read_back;
#[cfg(test)]
mod shipped;
#[cfg(test)]
mod source_runs;
#[cfg(test)]
mod texts;
