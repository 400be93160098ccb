//! Tests of the words, the guard rows and the pools, on rows that were worked out by hand.
#![tactic(auto)]

#[cfg(test)]
mod guard_tests;
#[cfg(test)]
mod kind_tests;
#[cfg(test)]
mod routine_tests;
#[cfg(test)]
mod rows;
#[cfg(test)]
mod run_tests;
#[cfg(test)]
mod runs;
#[cfg(test)]
mod word_tests;
