//! Tests alone, through public items: of lines, tokens and numbers, of sources and sinks, of how the program reads, ends
//! and explains itself, and of callers on threads. They stand apart from what they test, so that this is proved once.
#![tactic(auto)]

#[cfg(test)]
mod asked;
#[cfg(test)]
mod certificate_tests;
#[cfg(test)]
mod ending_tests;
#[cfg(test)]
mod explanation_tests;
#[cfg(test)]
mod gate;
#[cfg(test)]
mod input_tests;
#[cfg(test)]
mod kept_tests;
#[cfg(test)]
mod set_of_four;
#[cfg(test)]
mod sink_tests;
#[cfg(test)]
mod text_tests;
#[cfg(test)]
mod workloads;
