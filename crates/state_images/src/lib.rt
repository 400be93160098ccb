//! States of the source machine up to names: when one stands for another, and when a set of states stands for all runs of scripts.
#![tactic(auto)]

pub mod laws;
