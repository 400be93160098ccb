//! What a certificate of a run of scripts says, and that the judge accepts it if the text is proper.
#![tactic(auto)]

pub mod laws;
