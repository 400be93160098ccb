//! The canonical spelling of documents, with a law: it is read back as the same document.
#![tactic(auto)]

pub mod laws;
mod spelling;

pub use spelling::show_document;
