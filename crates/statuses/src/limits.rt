//! How many bytes the program reads of its input. Each limit stands here alone: definitions cite these constants, and so does the code. An
//! input of that length is too long; the message names one byte less.

/// A document has fewer bytes.
pub const DOCUMENT_LIMIT: usize = 1_048_577;

/// A certificate has fewer bytes.
pub const CERTIFICATE_LIMIT: usize = 268_435_457;
