//! What holds of every text that bytes stand for, of spellings, and of the shipped texts: laws over the definitions of
//! the language, apart from them, so that an edit of the language's code doesn't prove them again.
#![tactic(auto)]

pub mod laws;
