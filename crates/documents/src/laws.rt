//! What holds of texts as documents.

ghost use Rattle.documents.specs.DocumentLaws.{TextsAreDocuments};

/// Bytes that stand for a text by the grammar of texts stand, by that of documents, for the text with the default settings,
/// no script and no schedule.
#[tactic(auto, using(crate::proofs::TextDocuments::texts_are_documents))]
pub fn texts_are_documents()
    ensures { TextsAreDocuments }
{}
