//! A certificate that is made, shown, read and judged.

ghost use Rattle.documents.specs.DocumentLimits.{IsWithinDocumentLimits};

use documents::{Document, read_document};
use norm_lang::text::ByteText;
use run_judge::{Verdict, judge, make_certificate, read_certificate, show_certificate};
use std::process::Abort;

const COUNTER: &[u8] = b"oa 1
field pad num
nodes 0
root total num 0
op add 1
gen
root n1 total
add n2 n1 n0
commit 1
withroot total n1 n2
wrap
set n3 0
ifeq n7 n3 3
return n2
again
script 0
add 5
";

/// The load of `total` and its exchange are the two accesses.
const ACCOUNT: &[u8] = b"
script 0
add 5
schedule
events
begin 0 add 5
access 0 0
access 0 0
replies
reply 0 5
";

#[tactic(auto, using(crate::proofs::ShortTexts::few_lines))]
fn document_of(rt: &(impl Abort + AllocGlobal), bytes: &[u8]) -> Document
    ensures { IsWithinDocumentLimits result }
{
    assert!(rt; bytes.len() < 1_000_000);
    let Ok(document) = read_document(rt.alloc(), bytes) else {
        panic!(rt; "the bytes spell no document");
    };
    document
}

fn certified(rt: &(impl Abort + AllocGlobal), document: &Document) -> ByteText
    requires { IsWithinDocumentLimits document.now }
{
    let Ok(certificate) = make_certificate(rt.alloc(), document) else {
        panic!(rt; "the document isn't replayed");
    };
    let Ok(text) = show_certificate(rt.alloc(), &certificate) else {
        panic!(rt; "memory ran out");
    };
    text
}

#[tactic(auto, using(crate::proofs::ShortTexts::few_lines))]
fn judged(rt: &(impl Abort + AllocGlobal), bytes: &[u8]) -> Verdict {
    assert!(rt; bytes.len() < 1_000_000);
    let Ok(certificate) = read_certificate(rt.alloc(), bytes) else {
        panic!(rt; "the bytes spell no certificate");
    };
    let Ok(verdict) = judge(rt.alloc(), &certificate) else {
        panic!(rt; "the certificate isn't judged");
    };
    verdict
}

#[test]
fn the_counter_is_certified(rt: HostRuntime) {
    let text = certified(&rt, &document_of(&rt, COUNTER));
    assert!(rt; text.items().ends_with(ACCOUNT));
    assert!(rt; matches!(judged(&rt, text.items()), Verdict::Accepted));
}
