//! How lines are spelled, by their first words.

ghost use Rattle.std.specs.Prelude.{◌≡◌};
ghost use Rattle.message_words.specs.Forms.{declaration_form, local_form, access_form, flow_form, tail_form, certificate_form, or_form, line_form};

/// The lines that declare; no bytes for another word.
#[tactic(auto, unfolding(crate::specs::Forms::declaration_form))]
fn declaration_form(word: &[u8]) -> &'static [u8]
    ensures { result.now ≡ declaration_form word.now }
{
    if word == b"oa".as_slice() {
        b"'oa 1' or 'oa 2', once, as the first line"
    } else if word == b"use".as_slice() {
        b"'use list', 'use set B' or 'use queue', right after the first line"
    } else if word == b"kind".as_slice() {
        b"'kind NAME', in version 2 alone, before the fields"
    } else if word == b"field".as_slice() {
        b"'field NAME num' or 'field NAME ref', in version 2 'field KIND NAME num' or 'field KIND NAME ref KIND' for each kind in turn, before the initial nodes"
    } else if word == b"nodes".as_slice() {
        b"'nodes K', in version 2 'nodes KIND K' for each kind in turn, after the fields"
    } else if word == b"node".as_slice() {
        b"'node V V ..', a value for each field, in version 2 of its kind, after the nodes lines and as often as they say"
    } else if word == b"root".as_slice() {
        b"'root D X' in a method, and 'root NAME num V' or 'root NAME ref V', in version 2 'root NAME ref KIND V', after the nodes lines and as many node lines as they say, and before the operations"
    } else if word == b"op".as_slice() {
        b"'op NAME A', where NAME is not script or schedule, after the roots or a whole operation, and 'op C N' in the schedule, where N is not 0"
    } else if word == b"gen".as_slice() {
        b"'gen' alone, after an op line"
    } else if word == b"wrap".as_slice() {
        b"'wrap' alone, after the instructions of a generator"
    } else {
        b""
    }
}

/// Instructions that set a register from others; no bytes for another word.
#[tactic(auto, unfolding(crate::specs::Forms::local_form))]
fn local_form(word: &[u8]) -> &'static [u8]
    ensures { result.now ≡ local_form word.now }
{
    if word == b"set".as_slice() {
        b"'set D V', registers being n0 to n7 and r0 to r7"
    } else if word == b"mov".as_slice() {
        b"'mov D A', registers being n0 to n7 and r0 to r7"
    } else if word == b"add".as_slice() {
        b"'add D A B', registers being n0 to n7 and r0 to r7"
    } else if word == b"sub".as_slice() {
        b"'sub D A B', registers being n0 to n7 and r0 to r7"
    } else if word == b"rem".as_slice() {
        b"'rem D A V', where V is not 0, registers being n0 to n7 and r0 to r7"
    } else if word == b"null".as_slice() {
        b"'null D', registers being n0 to n7 and r0 to r7"
    } else if word == b"mark".as_slice() {
        b"'mark D A', registers being n0 to n7 and r0 to r7"
    } else if word == b"unmark".as_slice() {
        b"'unmark D A', registers being n0 to n7 and r0 to r7"
    } else {
        b""
    }
}

/// Instructions on shared memory, and entries of a commit; no bytes for another word.
#[tactic(auto, unfolding(crate::specs::Forms::access_form))]
fn access_form(word: &[u8]) -> &'static [u8]
    ensures { result.now ≡ access_form word.now }
{
    if word == b"pick".as_slice() {
        b"'pick D X V A', where V is not 0, registers being n0 to n7 and r0 to r7"
    } else if word == b"load".as_slice() {
        b"'load D A F', registers being n0 to n7 and r0 to r7"
    } else if word == b"new".as_slice() {
        b"'new D', in version 2 'new D KIND', registers being n0 to n7 and r0 to r7"
    } else if word == b"put".as_slice() {
        b"'put A F B', registers being n0 to n7 and r0 to r7"
    } else if word == b"cas".as_slice() {
        b"'cas A F B D L', and maybe 'retire R', where L is the number of an instruction, counted from 0"
    } else if word == b"casroot".as_slice() {
        b"'casroot X B D L', and maybe 'retire R', where L is the number of an instruction, counted from 0"
    } else if word == b"commit".as_slice() {
        b"'commit K', with K lines 'with' or 'withroot' right after it"
    } else if word == b"with".as_slice() {
        b"'with A F B D', and maybe 'retire R', right after its commit, which says how many such lines follow"
    } else if word == b"withroot".as_slice() {
        b"'withroot X B D', and maybe 'retire R', right after its commit, which says how many such lines follow"
    } else {
        b""
    }
}

/// Instructions that jump, branch or end a method; no bytes for another word.
#[tactic(auto, unfolding(crate::specs::Forms::flow_form))]
fn flow_form(word: &[u8]) -> &'static [u8]
    ensures { result.now ≡ flow_form word.now }
{
    if word == b"jump".as_slice() {
        b"'jump L', where L is the number of an instruction, counted from 0"
    } else if word == b"ifeq".as_slice() {
        b"'ifeq A B L', where L is the number of an instruction, counted from 0"
    } else if word == b"ifless".as_slice() {
        b"'ifless A B L', where L is the number of an instruction, counted from 0"
    } else if word == b"ifmarked".as_slice() {
        b"'ifmarked A L', where L is the number of an instruction, counted from 0"
    } else if word == b"return".as_slice() {
        b"'return A', registers being n0 to n7 and r0 to r7"
    } else if word == b"returnnone".as_slice() {
        b"'returnnone' alone"
    } else if word == b"again".as_slice() {
        b"'again' alone"
    } else {
        b""
    }
}

/// The lines after a text; no bytes for another word.
#[tactic(auto, unfolding(crate::specs::Forms::tail_form))]
fn tail_form(word: &[u8]) -> &'static [u8]
    ensures { result.now ≡ tail_form word.now }
{
    if word == b"slots".as_slice() {
        b"'slots S', in version 2 'slots KIND S', once for each kind, after the text and before the phases, the fuel and the scripts"
    } else if word == b"phases".as_slice() {
        b"'phases F L', once, after the text and the slots and before the fuel and the scripts"
    } else if word == b"fuel".as_slice() {
        b"'fuel N', once, after the text, the slots and the phases and before the scripts"
    } else if word == b"script".as_slice() {
        b"'script C', where C counts the scripts from 0, after the text and before the schedule"
    } else if word == b"schedule".as_slice() {
        b"'schedule' alone, once, after the text and the scripts"
    } else if word == b"step".as_slice() {
        b"'step C N' in the schedule, where N is not 0"
    } else if word == b"upto".as_slice() {
        b"'upto C load N', 'upto C check N' or 'upto C exchange N' in the schedule, where N is not 0"
    } else {
        b""
    }
}

/// The lines of a certificate after its schedule; no bytes for another word.
#[tactic(auto, unfolding(crate::specs::Forms::certificate_form))]
fn certificate_form(word: &[u8]) -> &'static [u8]
    ensures { result.now ≡ certificate_form word.now }
{
    if word == b"events".as_slice() {
        b"'events' alone, in a certificate, behind the schedule"
    } else if word == b"begin".as_slice() {
        b"'begin C NAME V V ..' among the events, with as many numbers as the operation has arguments"
    } else if word == b"access".as_slice() {
        b"'access C N' among the events"
    } else if word == b"restart".as_slice() {
        b"'restart C' among the events"
    } else if word == b"full".as_slice() {
        b"'full C' among the events"
    } else if word == b"replies".as_slice() {
        b"'replies' alone, in a certificate, behind the events"
    } else if word == b"reply".as_slice() {
        b"'reply C V' among the replies, by callers in their order, where V is a number, none, full or phases P"
    } else {
        b""
    }
}

/// The first form, or the second if the first has no bytes.
fn or_form(form: &'static [u8], other: &'static [u8]) -> &'static [u8]
    ensures { result.now ≡ or_form form.now other.now }
{
    if form.is_empty() { other } else { form }
}

/// How a line that begins with a word is spelled, and where it may stand; no bytes if no line begins so.
#[tactic(auto, unfolding(crate::specs::Forms::line_form))]
pub fn line_form(word: &[u8]) -> &'static [u8]
    ensures { result.now ≡ line_form word.now }
{
    let method = or_form(
        local_form(word),
        or_form(access_form(word), flow_form(word)),
    );
    let behind = or_form(tail_form(word), certificate_form(word));
    or_form(declaration_form(word), or_form(method, behind))
}
