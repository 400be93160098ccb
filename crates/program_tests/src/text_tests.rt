//! What lines, tokens and numbers are at texts that were read by hand.

use oa_text::{Line, TextFault, lines, read_u64, tokens};
use std::process::Abort;

#[tactic(auto, using(crate::proofs::ShortTexts::few_lines))]
fn expect_lines(rt: &impl Abort, text: &[u8], expected: &[&[u8]]) {
    assert!(rt; text.len() < 1_000_000);
    let mut found = lines(text);
    let mut number = 1;
    for bytes in expected {
        let line = found.next().expect(rt, "a line is missing");
        assert!(rt; line.bytes() == *bytes);
        assert!(rt; line.number() == number);
        number = line.number().saturating_add(1);
    }
    assert!(rt; found.next().is_none());
}

#[tactic(auto, using(crate::proofs::ShortTexts::few_lines))]
fn line_at<'a>(rt: &impl Abort, text: &'a [u8], index: usize) -> Line<'a> {
    assert!(rt; text.len() < 1_000_000);
    lines(text).nth(index).expect(rt, "a line is missing")
}

fn expect_tokens(rt: &impl Abort, line: &[u8], expected: &[(u32, &[u8])]) {
    let mut found = tokens(line_at(rt, line, 0)).expect(rt, "the line has a fault");
    for (column, bytes) in expected {
        let token = found.next().expect(rt, "a token is missing");
        assert!(rt; token.column() == *column);
        assert!(rt; token.bytes() == *bytes);
    }
    assert!(rt; found.next().is_none());
}

// What is wrong with the seventh line.
fn fault_of(rt: &impl Abort, text: &[u8]) -> Option<TextFault> {
    tokens(line_at(rt, text, 6)).err()
}

// What the seventh line's first token says as a number.
fn number_of(rt: &impl Abort, text: &[u8]) -> Result<Option<u64>, TextFault> {
    let line = line_at(rt, text, 6);
    let mut found = tokens(line).expect(rt, "the line has a fault");
    read_u64(line, found.next().expect(rt, "a token is missing"))
}

#[test]
fn texts_fall_into_lines_and_tokens(rt: HostRuntime) {
    expect_lines(&rt, b"a\n\nb", &[b"a", b"", b"b"]);
    expect_lines(&rt, b"a\n", &[b"a"]);
    expect_lines(&rt, b"", &[]);
    expect_lines(&rt, b"\n", &[b""]);
    expect_tokens(&rt, b" ab\tc  ", &[(2, b"ab"), (5, b"c")]);
    expect_tokens(&rt, b"oa 1", &[(1, b"oa"), (4, b"1")]);
    expect_tokens(&rt, b"# ~", &[(1, b"#"), (3, b"~")]);
    expect_tokens(&rt, b" \t ", &[]);
}

#[test]
fn lines_and_numbers_have_faults(rt: HostRuntime) {
    // Six empty lines, and then blanks.
    let mut long = [b' '; 207];
    long[..6].copy_from_slice(b"\n\n\n\n\n\n");
    let line = TextFault::LineLong {
        line: 7,
        column: 201,
    };
    assert!(rt; fault_of(&rt, &long) == Some(line));
    assert!(rt; fault_of(&rt, &long[..206]).is_none());
    assert!(rt; fault_of(&rt, b"\n\n\n\n\n\nab\r") == Some(TextFault::Byte { line: 7, column: 3 }));
    assert!(rt;
        fault_of(&rt, b"\n\n\n\n\n\n\x7f\r") == Some(TextFault::Byte { line: 7, column: 1 })
    );
}

#[test]
fn numbers_are_read(rt: HostRuntime) {
    let most: &[u8] = b"\n\n\n\n\n\n    18446744073709551615";
    assert!(rt; number_of(&rt, most) == Ok(Some(18446744073709551615)));
    let fault = TextFault::Number { line: 7, column: 5 };
    for large in [
        b"\n\n\n\n\n\n    18446744073709551616".as_slice(),
        b"\n\n\n\n\n\n    100000000000000000000000000",
    ] {
        assert!(rt; number_of(&rt, large) == Err(fault));
    }
    assert!(rt; number_of(&rt, b"\n\n\n\n\n\n    0") == Ok(Some(0)));
    assert!(rt; number_of(&rt, b"\n\n\n\n\n\n    10") == Ok(Some(10)));
    for other in [
        b"\n\n\n\n\n\n    007".as_slice(),
        b"\n\n\n\n\n\n    -1",
        b"\n\n\n\n\n\n    +1",
        b"\n\n\n\n\n\n    1a",
        b"\n\n\n\n\n\n    a",
    ] {
        assert!(rt; number_of(&rt, other) == Ok(None));
    }
}
