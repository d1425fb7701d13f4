// A slow reader of one request, line by line.
use std::str;

/// A request and what is left behind it.
#[derive(Clone, Copy)]
pub(crate) struct Parts<'a> {
    pub method: &'a [u8],
    pub target: &'a [u8],
    pub body: &'a [u8],
    pub rest: &'a [u8],
}

/// What the bytes give first.
#[derive(Clone, Copy)]
pub(crate) enum Slow<'a> {
    Request(Parts<'a>),
    BadHead,
    TooLong,
    Cut,
}

/// What is known of a head after some of its lines.
#[derive(Clone, Copy)]
struct Seen<'a> {
    method: &'a [u8],
    target: &'a [u8],
    fields: u32,
    lengths: u32,
    length: Option<usize>,
    coded: bool,
}

fn has_text(line: &[u8]) -> bool {
    for byte in line {
        if *byte != b'\r' && *byte != b'\n' {
            return true;
        }
    }
    false
}

fn is_blank(line: &[u8]) -> bool {
    line.is_empty() || line == b"\r".as_slice()
}

// How many bytes the head has: its lines up to the first blank one behind a line with text.
fn head_end(bytes: &[u8]) -> Option<usize> {
    let mut end: usize = 0;
    let mut has_begun = false;
    for line in bytes.split(|byte| *byte == b'\n') {
        end = end.saturating_add(line.len()).saturating_add(1);
        // The last line has no LF.
        if end > bytes.len() {
            return None;
        }
        if has_begun && is_blank(line) {
            return Some(end);
        }
        has_begun |= has_text(line);
    }
    None
}

// What stands before a byte, and what behind it.
fn cut_at(bytes: &[u8], mark: u8) -> Option<(&[u8], &[u8])> {
    for at in 0..bytes.len() {
        if bytes[at] == mark {
            return Some((&bytes[..at], &bytes[at + 1..]));
        }
    }
    None
}

fn is_token(text: &[u8]) -> bool {
    for byte in text {
        if !byte.is_ascii_alphanumeric() && !b"!#$%&'*+-.^_`|~".contains(byte) {
            return false;
        }
    }
    !text.is_empty()
}

fn is_target(text: &[u8]) -> bool {
    for byte in text {
        if *byte <= 32 || *byte == 127 {
            return false;
        }
    }
    !text.is_empty() && str::from_utf8(text).is_ok()
}

fn is_value(text: &[u8]) -> bool {
    for byte in text {
        if *byte == 127 || (*byte < 32 && *byte != b'\t') {
            return false;
        }
    }
    true
}

fn trimmed(text: &[u8]) -> &[u8] {
    let mut text = text;
    for _byte in 0..text.len() {
        text = match text {
            [b' ' | b'\t', rest @ ..] => rest,
            [rest @ .., b' ' | b'\t'] => rest,
            _ => text,
        };
    }
    text
}

fn decimal(text: &[u8]) -> Option<usize> {
    if text.is_empty() {
        return None;
    }
    let mut number: usize = 0;
    for byte in text {
        if !byte.is_ascii_digit() {
            return None;
        }
        number = number
            .saturating_mul(10)
            .saturating_add((*byte - b'0') as usize);
    }
    Some(number)
}

fn start_line(line: &[u8]) -> Option<Seen<'_>> {
    let (method, rest) = cut_at(line, b' ')?;
    let (target, version) = cut_at(rest, b' ')?;
    let is_version = version == b"HTTP/1.0".as_slice() || version == b"HTTP/1.1".as_slice();
    if !is_token(method) || !is_target(target) || !is_version {
        return None;
    }
    Some(Seen {
        method,
        target,
        fields: 0,
        lengths: 0,
        length: Some(0),
        coded: false,
    })
}

fn field_line<'a>(line: &'a [u8], seen: Seen<'a>) -> Option<Seen<'a>> {
    let (name, value) = cut_at(line, b':')?;
    if !is_token(name) || !is_value(value) {
        return None;
    }
    let mut seen = seen;
    seen.fields = seen.fields.saturating_add(1);
    if name.eq_ignore_ascii_case(b"content-length") {
        seen.lengths = seen.lengths.saturating_add(1);
        seen.length = decimal(trimmed(value));
    }
    if name.eq_ignore_ascii_case(b"transfer-encoding") {
        seen.coded = true;
    }
    Some(seen)
}

// Reads the lines of a head; None where one of them is none.
fn lines(front: &[u8]) -> Option<Seen<'_>> {
    let mut seen = None;
    for whole in front.split(|byte| *byte == b'\n') {
        let line = whole.strip_suffix(b"\r").unwrap_or(whole);
        match seen {
            None if line.is_empty() => {}
            None => seen = Some(start_line(line)?),
            Some(_) if line.is_empty() => break,
            Some(so_far) => seen = Some(field_line(line, so_far)?),
        }
    }
    seen
}

// The request with this head, if what stands behind it has the whole body.
fn with_body<'a>(seen: Seen<'a>, length: usize, behind: &'a [u8]) -> Slow<'a> {
    if behind.len() < length {
        return Slow::Cut;
    }
    let (body, rest) = behind.split_at(length);
    Slow::Request(Parts {
        method: seen.method,
        target: seen.target,
        body,
        rest,
    })
}

/// What an input of these bytes gives first, where its head is no longer than its limit.
pub(crate) fn read(bytes: &[u8]) -> Slow<'_> {
    let Some(end) = head_end(bytes) else {
        return Slow::Cut;
    };
    let (head, behind) = bytes.split_at(end.min(bytes.len()));
    let Some(seen) = lines(head) else {
        return Slow::BadHead;
    };
    let Some(length) = seen.length else {
        return Slow::BadHead;
    };
    if seen.fields > 64 || seen.lengths > 1 || seen.coded {
        Slow::BadHead
    } else if length > 65_536 {
        Slow::TooLong
    } else {
        with_body(seen, length, behind)
    }
}
