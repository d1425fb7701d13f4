// What the fields of a head say of the body's length.
ghost use Rattle.std.specs.Prelude.{◌≡◌, length, map, take, All};
ghost use Rattle.std.specs.Char.{to_ascii_lowercase};
ghost use Rattle.httparse.specs.Spans.{IsHeaderWithin, header_bytes};
ghost use Rattle.rw_http.specs.Fields.{is_named, values_of, decimal_number, body_length, up_to_limit};
ghost use Rattle.rw_http.specs.NamedValues.{HoldsValues, with_value};

use httparse::spans::{HeaderSpan, Span};

/// What is one more than the most bytes of a body.
pub(crate) const PAST_BODY: usize = 65_537;

/// The value of the one field that has a name.
#[derive(Clone, Copy)]
pub(crate) enum Named {
    Never,
    Once(Span),
    Often,
}

fn is_named(front: &[u8], header: &HeaderSpan, name: &[u8]) -> bool
    requires within { IsHeaderWithin (length front.now) header.now }
    requires lower { map to_ascii_lowercase name.now ≡ name.now }
    ensures { result ≡ is_named name.now (header_bytes front.now header.now) }
{
    header.name.of(front).eq_ignore_ascii_case(name)
}

// The answer with one more value behind those that were found.
fn with_value(found: Named, value: Span) -> Named
    ensures { result ≡ with_value found value }
{
    match found {
        Named::Never => Named::Once(value),
        _ => Named::Often,
    }
}

fn find_named(front: &[u8], headers: &[HeaderSpan], name: &[u8]) -> Named
    requires within { All (IsHeaderWithin (length front.now)) headers.now }
    requires lower { map to_ascii_lowercase name.now ≡ name.now }
    ensures { HoldsValues front.now result (values_of name.now (map (header_bytes front.now) headers.now)) }
{
    let mut found = Named::Never;
    for header in headers {
        if is_named(front, header, name) {
            found = with_value(found, header.value);
        }
    }
    found
}

// The number that a text writes; from 65,537 on they are all one.
fn read_decimal(text: &[u8]) -> Option<usize>
    ensures { result ≡ up_to_limit (decimal_number text.now) }
{
    if text.is_empty() {
        return None;
    }
    let mut number = 0;
    for byte in text {
        if !byte.is_ascii_digit() {
            return None;
        }
        number = (number * 10 + (*byte - b'0') as usize).min(PAST_BODY);
    }
    Some(number)
}

/// The length of the body that these fields give; from 65,537 on all lengths are one. None where a head with them is refused.
pub(crate) fn body_length(front: &[u8], headers: &[HeaderSpan]) -> Option<usize>
    requires { All (IsHeaderWithin (length front.now)) headers.now }
    ensures { result ≡ up_to_limit (body_length (map (header_bytes front.now) headers.now)) }
{
    match find_named(front, headers, b"transfer-encoding") {
        Named::Never => {}
        _ => return None,
    }
    match find_named(front, headers, b"content-length") {
        Named::Never => Some(0),
        Named::Once(value) => read_decimal(value.of(front)),
        Named::Often => None,
    }
}
