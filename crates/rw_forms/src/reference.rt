//! What a part of a sum names.

ghost use Rattle.std.specs.Prelude.{◌≡◌, option_map};
ghost use Rattle.std.specs.List.{list_all};
ghost use Rattle.rw_terms.specs.Names.{is_digit};
ghost use Rattle.rw_arith.specs.declared.line.Ref.{Ref};
ghost use Rattle.rw_forms.specs.Forms.{counted, digits_number, formula_named, reference_of};
ghost use Rattle.rw_tokens.specs.Seen.{seen};

use rw_arith::line::Ref;
use rw_tokens::token::{Token, number};

/// What the token names, where it names a formula or a line.
pub fn reference_of(token: Token) -> Option<Ref>
    ensures { result ≡ reference_of (seen token.entry) }
{
    match token {
        Token::Text(text) => formula_named(text),
        Token::Number(n) => match counted(n) {
            Some(line) => Some(Ref::Line(line)),
            None => None,
        },
        Token::Binder(_) => None,
    }
}

fn formula_named(text: &[u8]) -> Option<Ref>
    ensures { result ≡ formula_named text.now }
{
    match text {
        [] => None,
        [b'L', digits @ ..] => match digits_number(digits) {
            Some(number) => Some(Ref::Left(number)),
            None => None,
        },
        [b'R', digits @ ..] => match digits_number(digits) {
            Some(number) => Some(Ref::Right(number)),
            None => None,
        },
        [_, ..] => None,
    }
}

fn digits_number(digits: &[u8]) -> Option<u32>
    ensures { result ≡ digits_number digits.now }
{
    if digits.is_empty() || !are_digits(digits) {
        return None;
    }
    match number(digits) {
        Some(n) => counted(n),
        None => None,
    }
}

fn are_digits(bytes: &[u8]) -> bool
    ensures { result ≡ list_all is_digit bytes.now }
{
    for b in bytes {
        if !b.is_ascii_digit() {
            return false;
        }
    }
    true
}

fn counted(n: u128) -> Option<u32>
    ensures { result ≡ counted n }
{
    if n <= 4294967295 {
        Some(n as u32)
    } else {
        None
    }
}
