//! The tokens of a line.

ghost use Rattle.std.specs.Prelude.{◌≡◌, ℕ, ◌+◌, ◌≤◌, take, drop, length, map, bytes_eq, option_map, cond, leb, IsTrue, IfSome, MatchOption};
ghost use Rattle.std.specs.List.{prefix_len, list_any};
ghost use Rattle.rw_terms.specs.Names.{is_letter, is_digit, goes_on};
ghost use Rattle.rw_tokens.specs.Tokens.{is_blank, skip, doubles, singles, value, leads_with_0, number_of, is_among, symbol_of, binder_of, digits_of, word_of, front_token, token_at};
ghost use Rattle.rw_tokens.specs.Seen.{seen, seen_sized};

/// A token, where it stands in the line.
#[derive(Clone, Copy, Debug)]
pub enum Token<'a> {
    /// A word or a symbol, by its bytes.
    Text(&'a [u8]),
    Number(u128),
    /// A binder's name that is `_` and this number.
    Binder(u128),
}

/// The largest number, 2^127 - 1.
pub const LARGEST: u128 = 170141183460469231731687303715884105727;

const DOUBLES: [&str; 10] = [":=", "<=", ">=", "<>", "=>", "|-", "|[", "]|", "[]", "->"];

const SINGLES: [&str; 18] = [
    "+", "-", "*", "/", "=", "<", ">", "(", ")", "[", "]", "{", "}", ",", ";", ":", ".", "|",
];

/// The token at a place, and the place of the next one. `None` where no token stands, also at the end.
pub fn token_at(line: &[u8], at: usize) -> Option<(Token, usize)>
    requires { at ≤ length line.now }
    ensures { MatchOption result (token_at (drop at line.now) ≡ None) (λ p. (p.1 ≤ length line.now) × (token_at (drop at line.now) ≡ Some (seen p.0, drop p.1 line.now))) }
{
    match front_token(&line[at..]) {
        Some((token, len)) => Some((token, skip(line, at + len))),
        None => None,
    }
}

/// The place behind the white space.
pub fn skip(line: &[u8], at: usize) -> usize
    requires { at ≤ length line.now }
    ensures within { result ≤ length line.now }
    ensures place { drop result line.now ≡ skip (drop at line.now) }
{
    at + blank_len(&line[at..])
}

fn blank_len(text: &[u8]) -> usize
    ensures { result ≡ prefix_len is_blank text.now }
{
    text.iter().take_while(|b| is_blank(**b)).count()
}

fn is_blank(b: u8) -> bool
    ensures { result ≡ is_blank b }
{
    b == b' ' || b == b'\t' || b == b'\r'
}

fn word_len(text: &[u8]) -> usize
    ensures { result ≡ prefix_len goes_on text.now }
{
    text.iter().take_while(|b| goes_on(**b)).count()
}

fn goes_on(b: u8) -> bool
    ensures { result ≡ goes_on b }
{
    is_letter(b) || b.is_ascii_digit() || b == b'_'
}

fn is_letter(b: u8) -> bool
    ensures { result ≡ is_letter b }
{
    b.is_ascii_alphabetic()
}

fn digits_len(text: &[u8]) -> usize
    ensures { result ≡ prefix_len is_digit text.now }
{
    text.iter().take_while(|b| b.is_ascii_digit()).count()
}

#[tactic(auto, unfolding(crate::specs::Tokens::front_token))]
fn front_token(text: &[u8]) -> Option<(Token, usize)>
    ensures token { option_map seen_sized result ≡ front_token text.now }
    ensures within { IfSome result (λ p. p.1 ≤ length text.now) }
{
    match text {
        [] => None,
        [b, rest @ ..] => {
            if is_letter(*b) {
                return Some(word(text));
            }
            if b.is_ascii_digit() {
                return digits(text);
            }
            if *b == b'_' {
                return binder(rest);
            }
            symbol(text)
        }
    }
}

#[tactic(auto, using(crate::proofs::Bytes::front_within))]
fn word(text: &[u8]) -> (Token, usize)
    ensures token { Some (seen_sized result) ≡ word_of text.now }
    ensures within { result.1 ≤ length text.now }
{
    let len = word_len(text);
    (Token::Text(&text[..len]), len)
}

#[tactic(auto, using(crate::proofs::Bytes::front_within))]
fn digits(text: &[u8]) -> Option<(Token, usize)>
    ensures token { option_map seen_sized result ≡ digits_of text.now }
    ensures within { IfSome result (λ p. p.1 ≤ length text.now) }
{
    let len = digits_len(text);
    match number(&text[..len]) {
        Some(n) => Some((Token::Number(n), len)),
        None => None,
    }
}

#[tactic(auto, using(crate::proofs::Bytes::front_within))]
fn binder(text: &[u8]) -> Option<(Token, usize)>
    ensures token { option_map seen_sized result ≡ binder_of text.now }
    ensures within { IfSome result (λ p. p.1 ≤ length text.now + 1) }
{
    let len = digits_len(text);
    match number(&text[..len]) {
        Some(n) => {
            if n >= 1 {
                Some((Token::Binder(n), len + 1))
            } else {
                None
            }
        }
        None => None,
    }
}

fn symbol(text: &[u8]) -> Option<(Token, usize)>
    requires { 1 ≤ length text.now }
    ensures token { option_map seen_sized result ≡ symbol_of text.now }
    ensures within { IfSome result (λ p. p.1 ≤ length text.now) }
{
    if is_double(text) {
        return Some((Token::Text(&text[..2]), 2));
    }
    if is_single(&text[..1]) {
        return Some((Token::Text(&text[..1]), 1));
    }
    None
}

#[tactic(auto, unfolding(crate::specs::Tokens::doubles))]
fn is_double(text: &[u8]) -> bool
    ensures same { result ≡ is_among doubles (take 2 text.now) }
    ensures long { IsTrue result → 2 ≤ length text.now }
{
    if text.len() < 2 {
        return false;
    }
    is_among(&DOUBLES, &text[..2])
}

#[tactic(auto, unfolding(crate::specs::Tokens::singles))]
fn is_single(text: &[u8]) -> bool
    ensures { result ≡ is_among singles text.now }
{
    is_among(&SINGLES, text)
}

fn is_among(words: &[&str], text: &[u8]) -> bool
    ensures { result ≡ list_any (bytes_eq text.now) (map (λ w. w.now) words.now) }
{
    for word in words {
        if text == word.as_bytes() {
            return true;
        }
    }
    false
}

/// The number that digits are, where it is a token.
#[tactic(auto, unfolding(crate::specs::Tokens::number_of))]
pub fn number(digits: &[u8]) -> Option<u128>
    ensures { result ≡ number_of digits.now }
{
    if leads_with_0(digits) {
        return None;
    }
    value(digits)
}

fn leads_with_0(digits: &[u8]) -> bool
    ensures { result ≡ leads_with_0 digits.now }
{
    match digits {
        [b'0', _, ..] => true,
        _ => false,
    }
}

// The value, where it is at most the largest number.
fn value(digits: &[u8]) -> Option<u128>
    ensures { result ≡ cond (leb (value 0 digits.now) 170141183460469231731687303715884105727) (Some (value 0 digits.now)) None }
{
    let mut n: u128 = 0;
    for b in digits {
        let digit = b.saturating_sub(b'0') as u128;
        if n > (LARGEST - digit) / 10 {
            return None;
        }
        n = n * 10 + digit;
    }
    Some(n)
}
