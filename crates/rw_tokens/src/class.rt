//! What tokens are to terms and formulas.

ghost use Rattle.std.specs.Prelude.{◌≡◌, map, List};
ghost use Rattle.rw_tokens.specs.Classes.{mark_in, mark_texts, mark_class, name_class, text_class, class_of};
ghost use Rattle.rw_tokens.specs.Seen.{seen};

use crate::token::Token;
use rw_syntax::token::{Infix, Quantifier, Token as Class};
use rw_terms::name::Name;

/// A word or symbol of terms and formulas that is no name.
#[derive(Clone, Copy)]
pub enum Mark {
    Infix(Infix),
    Truth(bool),
    Quantifier(Quantifier),
    Not,
    Int,
    Array,
    Put,
    Open,
    Close,
    OpenSquare,
    CloseSquare,
    Comma,
    Colon,
    Dot,
}

const MARKS: [(&str, Mark); 29] = [
    ("and", Mark::Infix(Infix::And)),
    ("or", Mark::Infix(Infix::Or)),
    ("=>", Mark::Infix(Infix::Implies)),
    ("not", Mark::Not),
    ("true", Mark::Truth(true)),
    ("false", Mark::Truth(false)),
    ("forall", Mark::Quantifier(Quantifier::All)),
    ("exists", Mark::Quantifier(Quantifier::Any)),
    ("int", Mark::Int),
    ("array", Mark::Array),
    ("put", Mark::Put),
    ("=", Mark::Infix(Infix::Equal)),
    ("<>", Mark::Infix(Infix::Unequal)),
    ("<", Mark::Infix(Infix::Less)),
    ("<=", Mark::Infix(Infix::AtMost)),
    (">", Mark::Infix(Infix::Greater)),
    (">=", Mark::Infix(Infix::AtLeast)),
    ("+", Mark::Infix(Infix::Plus)),
    ("-", Mark::Infix(Infix::Minus)),
    ("*", Mark::Infix(Infix::Times)),
    ("div", Mark::Infix(Infix::Div)),
    ("mod", Mark::Infix(Infix::Mod)),
    ("(", Mark::Open),
    (")", Mark::Close),
    ("[", Mark::OpenSquare),
    ("]", Mark::CloseSquare),
    (",", Mark::Comma),
    (":", Mark::Colon),
    (".", Mark::Dot),
];

fn mark_in(table: &[(&str, Mark)], text: &[u8]) -> Option<Mark>
    ensures { result ≡ mark_in (map (λ k. (k.0.now, k.1)) table.now) text.now }
{
    for (word, mark) in table {
        if text == word.as_bytes() {
            return Some(*mark);
        }
    }
    None
}

#[tactic(auto, unfolding(crate::specs::Classes::mark_texts))]
fn mark_of(text: &[u8]) -> Option<Mark>
    ensures { result ≡ mark_in mark_texts text.now }
{
    mark_in(&MARKS, text)
}

fn mark_class(mark: Mark) -> Class
    ensures { result ≡ mark_class mark }
{
    match mark {
        Mark::Infix(op) => Class::Infix(op),
        Mark::Truth(value) => Class::Truth(value),
        Mark::Quantifier(quantifier) => Class::Quantifier(quantifier),
        Mark::Not => Class::Not,
        Mark::Int => Class::Int,
        Mark::Array => Class::Array,
        Mark::Put => Class::Put,
        Mark::Open => Class::Open,
        Mark::Close => Class::Close,
        Mark::OpenSquare => Class::OpenSquare,
        Mark::CloseSquare => Class::CloseSquare,
        Mark::Comma => Class::Comma,
        Mark::Colon => Class::Colon,
        Mark::Dot => Class::Dot,
    }
}

// A name, or a name with 0 behind it.
#[tactic(auto, unfolding(crate::specs::Classes::name_class))]
fn name_class(text: &[u8]) -> Option<Class>
    ensures { result ≡ name_class text.now }
{
    if let Ok(name) = Name::read(text) {
        return Some(Class::Word(name));
    }
    match text {
        [front @ .., b'0'] => match Name::read(front) {
            Ok(name) => Some(Class::Initial(name)),
            Err(_) => None,
        },
        _ => None,
    }
}

#[tactic(auto, unfolding(crate::specs::Classes::text_class))]
fn text_class(text: &[u8]) -> Option<Class>
    ensures { result ≡ text_class text.now }
{
    match mark_of(text) {
        Some(mark) => Some(mark_class(mark)),
        None => name_class(text),
    }
}

/// What a token is in a term or a formula. `None` where it stands in none.
#[tactic(auto, unfolding(crate::specs::Classes::class_of))]
pub fn class_of(token: Token) -> Option<Class>
    ensures { result ≡ class_of (seen token.entry) }
{
    match token {
        Token::Text(text) => text_class(text),
        Token::Number(n) => Some(Class::Number(n)),
        Token::Binder(n) => Some(Class::Place(n)),
    }
}
