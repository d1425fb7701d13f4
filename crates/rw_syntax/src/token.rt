//! The tokens.

use rw_terms::name::Name;

/// An operator between two operands.
#[derive(Clone, Copy, Debug, PartialEq, Eq)]
pub enum Infix {
    Implies,
    Or,
    And,
    Equal,
    Unequal,
    Less,
    AtMost,
    Greater,
    AtLeast,
    Plus,
    Minus,
    Times,
    Div,
    Mod,
}

#[derive(Clone, Copy, Debug, PartialEq, Eq)]
pub enum Quantifier {
    All,
    Any,
}

/// A token. `Infix::Minus` is also the prefix.
#[derive(Drop)]
pub enum Token {
    Number(u128),
    Word(Name),
    Initial(Name),
    /// A binder's name that is `_` and a number.
    Place(u128),
    Truth(bool),
    Infix(Infix),
    Not,
    Quantifier(Quantifier),
    Int,
    Array,
    Put,
    Open,
    Close,
    OpenSquare,
    CloseSquare,
    Comma,
    Colon,
    Dot,
}
