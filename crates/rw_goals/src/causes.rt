//! Why a line of a certificate fails: the causes by their numbers.

/// No goal is left where the line stands.
pub const NO_GOAL: u8 = 1;

/// A goal is left behind the last line.
pub const UNCLOSED: u8 = 2;

/// No formula of the goal has the number.
pub const NO_FORMULA: u8 = 3;

/// The goal or the principal formula is not of the rule's form.
pub const SHAPE: u8 = 4;

/// The name is one of the goal, or free in it.
pub const NOT_FRESH: u8 = 5;

/// A term or a formula does not keep the rules of sorts, or what the line cites is not there.
pub const SORT: u8 = 6;

/// What the line makes is past a limit.
pub const TOO_LARGE: u8 = 7;

/// The lemma that the line cites does not stand before.
pub const ORDER: u8 = 8;

/// An arithmetic line is not of its form.
pub const BAD_LINE: u8 = 9;

/// A number of an arithmetic line passes 128 bits.
pub const WIDE: u8 = 10;

/// The arithmetic lines end without a contradiction.
pub const NO_CONTRADICTION: u8 = 11;
