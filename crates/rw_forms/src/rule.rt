//! The rules of certificates that name a formula alone.

/// A rule that names a formula by its number.
#[derive(Clone, Copy, Debug, PartialEq, Eq)]
pub enum FormulaRule {
    DropL,
    DropR,
    NotL,
    NotR,
    AndL,
    AndR,
    OrL,
    OrR,
    ImpL,
    ImpR,
    EqR,
    Flip,
    UnfoldL,
    UnfoldR,
}
