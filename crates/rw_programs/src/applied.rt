//! What a law makes of a specification, or why it does not fit.

ghost use Rattle.std.specs.Prelude.{◌≡◌};
ghost use Rattle.rw_programs.specs.declared.applied.ApplyError.TheVariants as apply_error;

use crate::prog::{Prog, Spec};
use rw_items::Items;
use rw_terms::name::Name;
use rw_terms::scope::Scope;
use rw_terms::sequent::Sequent;
use std::alloc::AllocError;
use thiserror::Error;

/// Where a specification stands. `order` is the table place of its tree, `u32::MAX` for the main one.
#[derive(Drop)]
pub struct Context {
    pub scope: Scope,
    pub opened: Items<Name>,
    pub order: u32,
    pub inner: bool,
}

/// A kid's specification, and where it stands.
#[derive(Drop)]
pub struct Child {
    pub context: Context,
    pub spec: Spec,
}

/// Why a law does not fit; the causes are numbered from 1 in this order.
#[derive(Clone, Copy, Debug, PartialEq, Eq)]
pub enum Misfit {
    Shape,
    InitialNotAllowed,
    NotFresh,
    NotCode,
    NotInFrame,
    Sort,
    Unknown,
    TooLarge,
    Order,
    Alias,
}

/// Why a law gives nothing.
#[derive(Debug, Drop, Error)]
pub enum ApplyError {
    #[error("misfit {0:?}")]
    Misfit(Misfit),
    #[error("out of memory")]
    Memory,
}

impl From<AllocError> for ApplyError {
    ghost from_gives = { λ _ e. e ≡ apply_error.Memory };

    fn from(_: AllocError) -> ApplyError {
        ApplyError::Memory
    }
}

/// What a step makes of a specification: a skeleton, what its kids are to meet, and what is to be shown.
#[derive(Drop)]
pub struct Applied {
    pub skeleton: Prog,
    pub children: Items<Child>,
    pub obligations: Items<Sequent>,
}
