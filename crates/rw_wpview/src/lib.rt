//! The conditions under which a program of other origin, noted with invariants, refines a specification.
#![tactic(auto)]

pub mod before;
pub mod conditions;
pub mod kept;
pub mod loops;
pub mod owed;
pub mod parts;
pub mod some;
pub mod test;
