//! Programs that were not derived, with an invariant at each loop, and their code.
#![tactic(auto)]

pub mod code;
pub mod copying;
pub mod noted;
