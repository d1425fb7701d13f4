//! What uses an entry of the table, or a global.
#![tactic(auto)]

pub mod entries;
pub mod nodes;
pub mod users;
