//! Named trees: nodes by their places, the table, and the projects that lists of edits make.
#![tactic(auto)]

pub mod copying;
pub mod globals;
pub mod node;
pub mod parts;
pub mod tree;
