//! A project behind its lines: each request line gets the reply that its live edits, checked anew, are owed.
#![tactic(auto)]

mod finding;
mod goals;
mod laws;
mod project;
mod silent;
mod texts;

pub use laws::{lines_are_the_text, shown_closed_exactly};
pub use project::{Project, ProjectError, Reply};
pub use silent::is_silent;
