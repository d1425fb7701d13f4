//! Examples worked by hand, of one crate or across several: the calls of the crates below the project on their happy paths and at their edges.
#![tactic(auto)]

#[cfg(test)]
mod copies;
#[cfg(test)]
mod laws;
#[cfg(test)]
mod lemmas;
#[cfg(test)]
mod loops;
