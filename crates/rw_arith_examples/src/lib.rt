//! Examples of expansions and arithmetic lines, worked by hand.
#![tactic(auto)]

#[cfg(test)]
mod arithmetic;
