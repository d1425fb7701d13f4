//! Examples of modules and their concrete heads, worked by hand.
#![tactic(auto)]

#[cfg(test)]
mod heads;
