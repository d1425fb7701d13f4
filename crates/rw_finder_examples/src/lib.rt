//! Examples of goals with many hypotheses, and what is found for them, worked by hand.
#![tactic(auto)]

#[cfg(test)]
mod many;
