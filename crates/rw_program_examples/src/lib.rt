//! Examples of the texts of programs and steps: what is printed, and how deep a program may be, worked by hand.
#![tactic(auto)]

#[cfg(test)]
mod nested;
#[cfg(test)]
mod printing;
#[cfg(test)]
mod steps;
